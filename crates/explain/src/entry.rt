//! Entries of a log in words.

use crate::call::add_call;
use crate::facts::Facts;
use crate::places::{Log, add_number, add_word};
use crate::reply::add_reply;
use crate::roster::{add_number_there, node_fact};
use authenticator::{Signature, signed_digest};
use secure_log::log_entries::{Body, Entry, SignatureText, link_hash, message_hash};
use secure_log::{Kind, Roster, Word, is_signed};

/// The names of the kinds of entries, by their numbers.
pub(crate) fn kind_name(kind: u32) -> &'static str {
    match kind {
        1 => "SEND",
        2 => "RECV",
        3 => "ACK",
        4 => "CLOCK",
        5 => "CHECK",
        _ => "unknown",
    }
}

/// Adds the entry at a place of a log, as an item: all that it says.
pub(crate) fn add_entry(facts: &mut Facts, log: &Log<'_>, at: usize) {
    let Some(entry) = log.entries().get(at) else {
        return;
    };
    facts.item();
    add_number(facts, log.number(at), log.skipped(at));
    add_content(facts, log, at, entry);
    facts.end();
}

/// Adds all entries of a log, each with the hash after it.
pub(crate) fn add_all_entries(facts: &mut Facts, log: &Log<'_>) {
    let mut hash = log.audited.opening();
    let mut numbers = log.numbers();
    facts.list("all entries");
    for at in 0..log.entries().len() {
        let entry = &log.entries()[at];
        let skipped = log.skipped(at);
        let number = numbers.after(skipped);
        hash = hash_after(&hash, number, skipped, entry);
        facts.item();
        add_number(facts, number, skipped);
        add_content(facts, log, at, entry);
        facts.hex("hash after it", &hash);
        facts.end();
    }
    facts.end();
}

/// The hash after an entry with a number, before which so many are skipped, from the hash before it.
fn hash_after(before: &[u8; 32], number: Option<u64>, skipped: u32, entry: &Entry) -> [u8; 32] {
    let word = number.unwrap_or(u64::MAX) | (u64::from(skipped) << 32);
    link_hash(before, word, entry.kind(), &entry.content_digest())
}

/// Adds what an entry at a place says.
fn add_content(facts: &mut Facts, log: &Log<'_>, at: usize, entry: &Entry) {
    facts.words("kind", kind_name(entry.kind()));
    match entry {
        Entry::Send { to, body } => {
            node_fact(facts, "to", log.roster, *to);
            add_sent(facts, log, at, *to, body);
        }
        Entry::Recv { .. } => add_received(facts, log, entry),
        Entry::Ack { .. } => add_acknowledgement(facts, log, entry),
        Entry::Clock {
            seconds,
            microseconds,
        } => facts.time("time", *seconds, *microseconds),
        Entry::Check { digest } => facts.hex("digest", digest),
    }
}

/// Adds what a RECV says.
fn add_received(facts: &mut Facts, log: &Log<'_>, entry: &Entry) {
    let Entry::Recv {
        from,
        seq,
        prev,
        body,
        signature,
    } = entry
    else {
        return;
    };
    node_fact(facts, "from", log.roster, *from);
    add_place_there(facts, log.roster, *from, *seq, prev);
    let name = if log.kind() == Some(Kind::Server) {
        "bytes"
    } else {
        "body"
    };
    let hash = message_hash(log.node(), *seq, prev, &body.digest());
    add_message_hash(facts, log.node(), *seq, name, &hash);
    add_signature(facts, log.roster, *from, *seq, &hash, signature);
    match log.kind() {
        Some(Kind::Server) => call_group(facts, log.node(), body.bytes()),
        _ => facts.hex("body", body.bytes()),
    }
}

/// Adds what an ACK says.
fn add_acknowledgement(facts: &mut Facts, log: &Log<'_>, entry: &Entry) {
    let Entry::Ack {
        to,
        seq,
        mine,
        number,
        prev,
        signature,
    } = entry
    else {
        return;
    };
    node_fact(facts, "of message to", log.roster, *to);
    add_word(facts, "its number", "its skipped", log.version(), seq.get());
    facts.hex("digest of its signature", mine);
    add_place_there(facts, log.roster, *to, *number, prev);
    facts.number("leaf", u64::from(signature.signature().leaf()));
    facts.hex("signature's sha256", &signature.digest());
}

/// Adds where an entry of another node's log stands.
fn add_place_there(facts: &mut Facts, roster: &Roster, node: u32, word: Word, prev: &[u8; 32]) {
    add_number_there(facts, roster, node, word.get());
    facts.hex("hash before it there", prev);
}

/// Adds the hash after a SEND in its sender's log, and what it is made of.
fn add_message_hash(facts: &mut Facts, to: u32, seq: Word, body: &str, hash: &[u8; 32]) {
    facts.hex("hash there", hash);
    let mut draft = facts.draft();
    draft.words("SHA-256(hash before it there | ");
    draft.hex(&seq.get().to_be_bytes());
    draft.words(" | 00000001 | SHA-256(");
    draft.hex(&to.to_be_bytes());
    draft.words(" | SHA-256(");
    draft.words(body);
    draft.words(")))");
    facts.text("hash there is", draft);
}

/// Adds by which leaf a node signed a hash at an entry's word, what was signed, and whether that verifies.
fn add_signature(
    facts: &mut Facts,
    roster: &Roster,
    node: u32,
    word: Word,
    hash: &[u8; 32],
    signature: &SignatureText,
) {
    add_signed_digest(facts, node, word, hash, "hash there");
    facts.number("leaf", u64::from(signature.signature().leaf()));
    facts.hex("signature's sha256", &signature.digest());
    add_verdict(facts, roster, node, word, hash, signature.signature());
}

/// Adds the digest that a signature is of, and what it is made of.
pub(crate) fn add_signed_digest(
    facts: &mut Facts,
    node: u32,
    word: Word,
    hash: &[u8; 32],
    name: &str,
) {
    facts.hex("signed digest", &signed_digest(node, word, hash));
    let mut draft = facts.draft();
    draft.words("SHA-256(");
    draft.hex(&node.to_be_bytes());
    draft.words(" | ");
    draft.hex(&word.get().to_be_bytes());
    draft.words(" | ");
    draft.words(name);
    draft.words(")");
    facts.text("signed digest is", draft);
}

/// Adds whether a signature verifies by the key that the roster has of a node.
pub(crate) fn add_verdict(
    facts: &mut Facts,
    roster: &Roster,
    node: u32,
    word: Word,
    hash: &[u8; 32],
    signature: &Signature,
) {
    let verifies = match roster.member(node) {
        Some(member) => is_signed(&member, node, word, hash, signature),
        None => false,
    };
    facts.words("verifies", if verifies { "yes" } else { "no" });
}

/// Adds a message that was sent: a server's is a reply, a client's a call.
fn add_sent(facts: &mut Facts, log: &Log<'_>, at: usize, to: u32, body: &Body) {
    match log.kind() {
        Some(Kind::Server) => {
            let call = call_before(log.entries(), at);
            reply_group(facts, "reply", log.node(), call, body.bytes());
        }
        Some(Kind::Client) => call_group(facts, to, body.bytes()),
        None => facts.hex("body", body.bytes()),
    }
}

/// Adds a call to a server, in words and in bytes.
pub(crate) fn call_group(facts: &mut Facts, server: u32, body: &[u8]) {
    facts.group("call");
    facts.number("length", body.len() as u64);
    add_call(facts, server, body);
    facts.hex("bytes", body);
    facts.end();
}

/// Adds a server's reply to a call, in words and in bytes.
pub(crate) fn reply_group(
    facts: &mut Facts,
    name: &'static str,
    server: u32,
    call: &[u8],
    body: &[u8],
) {
    facts.group(name);
    facts.number("length", body.len() as u64);
    add_reply(facts, server, call, body);
    facts.hex("bytes", body);
    facts.end();
}

/// The last message that was received before a place, none being no bytes.
pub(crate) fn call_before(entries: &[Entry], at: usize) -> &[u8] {
    for place in (0..at).rev() {
        if let Some(Entry::Recv { body, .. }) = entries.get(place) {
            return body.bytes();
        }
    }
    &[]
}
