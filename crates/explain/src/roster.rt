//! Rosters in words.

use crate::draft::Draft;
use crate::facts::Facts;
use crate::places::add_word;
use secure_log::{Kind, LogVersion, Member, Roster};
use sha2::{Digest, Sha256};
use std::alloc::{AllocError, Global};

/// What a roster says, and the digest of its text: by these two people can tell whether they hold the same
/// one.
pub fn roster_facts(alloc: Global, roster: &Roster) -> Facts {
    let mut facts = Facts::new(alloc);
    add_members(&mut facts, roster);
    facts
}

/// The SHA-256 digest of a roster's text. `AllocError` comes only where a growth was refused.
fn roster_digest(alloc: Global, roster: &Roster) -> Result<[u8; 32], AllocError> {
    let mut text = Vec::new(alloc);
    roster.write(&mut text)?;
    Ok(Sha256::digest(&text))
}

/// Adds a roster that evidence stands under.
pub(crate) fn add_roster(facts: &mut Facts, roster: &Roster) {
    facts.group("roster");
    let mut advice = facts.draft();
    advice.words(
        "to be compared as a whole with the service's own roster: by its sha256, or by the ",
    );
    advice.words("count of its members and each one's number, kind, height and key");
    facts.text("advice", advice);
    add_members(facts, roster);
    facts.end();
}

/// Adds the digest of a roster's text.
pub(crate) fn add_digest(facts: &mut Facts, name: &'static str, roster: &Roster) {
    match roster_digest(facts.alloc(), roster) {
        Ok(digest) => facts.hex(name, &digest),
        Err(AllocError) => facts.refuse(),
    }
}

/// Adds a roster's digest and its members.
fn add_members(facts: &mut Facts, roster: &Roster) {
    add_digest(facts, "sha256", roster);
    facts.number("count", roster.members().len() as u64);
    facts.list("members");
    for member in roster.members() {
        add_member(facts, member);
    }
    facts.end();
}

fn add_member(facts: &mut Facts, member: &Member) {
    facts.item();
    facts.number("node", u64::from(member.node));
    facts.words("kind", kind_name(member.kind));
    facts.hex("key", &member.root);
    facts.number("height", u64::from(member.height));
    if member.log_version == LogVersion::Two {
        facts.number("log version", 2);
    }
    facts.end();
}

fn kind_name(kind: Kind) -> &'static str {
    match kind {
        Kind::Server => "server",
        Kind::Client => "client",
    }
}

/// Adds a node with what it is in a roster, as `node 2, a client`.
pub(crate) fn node_fact(facts: &mut Facts, name: &'static str, roster: &Roster, node: u32) {
    let mut draft = facts.draft();
    add_node(&mut draft, roster, node);
    facts.text(name, draft);
}

/// Adds the node that is accused, as `node 1, a server`; of a log of version 2 it says that, too.
pub(crate) fn accused_fact(facts: &mut Facts, roster: &Roster, node: u32) {
    let mut draft = facts.draft();
    add_node(&mut draft, roster, node);
    if !roster.keeps_version(node, LogVersion::One) {
        draft.words(", log version 2");
    }
    facts.text("accused", draft);
}

/// Appends a node with what it is in a roster.
fn add_node(draft: &mut Draft, roster: &Roster, node: u32) {
    draft.words("node ");
    draft.number(u64::from(node));
    draft.words(match roster.member(node) {
        Some(member) => kind_words(member.kind),
        None => ", no member",
    });
}

/// Adds the number of an entry in another node's log. Where the roster has that node with a log of version 2,
/// the number is the lower half of what stands for it, and the upper half is how many numbers are skipped
/// just before it, which is said if there are any.
pub(crate) fn add_number_there(facts: &mut Facts, roster: &Roster, node: u32, word: u64) {
    let version = if roster.keeps_version(node, LogVersion::One) {
        LogVersion::One
    } else {
        LogVersion::Two
    };
    add_word(facts, "number there", "skipped there", version, word);
}

fn kind_words(kind: Kind) -> &'static str {
    match kind {
        Kind::Server => ", a server",
        Kind::Client => ", a client",
    }
}
