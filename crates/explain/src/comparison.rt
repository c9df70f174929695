//! What was owed at a faulty entry, and what was given.

ghost use Rattle.std.specs.Prelude.{◌≡◌, IfOk, IfSome, true};
ghost use Rattle.explain.specs.Numbers.{AreLow};
ghost use Rattle.explain.specs.Starts.{KnowsFew};

use crate::entry::{add_signed_digest, add_verdict, call_before, kind_name, reply_group};
use crate::facts::Facts;
use crate::places::Log;
use crate::roster::node_fact;
use challenge::{BaseText, MAX_KNOWN, Outcome, ReplayFault, opening_state, replay_outcome};
use checkpoint::{Machine, SentMessage, Stage, State, StateFault, read_state, state_digest};
use secure_log::log_entries::{Entry, Receipt, receipt_hash};
use secure_log::{LogVersion, Roster, Word};
use std::alloc::{AllocError, Global};

/// Adds what was owed at a faulty entry, and what was given.
pub(crate) fn add_comparison(facts: &mut Facts, log: &Log<'_>, fault: ReplayFault, at: usize) {
    match state_before(facts.alloc(), log, at) {
        Ok(Some(state)) => compare(facts, log, fault, at, &state),
        Ok(None) => {}
        Err(AllocError) => facts.refuse(),
    }
}

/// The state before a place of a member's log, if the entries before it have no fault.
pub(crate) fn state_before(
    alloc: Global,
    log: &Log<'_>,
    at: usize,
) -> Result<Option<State>, AllocError> {
    let Some(member) = log.member else {
        return Ok(None);
    };
    match log.base {
        Some(base) => match start_of(alloc, base)? {
            Some(start) => state_after(alloc, log, start, at),
            None => Ok(None),
        },
        None => state_after(alloc, log, opening_state(alloc, &member)?, at),
    }
}

/// The state of a base, if its bytes are the text of one.
pub(crate) fn read_base_state(alloc: Global, base: &BaseText) -> Result<Option<State>, AllocError> {
    match read_state(alloc, base.state()) {
        Ok(state) => Ok(Some(state)),
        Err(StateFault::Garbage | StateFault::NotAState) => Ok(None),
        Err(StateFault::NoMemory) => Err(AllocError),
    }
}

/// The same, if it knows no more messages than a base's may.
pub(crate) fn start_of(alloc: Global, base: &BaseText) -> Result<Option<State>, AllocError>
    ensures { IfOk result (λ o. IfSome o (λ s. KnowsFew s.state)) }
{
    match read_base_state(alloc, base)? {
        Some(state) if knows_few(&state) => Ok(Some(state)),
        _ => Ok(None),
    }
}

/// Whether a state knows no more messages of either kind than a base's may.
fn knows_few(state: &State) -> bool
    ensures { result ≡ true → KnowsFew state.now.state }
{
    state.received().len() <= MAX_KNOWN as usize && state.sends().len() <= MAX_KNOWN as usize
}

/// Whether each of so many entries of a log has a word: in a log of version 1 it is the entry's number, which is
/// to be below the greatest of 64 bits.
fn have_words(log: &Log<'_>, count: usize) -> bool
    ensures { result ≡ true → AreLow log.now.audited.now.log_version log.now.audited.now.first count }
{
    match log.version() {
        LogVersion::One => count as u64 <= u64::MAX - log.audited.first().get(),
        LogVersion::Two => true,
    }
}

/// The state before a place of a log that begins after a state, if the entries before it have no fault. None,
/// too, where one of them has no word: no log has such entries.
fn state_after(
    alloc: Global,
    log: &Log<'_>,
    start: State,
    at: usize,
) -> Result<Option<State>, AllocError>
    requires { KnowsFew start.state }
{
    log.audited.fits();
    let entries = log.entries();
    let count = at.min(entries.len());
    if !have_words(log, count) {
        return Ok(None);
    }
    let first = log.audited.first();
    let opening = log.audited.opening();
    let skips = log.audited.skips();
    match replay_outcome(
        alloc,
        log.roster,
        start,
        first,
        &opening,
        skips,
        &entries[..count],
    )? {
        Outcome::Sound(state) => Ok(Some(state)),
        Outcome::Fault(..) => Ok(None),
    }
}

/// Adds what was owed after a state, and what the entry there gives.
fn compare(facts: &mut Facts, log: &Log<'_>, fault: ReplayFault, at: usize, state: &State) {
    let Some(entry) = log.entries().get(at) else {
        return;
    };
    match fault {
        ReplayFault::WrongReply => compare_replies(facts, log, at, state, entry),
        ReplayFault::BadForm => say(facts, turn_words(state), kind_name(entry.kind())),
        ReplayFault::ClockBack => compare_times(facts, state, entry),
        ReplayFault::WrongCheckpoint => compare_digests(facts, state, entry),
        ReplayFault::BadReceive => compare_senders(facts, log, entry),
        ReplayFault::Repeated => say(
            facts,
            "a message that was not received before",
            "one that an earlier entry has: the same sender, number there, hash before it there and body",
        ),
        ReplayFault::BadAck => compare_receipts(facts, log, state, entry),
    }
}

/// Adds what was owed and what was given, in words of the program's own.
fn say(facts: &mut Facts, owed: &str, given: &str) {
    facts.words("owed", owed);
    facts.words("given", given);
}

/// What may stand after a state.
fn turn_words(state: &State) -> &'static str {
    match state.machine() {
        Machine::Server(_, Stage::Idle) => { "of a server that owes nothing: RECV, ACK or CHECK" }
        Machine::Server(_, Stage::Heard { .. }) => {
            "of a server that heard a message: CLOCK, with microseconds below 1000000"
        }
        Machine::Server(_, Stage::Owes { .. }) => "of a server that owes a reply: its SEND",
        Machine::Client(_) => "CLOCK with microseconds below 1000000",
    }
}

/// Adds the times, where an entry is a reading.
fn compare_times(facts: &mut Facts, state: &State, entry: &Entry) {
    let clock = state.clock();
    facts.time("owed at least", clock.seconds(), clock.microseconds());
    if let Entry::Clock {
        seconds,
        microseconds,
    } = entry
    {
        facts.time("given", *seconds, *microseconds);
    }
}

/// Adds the digests, where an entry has one.
fn compare_digests(facts: &mut Facts, state: &State, entry: &Entry) {
    match state_digest(facts.alloc(), state) {
        Ok(owed) => {
            facts.hex("owed", &owed);
            if let Entry::Check { digest } = entry {
                facts.hex("given", digest);
                add_difference(facts, &owed, digest);
            }
        }
        Err(AllocError) => facts.refuse(),
    }
}

/// Adds why a message isn't one of another member's.
fn compare_senders(facts: &mut Facts, log: &Log<'_>, entry: &Entry) {
    let Entry::Recv { from, .. } = entry else {
        return;
    };
    let given = if *from == log.node() {
        "a message whose sender is the node itself"
    } else if log.roster.member(*from).is_none() {
        "a message whose sender is no member of the roster"
    } else {
        "a message whose signature does not verify by the sender's key for its number and hash there"
    };
    say(facts, "a message that another member signed", given);
}

/// Adds why an acknowledgement is of no message.
fn compare_receipts(facts: &mut Facts, log: &Log<'_>, state: &State, entry: &Entry) {
    let Entry::Ack { to, seq, .. } = entry else {
        return;
    };
    let given = match state.sends().get(seq.get()) {
        None => "one of a number under which no message waits for an acknowledgement",
        Some(sent) if sent.to() != *to => "one of a message that went to another node",
        Some(_) =>
            "one whose signature does not verify by the receiver's key for its number and hash there",
    };
    say(
        facts,
        "an acknowledgement of a message that was sent to that node and has none yet, signed by it",
        given,
    );
    if let Some(sent) = state.sends().get(seq.get()) {
        add_receipt(facts, log, &sent, entry);
    }
}

/// Adds where a message went, the hash that its receiver owes a signature of, and whether the signature that
/// is given verifies for it.
fn add_receipt(facts: &mut Facts, log: &Log<'_>, sent: &SentMessage, entry: &Entry) {
    let Entry::Ack {
        to,
        seq,
        mine,
        number,
        prev,
        signature,
    } = entry
    else {
        return;
    };
    node_fact(facts, "message went to", log.roster, sent.to());
    facts.hex("hash before its SEND", sent.prev());
    facts.hex("digest of its body", sent.body_hash());
    let receipt = Receipt {
        from: log.node(),
        seq: *seq,
        sender_prev: *sent.prev(),
        body: *sent.body_hash(),
        signature: *mine,
    };
    let hash = receipt_hash(&receipt, *number, prev);
    add_receipt_hash(facts, log.node(), *seq, *number, &hash);
    add_signed_digest(facts, *to, *number, &hash, "hash there");
    add_verdict(
        facts,
        log.roster,
        *to,
        *number,
        &hash,
        signature.signature(),
    );
}

/// Adds the hash after a RECV in its receiver's log, and what it is made of.
fn add_receipt_hash(facts: &mut Facts, from: u32, seq: Word, number: Word, hash: &[u8; 32]) {
    facts.hex("hash there", hash);
    let mut draft = facts.draft();
    draft.words("SHA-256(hash before it there | ");
    draft.hex(&number.get().to_be_bytes());
    draft.words(" | 00000002 | SHA-256(");
    draft.hex(&from.to_be_bytes());
    draft.words(" | ");
    draft.hex(&seq.get().to_be_bytes());
    draft.words(" | hash before its SEND | digest of its body | digest of its signature))");
    facts.text("hash there is", draft);
}

/// Adds the reply that was owed and what was given, and the first byte that differs.
fn compare_replies(facts: &mut Facts, log: &Log<'_>, at: usize, state: &State, entry: &Entry) {
    let call = call_before(log.entries(), at);
    match state.machine() {
        Machine::Server(_, Stage::Owes { to, body }) => {
            node_fact(facts, "owed to", log.roster, *to);
            reply_group(facts, "owed", log.node(), call, body.bytes());
            add_given(facts, log, call, entry);
            if let Entry::Send {
                to: receiver,
                body: given,
            } = entry
            {
                if receiver != to {
                    facts.words(
                        "difference",
                        "it went to another node than the one that it is owed to",
                    );
                }
                add_difference(facts, body.bytes(), given.bytes());
            }
        }
        _ => {
            facts.words("owed", "no reply");
            add_given(facts, log, call, entry);
        }
    }
}

/// Adds what stands in the place of a reply.
fn add_given(facts: &mut Facts, log: &Log<'_>, call: &[u8], entry: &Entry) {
    match entry {
        Entry::Send { to, body } => {
            node_fact(facts, "given to", log.roster, *to);
            reply_group(facts, "given", log.node(), call, body.bytes());
        }
        _ => facts.words("given", kind_name(entry.kind())),
    }
}

/// Adds the first byte, counted from 0, in which two texts differ.
fn add_difference(facts: &mut Facts, owed: &[u8], given: &[u8]) {
    let Some(at) = first_difference(owed, given) else {
        return;
    };
    facts.group("first difference");
    facts.number("byte", at as u64);
    add_byte(facts, "owed", owed.get(at));
    add_byte(facts, "given", given.get(at));
    facts.end();
}

fn add_byte(facts: &mut Facts, name: &'static str, byte: Option<&u8>) {
    match byte {
        Some(byte) => facts.hex(name, &[*byte]),
        None => facts.words(name, "none, it ends there"),
    }
}

/// The first place where two texts differ, if they do.
fn first_difference(one: &[u8], other: &[u8]) -> Option<usize> {
    for at in 0..one.len() {
        if one.get(at) != other.get(at) {
            return Some(at);
        }
    }
    if other.len() > one.len() {
        Some(one.len())
    } else {
        None
    }
}
