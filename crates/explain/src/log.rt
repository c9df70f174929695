//! A fault in a log, in words.

use crate::comparison::add_comparison;
use crate::entry::add_entry;
use crate::facts::Facts;
use crate::places::Log;
use challenge::ReplayFault;
use secure_log::log_entries::Entry;

/// The name of a fault in the rules of a replay.
fn fault_name(fault: ReplayFault) -> &'static str {
    match fault {
        ReplayFault::BadForm => "BadForm",
        ReplayFault::BadReceive => "BadReceive",
        ReplayFault::Repeated => "Repeated",
        ReplayFault::WrongReply => "WrongReply",
        ReplayFault::ClockBack => "ClockBack",
        ReplayFault::WrongCheckpoint => "WrongCheckpoint",
        ReplayFault::BadAck => "BadAck",
    }
}

/// What a fault means.
fn fault_words(fault: ReplayFault) -> &'static str {
    match fault {
        ReplayFault::BadForm => "the entry is out of turn, or shows no time",
        ReplayFault::BadReceive => "the message is not signed by a member that is another node",
        ReplayFault::Repeated => "the message was received before",
        ReplayFault::WrongReply => "the reply is not the one that is owed",
        ReplayFault::ClockBack => "the clock goes back",
        ReplayFault::WrongCheckpoint => "the digest is not that of the state",
        ReplayFault::BadAck => {
            "the acknowledgement is of no message sent, or not signed by its receiver"
        }
    }
}

/// Adds the fault that the entry of a number has: the entries that it concerns, and what was owed and given
/// there.
pub(crate) fn add_fault(facts: &mut Facts, log: &Log<'_>, fault: ReplayFault, number: u64) {
    facts.group("fault");
    facts.number("fault", u64::from(fault.number()));
    facts.words("name", fault_name(fault));
    facts.words("meaning", fault_words(fault));
    facts.place("entry", number);
    facts.end();
    if let Some(at) = log.place_of(number) {
        add_concerned(facts, log, fault, at);
        add_comparison(facts, log, fault, at);
    }
}

/// Adds the entries that a fault concerns, the faulty one last.
fn add_concerned(facts: &mut Facts, log: &Log<'_>, fault: ReplayFault, at: usize) {
    facts.list("entries");
    if let Some(earlier) = earlier(fault, log, at) {
        add_entry(facts, log, earlier);
    }
    for before in first_concerned(fault, at)..at {
        add_entry(facts, log, before);
    }
    add_entry(facts, log, at);
    facts.end();
}

/// The first entry of those just before a faulty one that say what is owed there: a message and a reading.
fn first_concerned(fault: ReplayFault, at: usize) -> usize {
    match fault {
        ReplayFault::WrongReply | ReplayFault::BadForm => at.saturating_sub(2),
        _ => at,
    }
}

/// An earlier entry that a faulty one stands against, if there is one.
fn earlier(fault: ReplayFault, log: &Log<'_>, at: usize) -> Option<usize> {
    match fault {
        ReplayFault::Repeated => same_message(log.entries(), at),
        ReplayFault::ClockBack => last_clock(log.entries(), at),
        ReplayFault::BadAck => acknowledged(log, at),
        _ => None,
    }
}

/// The place of the message that an entry acknowledges, if it stands before.
fn acknowledged(log: &Log<'_>, at: usize) -> Option<usize> {
    let Some(Entry::Ack { seq, .. }) = log.entries().get(at) else {
        return None;
    };
    let place = log.place_of(seq.number(log.version()).get())?;
    if place < at { Some(place) } else { None }
}

/// The place of the last reading before a place.
fn last_clock(entries: &[Entry], at: usize) -> Option<usize> {
    for place in (0..at).rev() {
        if let Some(Entry::Clock { .. }) = entries.get(place) {
            return Some(place);
        }
    }
    None
}

/// The place of the first entry that has the message of another, before it.
fn same_message(entries: &[Entry], at: usize) -> Option<usize> {
    let repeated = entries.get(at)?;
    for place in 0..at {
        if is_same_message(&entries[place], repeated) {
            return Some(place);
        }
    }
    None
}

/// Whether two entries have the same message of one node.
fn is_same_message(one: &Entry, other: &Entry) -> bool {
    let Entry::Recv {
        from,
        seq,
        prev,
        body,
        ..
    } = one
    else {
        return false;
    };
    match other {
        Entry::Recv {
            from: own_from,
            seq: own_seq,
            prev: own_prev,
            body: own_body,
            ..
        } => {
            from == own_from
                && seq == own_seq
                && prev.as_slice() == own_prev.as_slice()
                && body.digest().as_slice() == own_body.digest().as_slice()
        }
        _ => false,
    }
}

/// Adds what the verdict rests on: what each does, and these.
pub(crate) fn add_premises(facts: &mut Facts, further: &[&str]) {
    facts.list("rests on");
    add_premise(
        facts,
        "the roster is the service's own: all of its members, each with its own number, kind, height and key",
    );
    add_premise(
        facts,
        "nobody forged a signature that the file shows: none verifies for a number and a hash that the node did not sign",
    );
    add_premise(
        facts,
        "no two of the texts that were hashed have the same SHA-256 digest",
    );
    for premise in further {
        add_premise(facts, premise);
    }
    facts.end();
    facts.words(
        "note",
        "a signature has no date: nothing here says when the node signed",
    );
}

fn add_premise(facts: &mut Facts, premise: &str) {
    facts.item();
    facts.words("premise", premise);
    facts.end();
}
