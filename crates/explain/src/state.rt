//! The state of a node before an entry, in words.

use crate::comparison::{start_of, state_before};
use crate::entry::{call_before, call_group, reply_group};
use crate::facts::Facts;
use crate::places::{Log, add_word};
use crate::roster::{add_number_there, node_fact};
use challenge::BaseText;
use checkpoint::parts::{
    MachinePart, MountPart, PartsFault, StagePart, StatePart, WorldPart, read_parts,
};
use checkpoint::{ReceivedMessage, State, state_digest, state_text};
use file_texts::{AttributesPart, BodyPart};
use state_machine::{FilePart, TimePart};
use std::alloc::{AllocError, Global};
use tree_rules::GivenEntry;

/// Adds the state before the entry with a number, if one is asked for.
pub(crate) fn add_state(facts: &mut Facts, log: &Log<'_>, number: Option<u64>) {
    let Some(number) = number else {
        return;
    };
    facts.group("state");
    facts.place("before entry", number);
    add_state_before(facts, log, number);
    facts.end();
}

/// Says that no state is known, if one is asked for.
pub(crate) fn add_no_state(facts: &mut Facts, number: Option<u64>) {
    if let Some(number) = number {
        facts.group("state");
        facts.place("before entry", number);
        facts.words("none", "the file does not have all entries before it");
        facts.end();
    }
}

/// Adds the state before the entry with a number, or why there is none.
fn add_state_before(facts: &mut Facts, log: &Log<'_>, number: u64) {
    if number < log.audited.first().get() || number > log.last_number().saturating_add(1) {
        facts.words("none", "the file does not have all entries before it");
        return;
    }
    let at = log.count_below(number);
    let state = state_before(facts.alloc(), log, at);
    add_found(facts, log, at, &state);
}

/// Adds the state before a place of a log, if there is one, or why there is none.
fn add_found(
    facts: &mut Facts,
    log: &Log<'_>,
    at: usize,
    state: &Result<Option<State>, AllocError>,
) {
    match state {
        Ok(Some(state)) => add_whole(facts, log, at, state),
        Ok(None) if log.member.is_none() => {
            facts.words("none", "the roster does not say what the node is");
        }
        Ok(None) => add_no_start(facts, log),
        Err(AllocError) => facts.refuse(),
    }
}

/// Says why there is no state before an entry of a member: no log begins with its base's state, or an entry before it
/// has a fault.
fn add_no_start(facts: &mut Facts, log: &Log<'_>) {
    let is_start = match log.base {
        Some(base) => is_start(facts.alloc(), base),
        None => Ok(true),
    };
    match is_start {
        Ok(true) => facts.words("none", "an entry before it has a fault"),
        Ok(false) => facts.words("none", "no log begins with the state of the base"),
        Err(AllocError) => facts.refuse(),
    }
}

/// Whether a log begins with the state of a base.
fn is_start(alloc: Global, base: &BaseText) -> Result<bool, AllocError> {
    let start = start_of(alloc, base);
    is_one(&start)
}

/// Whether there is a state.
fn is_one(state: &Result<Option<State>, AllocError>) -> Result<bool, AllocError> {
    match state {
        Ok(state) => Ok(state.is_some()),
        Err(AllocError) => Err(AllocError),
    }
}

/// Adds a state: the digest that a CHECK there owes, and its parts.
fn add_whole(facts: &mut Facts, log: &Log<'_>, at: usize, state: &State) {
    match state_digest(facts.alloc(), state) {
        Ok(digest) => facts.hex("digest", &digest),
        Err(AllocError) => facts.refuse(),
    }
    match state_text(facts.alloc(), state) {
        Ok(text) => add_text(facts, log, at, &text),
        Err(AllocError) => facts.refuse(),
    }
}

/// Adds what a state's text says.
fn add_text(facts: &mut Facts, log: &Log<'_>, at: usize, text: &[u8]) {
    facts.number("length of its text", text.len() as u64);
    match read_parts(facts.alloc(), text) {
        Ok(parts) => add_parts(facts, log, at, &parts),
        Err(PartsFault::Garbage) => {}
        Err(PartsFault::NoMemory) => facts.refuse(),
    }
}

/// Adds the parts of a state.
fn add_parts(facts: &mut Facts, log: &Log<'_>, at: usize, parts: &StatePart<'_>) {
    add_time(facts, "clock", parts.clock);
    add_received(facts, log, &parts.received);
    add_sent(facts, log, parts);
    match &parts.machine {
        MachinePart::Server(world) => add_world(facts, log, at, world),
        MachinePart::Client => {}
    }
}

fn add_time(facts: &mut Facts, name: &'static str, time: TimePart) {
    facts.time(name, time.seconds, time.microseconds);
}

/// Adds the messages that were received.
fn add_received(facts: &mut Facts, log: &Log<'_>, received: &[ReceivedMessage]) {
    facts.list("received");
    for message in received {
        facts.item();
        node_fact(facts, "from", log.roster, message.from());
        add_number_there(facts, log.roster, message.from(), message.seq());
        facts.hex("hash there", message.hash());
        facts.end();
    }
    facts.end();
}

/// Adds the messages that were sent and have no acknowledgement yet.
fn add_sent(facts: &mut Facts, log: &Log<'_>, parts: &StatePart<'_>) {
    facts.list("sent without acknowledgement");
    for send in &parts.sends {
        facts.item();
        add_word(facts, "number", "skipped", log.version(), send.seq);
        node_fact(facts, "to", log.roster, send.message.to());
        facts.hex("hash before its SEND", send.message.prev());
        facts.hex("digest of its body", send.message.body_hash());
        facts.end();
    }
    facts.end();
}

/// Adds what only a server has.
fn add_world(facts: &mut Facts, log: &Log<'_>, at: usize, world: &WorldPart<'_>) {
    add_stage(facts, log, at, &world.stage);
    facts.number("next fileid", u64::from(world.next));
    add_mounts(facts, &world.mounts);
    facts.list("files");
    for file in &world.files {
        facts.item();
        add_file(facts, file);
        facts.end();
    }
    facts.end();
}

/// Adds what a server owes next.
fn add_stage(facts: &mut Facts, log: &Log<'_>, at: usize, stage: &StagePart<'_>) {
    match stage {
        StagePart::Idle => facts.words("stage", "it owes nothing"),
        StagePart::Heard { from, body } => {
            facts.words("stage", "it heard a message");
            node_fact(facts, "from", log.roster, *from);
            call_group(facts, log.node(), body);
        }
        StagePart::Owes { to, body } => {
            facts.words("stage", "it owes a reply");
            node_fact(facts, "to", log.roster, *to);
            let call = call_before(log.entries(), at);
            reply_group(facts, "reply", log.node(), call, body);
        }
    }
}

/// Adds what is mounted, and by which machines.
fn add_mounts(facts: &mut Facts, mounts: &[MountPart<'_>]) {
    facts.list("mounts");
    for mount in mounts {
        facts.item();
        facts.quoted("hostname", mount.host);
        facts.quoted("directory", mount.directory);
        facts.end();
    }
    facts.end();
}

/// Adds a file with its number.
fn add_file(facts: &mut Facts, file: &FilePart<'_>) {
    facts.number("fileid", u64::from(file.number));
    add_attributes(facts, type_words(&file.body), &file.attributes);
    match &file.body {
        BodyPart::Regular(bytes) => {
            facts.number("size", bytes.len() as u64);
            facts.quoted("data", bytes);
        }
        BodyPart::Symlink(target) => facts.quoted("target", target),
        BodyPart::Directory { next, entries } => {
            facts.number("next cookie", u64::from(*next));
            add_entries(facts, entries);
        }
    }
}

/// A file's type (RFC 1094, section 2.3.1).
fn type_words(body: &BodyPart<'_>) -> &'static str {
    match body {
        BodyPart::Regular(_) => "NFREG (1)",
        BodyPart::Symlink(_) => "NFLNK (5)",
        BodyPart::Directory { .. } => "NFDIR (2)",
    }
}

/// Adds a file's type and attributes (RFC 1094, section 2.3.5).
fn add_attributes(facts: &mut Facts, kind: &str, attributes: &AttributesPart) {
    facts.words("type", kind);
    facts.octal("mode", attributes.mode);
    facts.number("uid", u64::from(attributes.uid));
    facts.number("gid", u64::from(attributes.gid));
    add_time(facts, "atime", attributes.atime);
    add_time(facts, "mtime", attributes.mtime);
    add_time(facts, "ctime", attributes.ctime);
}

/// Adds the entries of a directory, in its order.
fn add_entries(facts: &mut Facts, entries: &[GivenEntry<'_>]) {
    facts.list("entries");
    for entry in entries {
        facts.item();
        facts.number("fileid", u64::from(entry.number));
        facts.quoted("name", entry.name);
        facts.number("cookie", u64::from(entry.cookie));
        facts.end();
    }
    facts.end();
}
