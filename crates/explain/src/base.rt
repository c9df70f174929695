//! A base, in words.

use crate::comparison::read_base_state;
use crate::facts::Facts;
use crate::fork::add_showing_parts;
use challenge::BaseText;
use checkpoint::parts::{MachinePart, PartsFault, StatePart, read_parts};
use checkpoint::{State, state_digest};
use secure_log::Roster;
use std::alloc::AllocError;

/// Adds what a base says: the showing, its number, and how much its state holds.
pub(crate) fn add_base(facts: &mut Facts, roster: &Roster, base: &BaseText) {
    facts.group("base");
    add_showing_parts(facts, roster, base.log_version(), base.showing());
    facts.place("at", base.at().get());
    add_base_state(facts, base);
    facts.end();
}

/// Adds the state of a base, by its numbers.
fn add_base_state(facts: &mut Facts, base: &BaseText) {
    facts.group("state");
    facts.number("length of its text", base.state().len() as u64);
    match read_base_state(facts.alloc(), base) {
        Ok(Some(state)) => add_known_state(facts, base, &state),
        Ok(None) => facts.words("none", "the bytes are not a state's text"),
        Err(AllocError) => facts.refuse(),
    }
    facts.end();
}

/// Adds the digest of a base's state, and how many messages and files it has.
fn add_known_state(facts: &mut Facts, base: &BaseText, state: &State) {
    match state_digest(facts.alloc(), state) {
        Ok(digest) => facts.hex("digest", &digest),
        Err(AllocError) => facts.refuse(),
    }
    match read_parts(facts.alloc(), base.state()) {
        Ok(parts) => add_counts(facts, &parts),
        Err(PartsFault::Garbage) => {}
        Err(PartsFault::NoMemory) => facts.refuse(),
    }
}

fn add_counts(facts: &mut Facts, parts: &StatePart<'_>) {
    facts.number("received", parts.received.len() as u64);
    facts.number("sent", parts.sends.len() as u64);
    if let MachinePart::Server(world) = &parts.machine {
        facts.number("files", world.files.len() as u64);
    }
}
