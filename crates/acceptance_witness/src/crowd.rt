//! Events of others than node 5: forgeries, forks, floods past each limit, an audit and forwards.

use crate::logs::{answers_call, call_body, challenge_packet, learn, message};
use crate::members::{
    CLIENT, Handed, Shown, delivered, handed_in, keys, keys_of, roster_with, shown_of_log,
};
use acceptance_helpers::client;
use authenticator::{LogVersion, Roster, Word};
use merkle_keys::Signer;
use secure_log::Log;
use std::alloc::Global;
use witness_service::{Event, EventOf, Question};

/// What is handed over by all nodes.
#[derive(Drop)]
pub struct Crowd {
    /// Node 5's packets, one of them forged, and one of node 6.
    pub handed: Handed,
    /// Another hash of node 6 at the same number.
    pub other: Vec<u8>,
    /// Node 1's log of a call of node 2, and another hash at its last number.
    pub server: Shown,
    pub fork: Vec<u8>,
    /// Challenges to node 1, one more than may be open.
    pub challenges: Vec<Vec<u8>>,
    /// Authenticators of node 2, 17 more than are kept.
    pub flood: Vec<Vec<u8>>,
}

/// How many kinds of events of others there are.
const KINDS: usize = 7;

/// So many events of others are made before each step of node 5.
pub const BEFORE_EACH: usize = 147;

/// So many are made before all of its steps: each packet of the flood is handed over once.
pub const ALL_OTHERS: usize = 1_911;

/// Keeps a packet, if there is one.
fn keep(packets: &mut Vec<Vec<u8>>, packet: Option<Vec<u8>>) {
    if let Some(packet) = packet {
        let _ = packets.push(packet);
    }
}

/// The packet of a challenge to node 1, with node 2's message of a number.
fn challenge(alloc: Global, client: &mut Signer, number: u32) -> Option<Vec<u8>> {
    let body = call_body(alloc, number)?;
    match message(client, 2, 1, Word::new(number as u64), body) {
        Some(message) => challenge_packet(alloc, &message),
        None => None,
    }
}

/// Seventeen of them.
fn challenges(alloc: Global, client: &mut Signer) -> Vec<Vec<u8>> {
    let mut packets = Vec::new(alloc);
    for number in 1..18 {
        keep(&mut packets, challenge(alloc, client, number));
    }
    packets
}

/// Node 2's authenticators at the numbers up to 273.
fn flood(alloc: Global, client: &mut Signer) -> Vec<Vec<u8>> {
    let mut packets = Vec::new(alloc);
    for number in 1..274 {
        keep(&mut packets, learn(alloc, client, 2, number, [2; 32]));
    }
    packets
}

/// Node 1's log of a call of node 2.
fn log_of_call(alloc: Global, client: &mut Signer) -> Option<Log> {
    let mut log = Log::new(alloc, 1, LogVersion::One);
    if answers_call(alloc, &mut log, client, 1, 0) {
        Some(log)
    } else {
        None
    }
}

/// Another hash at the last number of that log, and what is handed over of it.
fn fork_and_shown(
    alloc: Global,
    log: &Log,
    server: &mut Signer,
) -> (Option<Vec<u8>>, Option<Shown>) {
    let fork = learn(alloc, server, 1, 3, [3; 32]);
    let shown = shown_of_log(alloc, log, server, 3);
    (fork, shown)
}

/// The same of node 1's keys.
fn of_log(alloc: Global, log: &Log) -> (Option<Vec<u8>>, Option<Shown>) {
    match keys_of(alloc, 1) {
        Some(mut server) => fork_and_shown(alloc, log, &mut server),
        None => (None, None),
    }
}

/// What node 1 hands over: another hash at the last number of that log, and the log.
fn of_server(alloc: Global, client: &mut Signer) -> (Option<Vec<u8>>, Option<Shown>) {
    match log_of_call(alloc, client) {
        Some(log) => of_log(alloc, &log),
        None => (None, None),
    }
}

/// Another hash of node 6 at 1.
fn of_sixth(alloc: Global) -> Option<Vec<u8>> {
    match keys_of(alloc, 6) {
        Some(mut sixth) => learn(alloc, &mut sixth, 6, 1, [6; 32]),
        None => None,
    }
}

/// What all hand over, with the keys of node 2.
fn with_client(alloc: Global, handed: Handed, client: &mut Signer) -> Option<Crowd> {
    let other = of_sixth(alloc);
    let (fork, server) = of_server(alloc, client);
    match (other, fork, server) {
        (Some(other), Some(fork), Some(server)) => Some(Crowd {
            handed,
            other,
            server,
            fork,
            challenges: challenges(alloc, client),
            flood: flood(alloc, client),
        }),
        _ => None,
    }
}

/// The same of their roster.
fn in_roster(alloc: Global, roster: Roster, client: &mut Signer) -> Option<Crowd> {
    match handed_in(alloc, roster) {
        Some(handed) => with_client(alloc, handed, client),
        None => None,
    }
}

/// The same of the root of node 2's keys.
fn with_keys(alloc: Global, signer: &mut Signer) -> Option<Crowd> {
    match roster_with(alloc, client(signer.root(), 9)) {
        Some(roster) => in_roster(alloc, roster, signer),
        None => None,
    }
}

/// What all hand over. Node 2, which floods, has 512 keys.
pub fn all_crowd(alloc: Global) -> Option<Crowd> {
    match keys(alloc, CLIENT, 9) {
        Some(mut signer) => with_keys(alloc, &mut signer),
        None => None,
    }
}

/// The packet with a place, delivered.
fn delivered_at(alloc: Global, packets: &[Vec<u8>], place: usize) -> Option<Event> {
    match packets.get(place) {
        Some(bytes) => delivered(alloc, bytes),
        None => None,
    }
}

/// A part of node 1's audit, or a question for node 6's indication.
fn audit(alloc: Global, crowd: &Crowd, turn: usize) -> Option<Event> {
    match turn % 5 {
        0 => delivered(alloc, &crowd.server.last),
        1 => Some(EventOf::Audit(1)),
        2 => delivered(alloc, &crowd.server.answer),
        3 => Some(EventOf::Begin(1)),
        _ => Some(EventOf::Ask(6, Question::Indication)),
    }
}

/// An event that is none of node 5's own, by its count: a forgery, half of a fork, one of two floods, a part
/// of an audit, or a forward.
pub fn noise(alloc: Global, crowd: &Crowd, count: usize) -> Option<Event> {
    let turn = count / KINDS;
    match count % KINDS {
        0 => delivered(alloc, &crowd.handed.forged),
        1 => delivered(alloc, &crowd.handed.sixth),
        2 => delivered(alloc, &crowd.other),
        3 => delivered_at(alloc, &crowd.challenges, turn % 17),
        4 => audit(alloc, crowd, turn),
        5 => Some(EventOf::Forward(1)),
        _ => delivered_at(alloc, &crowd.flood, turn),
    }
}
