//! Members, their keys, and the books of their rosters: a server and a client; and nodes 1, 2, 5 and 6, with
//! what a node hands over, the packets of its log, and node 5's own steps that take them. Each function is
//! small, and gives none where memory is refused: the proof of a function takes its time by what it owns at
//! how many exits.

ghost use Rattle.std.specs.Prelude.{◌≤◌};

use crate::logs::{
    answer_packet, changed, closing_at, learn, learn_packet, reads_clocks, segment_text,
};
use acceptance_helpers::{client, roster_of, server};
use authenticator::{Authenticator, Kind, LogVersion, Member, Roster};
use merkle_keys::Signer;
use secure_log::Log;
use std::alloc::Global;
use witness_service::{Books, Event, EventOf, Question, SignatureCache, admit};

/// The master secret of the server's keys, node 1, and of the client's, node 2.
pub const SERVER: [u8; 32] = [1; 32];

pub const CLIENT: [u8; 32] = [2; 32];

/// The keys of the server and of the client, and books of both.
#[derive(Drop)]
pub struct Parties {
    pub server: Signer,
    pub client: Signer,
    pub books: Books,
}

/// Keys of a master secret.
pub fn keys(alloc: Global, master: [u8; 32], height: u32) -> Option<Signer>
    requires some { 1 ≤ height }
    requires low { height ≤ 16 }
{
    Signer::new(alloc, master, height).ok()
}

/// A client as a member.
pub fn member(node: u32, root: [u8; 32], height: u32) -> Member {
    Member {
        node,
        kind: Kind::Client,
        root,
        height,
        log_version: LogVersion::One,
    }
}

/// The books of a roster before any step.
pub fn books_of(alloc: Global, roster: Option<Roster>) -> Option<Books> {
    match roster {
        Some(roster) => Books::new(alloc, roster).ok(),
        None => None,
    }
}

/// Books of the server and the client with these roots, under this height.
pub fn pair_books(alloc: Global, one: [u8; 32], two: [u8; 32], height: u32) -> Option<Books> {
    let members = [server(one, height), client(two, height)];
    books_of(alloc, roster_of(alloc, &members))
}

/// Both with their keys.
fn with_books(alloc: Global, server: Signer, client: Signer, height: u32) -> Option<Parties> {
    match pair_books(alloc, server.root(), client.root(), height) {
        Some(books) => Some(Parties {
            server,
            client,
            books,
        }),
        None => None,
    }
}

/// The server and the client with new keys of this height, and their books before any step.
pub fn new_parties(alloc: Global, height: u32) -> Option<Parties>
    requires some { 1 ≤ height }
    requires low { height ≤ 16 }
{
    let server = keys(alloc, SERVER, height)?;
    let client = keys(alloc, CLIENT, height)?;
    with_books(alloc, server, client, height)
}

/// The height of each node's tree of keys, which has eight.
pub const HEIGHT: u32 = 3;

/// A node's keys: its number is each byte of its master secret.
pub fn keys_of(alloc: Global, node: u8) -> Option<Signer> {
    keys(alloc, [node; 32], HEIGHT)
}

/// A node as a member. The first is the server.
fn member_of(alloc: Global, node: u8) -> Option<Member> {
    let root = keys_of(alloc, node)?.root();
    Some(if node == 1 {
        server(root, HEIGHT)
    } else {
        member(node as u32, root, HEIGHT)
    })
}

/// The roster of these nodes, the second of which is this.
pub fn roster_with(alloc: Global, two: Member) -> Option<Roster> {
    let one = member_of(alloc, 1)?;
    let five = member_of(alloc, 5)?;
    let six = member_of(alloc, 6)?;
    roster_of(alloc, &[one, two, five, six])
}

/// The roster of these nodes.
pub fn roster(alloc: Global) -> Option<Roster> {
    match member_of(alloc, 2) {
        Some(two) => roster_with(alloc, two),
        None => None,
    }
}

/// What a node hands over: its authenticators at 1 and at the last number of its log, and its answer,
/// the segment up to there.
#[derive(Drop)]
pub struct Shown {
    pub first: Vec<u8>,
    pub last: Vec<u8>,
    pub answer: Vec<u8>,
}

/// The packet of what a log's node signs for a number of it.
fn closing_packet(alloc: Global, log: &Log, signer: &mut Signer, number: u32) -> Option<Vec<u8>> {
    match closing_at(log, signer, number) {
        Some(closing) => learn_packet(alloc, &closing),
        None => None,
    }
}

/// The packet of the log up to this authenticator.
fn answer_of(alloc: Global, log: &Log, closing: &Authenticator) -> Option<Vec<u8>> {
    match segment_text(alloc, log, 1, closing) {
        Some(text) => answer_packet(alloc, &text),
        None => None,
    }
}

/// What is handed over of a log that this authenticator closes, with the first packet.
fn shown_closed(
    alloc: Global,
    first: Vec<u8>,
    log: &Log,
    closing: &Authenticator,
) -> Option<Shown> {
    match (learn_packet(alloc, closing), answer_of(alloc, log, closing)) {
        (Some(last), Some(answer)) => Some(Shown {
            first,
            last,
            answer,
        }),
        _ => None,
    }
}

/// What is handed over of a log with this last number.
pub fn shown_of_log(alloc: Global, log: &Log, signer: &mut Signer, last: u32) -> Option<Shown> {
    match (
        closing_packet(alloc, log, signer, 1),
        closing_at(log, signer, last),
    ) {
        (Some(first), Some(closing)) => shown_closed(alloc, first, log, &closing),
        _ => None,
    }
}

/// What a node hands over whose log has two readings of the clock.
pub fn shown_by(alloc: Global, node: u8) -> Option<Shown> {
    let mut signer = keys_of(alloc, node)?;
    let mut log = Log::new(alloc, node as u32, LogVersion::One);
    if reads_clocks(&mut log, 2) {
        shown_of_log(alloc, &log, &mut signer, 2)
    } else {
        None
    }
}

/// Packets of node 5, its first one with another bit, and one of node 6; and the roster of both.
#[derive(Drop)]
pub struct Handed {
    pub roster: Roster,
    pub own: Shown,
    pub forged: Vec<u8>,
    pub sixth: Vec<u8>,
}

/// How a packet becomes an event.
#[derive(Clone, Copy)]
pub enum Way {
    /// As bytes, which are checked under the lock.
    Delivered,
    /// Checked before.
    Admitted,
}

/// How many steps of its own node 5 makes.
pub const OWN_STEPS: usize = 13;

/// What node 6 signs at 1.
fn of_sixth(alloc: Global) -> Option<Vec<u8>> {
    match keys_of(alloc, 6) {
        Some(mut sixth) => learn(alloc, &mut sixth, 6, 1, [1; 32]),
        None => None,
    }
}

/// Node 5's packets with the others, and a roster that has these nodes.
fn with_others(alloc: Global, roster: Roster, own: Shown) -> Option<Handed> {
    let forged = changed(Vec::from_slice(alloc, &own.first).ok());
    match (forged, of_sixth(alloc)) {
        (Some(forged), Some(sixth)) => Some(Handed {
            roster,
            own,
            forged,
            sixth,
        }),
        _ => None,
    }
}

/// All packets, with a roster that has these nodes.
pub fn handed_in(alloc: Global, roster: Roster) -> Option<Handed> {
    match shown_by(alloc, 5) {
        Some(own) => with_others(alloc, roster, own),
        None => None,
    }
}

/// All packets.
pub fn all_handed(alloc: Global) -> Option<Handed> {
    match roster(alloc) {
        Some(roster) => handed_in(alloc, roster),
        None => None,
    }
}

/// Bytes that are delivered.
pub fn delivered(alloc: Global, bytes: &[u8]) -> Option<Event> {
    match Vec::from_slice(alloc, bytes) {
        Ok(bytes) => Some(EventOf::Deliver(bytes)),
        Err(_) => None,
    }
}

/// The event of a packet.
fn event_of(alloc: Global, roster: &Roster, way: Way, bytes: &[u8]) -> Option<Event> {
    match way {
        Way::Delivered => delivered(alloc, bytes),
        Way::Admitted => admit(alloc, roster, &mut SignatureCache::new(4), bytes).ok(),
    }
}

/// Node 5's own step with this place.
pub fn own(alloc: Global, handed: &Handed, way: Way, step: usize) -> Option<Event> {
    match step {
        0 | 2 => event_of(alloc, &handed.roster, way, &handed.own.first),
        1 => event_of(alloc, &handed.roster, way, &handed.own.last),
        4 => Some(EventOf::Audit(5)),
        6 => Some(EventOf::Ask(5, Question::Challenges)),
        7 => event_of(alloc, &handed.roster, way, &handed.own.answer),
        9 => Some(EventOf::Begin(5)),
        10 => Some(EventOf::Forward(5)),
        11 => Some(EventOf::Ask(5, Question::Evidence)),
        _ => Some(EventOf::Ask(5, Question::Indication)),
    }
}
