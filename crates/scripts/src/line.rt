//! The lines of a script.

ghost use Rattle.std.specs.Prelude.{◌≡◌, ◌≤◌};

use crate::words::{LineFault, Words};
use authenticator::{Kind, LogVersion, MAX_NODE};
use secure_log::log_entries::Body;
use std::alloc::Global;
use std::marker::Model;

/// The greatest height of a tree of keys, and the most workers of a round.
const MOST: u32 = 16;

/// The most deliveries of a flood.
const MAX_FLOOD: u32 = 10_000;

/// A number from 1 to 16: the height of a tree of keys, or the workers of a round.
#[derive(Clone, Copy)]
pub(crate) struct OneToSixteen {
    value: u32,
}

impl Model for OneToSixteen {
    ghost use Rattle.std.specs.Prelude.{ℕ, ◌≤◌};

    ghost Value = { ℕ };

    ghost view = { λ n. n.value };

    ghost invariant = { λ n. (1 ≤ n.value) × (n.value ≤ 16) };

    ghost inverse = { λ n. record { value = n } };
}

impl OneToSixteen {
    /// The next word as such a number.
    fn read(words: &mut Words<'_>) -> Result<OneToSixteen, LineFault> {
        let value = words.number()?;
        if value < 1 || value > MOST {
            return Err(LineFault::Bad);
        }
        Ok(OneToSixteen { value })
    }

    /// The number.
    pub(crate) fn get(self) -> u32
        ensures value { result ≡ self }
        ensures some { 1 ≤ result }
        ensures most { result ≤ 16 }
    {
        self.value
    }
}

/// A client and a server, by their numbers.
#[derive(Clone, Copy)]
pub(crate) struct Pair {
    pub(crate) client: u32,
    pub(crate) server: u32,
}

/// Something of a node's log: the node's number, and a number in its log.
#[derive(Clone, Copy)]
pub(crate) struct Place {
    pub(crate) node: u32,
    pub(crate) number: u32,
}

/// A node that a script has.
#[derive(Clone, Copy)]
pub(crate) struct NodeLine {
    pub(crate) number: u32,
    pub(crate) kind: Kind,
    /// The height of its tree of keys.
    pub(crate) height: OneToSixteen,
    /// The version of its log.
    pub(crate) log_version: LogVersion,
}

/// A line after the nodes: what somebody does.
#[derive(Drop)]
pub(crate) enum Act<'a> {
    /// `call C S HEX`: a client calls a server.
    Call(Pair, Body),
    /// `fork C S HEX HEX`: a client sends two messages under one number.
    Fork(Pair, Body, Body),
    /// `lie S`: a server's next reply is changed.
    Lie(u32),
    /// `mark S`: a server logs the digest of its state.
    Mark(u32),
    /// `skip N BY`: the next entry of a node's log skips so many numbers.
    Skip(u32, u32),
    /// `learn N K`: the witness gets a node's authenticator.
    Learn(Place),
    /// `forge N K`: the same with one bit changed.
    Forge(Place),
    /// `flood N K T`: that, T times.
    Flood(Place, u32),
    /// `audit N`: the witness asks for a segment.
    Audit(u32),
    /// `answer N`: the node answers.
    Answer(u32),
    /// `replay W`: workers replay what was given.
    Replay(OneToSixteen),
    /// `challenge C S K`: the witness gets a client's message, which the server is to acknowledge.
    Challenge(Pair, u32),
    /// `ack C S K`: the server receives the message again, and acknowledges it to the witness.
    Ack(Pair, u32),
    /// `forward N`: what a node's log showed of others goes to their books.
    Forward(u32),
    /// `ask N`: what the witness says of a node.
    Ask(u32),
    /// `evidence N FILE`: the evidence against a node goes to a file.
    Evidence(u32, &'a str),
}

/// A line of a script.
#[derive(Drop)]
pub(crate) enum Line<'a> {
    /// `node N server H` or `node N client H`, and after it `2` where its log is of version 2.
    Node(NodeLine),
    /// `join N K`: a new witness begins with the base that a node gives at a number.
    Join(Place),
    /// A line after the nodes.
    Act(Act<'a>),
}

/// The line that a text is. It is bad where it is none: another first word, words that are missing or too
/// many, a number out of its range, a body that isn't one. `NoMemory` comes only where a growth was refused.
pub(crate) fn read_line(alloc: Global, text: &str) -> Result<Line<'_>, LineFault> {
    let mut words = Words::new(text);
    let name = words.word()?;
    let line = match name {
        "node" => Line::Node(node_line(&mut words)?),
        "join" => Line::Join(read_place(&mut words)?),
        _ => Line::Act(read_act(alloc, name, &mut words)?),
    };
    match words.end() {
        Ok(()) => Ok(line),
        Err(fault) => Err(fault),
    }
}

/// What follows `node`.
fn node_line(words: &mut Words<'_>) -> Result<NodeLine, LineFault> {
    let number = words.number_within(1, MAX_NODE)?;
    let kind = kind_of(words.word()?)?;
    let height = OneToSixteen::read(words)?;
    let log_version = log_version(words)?;
    Ok(NodeLine {
        number,
        kind,
        height,
        log_version,
    })
}

/// The version of a node's log: 1, or 2 where that word follows.
fn log_version(words: &mut Words<'_>) -> Result<LogVersion, LineFault> {
    if words.end().is_ok() {
        return Ok(LogVersion::One);
    }
    match words.word()? {
        "2" => Ok(LogVersion::Two),
        _ => Err(LineFault::Bad),
    }
}

/// The kind of node that a word names.
fn kind_of(word: &str) -> Result<Kind, LineFault> {
    match word {
        "server" => Ok(Kind::Server),
        "client" => Ok(Kind::Client),
        _ => Err(LineFault::Bad),
    }
}

/// What a line's first word says is done, with the words after it.
fn read_act<'a>(alloc: Global, name: &str, words: &mut Words<'a>) -> Result<Act<'a>, LineFault> {
    match name {
        "call" | "fork" => message(alloc, name, words),
        "challenge" => {
            let (pair, number) = sent(words)?;
            Ok(Act::Challenge(pair, number))
        }
        "ack" => {
            let (pair, number) = sent(words)?;
            Ok(Act::Ack(pair, number))
        }
        "learn" => Ok(Act::Learn(read_place(words)?)),
        "forge" => Ok(Act::Forge(read_place(words)?)),
        "flood" => {
            let place = read_place(words)?;
            Ok(Act::Flood(place, words.number_within(1, MAX_FLOOD)?))
        }
        "replay" => Ok(Act::Replay(OneToSixteen::read(words)?)),
        "evidence" => {
            let node = words.number()?;
            Ok(Act::Evidence(node, words.word()?))
        }
        _ => of_node(name, words),
    }
}

/// What is done about one node.
fn of_node<'a>(name: &str, words: &mut Words<'a>) -> Result<Act<'a>, LineFault> {
    match name {
        "lie" => Ok(Act::Lie(words.number()?)),
        "mark" => Ok(Act::Mark(words.number()?)),
        "skip" => {
            let node = words.number()?;
            Ok(Act::Skip(node, words.number()?))
        }
        "audit" => Ok(Act::Audit(words.number()?)),
        "answer" => Ok(Act::Answer(words.number()?)),
        "forward" => Ok(Act::Forward(words.number()?)),
        "ask" => Ok(Act::Ask(words.number()?)),
        _ => Err(LineFault::Bad),
    }
}

/// What follows `call` or `fork`.
fn message<'a>(alloc: Global, name: &str, words: &mut Words<'a>) -> Result<Act<'a>, LineFault> {
    let pair = read_pair(words)?;
    let first = words.body(alloc)?;
    if name == "call" {
        return Ok(Act::Call(pair, first));
    }
    let second = words.body(alloc)?;
    Ok(Act::Fork(pair, first, second))
}

/// A client and a server.
fn read_pair(words: &mut Words<'_>) -> Result<Pair, LineFault> {
    let client = words.number()?;
    let server = words.number()?;
    Ok(Pair { client, server })
}

/// A client, a server, and a number in the client's log.
fn sent(words: &mut Words<'_>) -> Result<(Pair, u32), LineFault> {
    let pair = read_pair(words)?;
    Ok((pair, words.number()?))
}

/// A node, and a number in its log.
fn read_place(words: &mut Words<'_>) -> Result<Place, LineFault> {
    let node = words.number()?;
    let number = words.number()?;
    Ok(Place { node, number })
}
