//! The parts of a state's text, lent by the bytes that they were read from. Nothing is tested in them but
//! their bounds.

use state_machine::states::{NumberedSend, ReceivedMessage};
use state_machine::{FilePart, TimePart};

/// What a server owes next: nothing, a clock reading for a body that was heard, or a reply.
#[derive(Clone, Copy)]
pub enum StagePart<'a> {
    Idle,
    Heard { from: u32, body: &'a [u8] },
    Owes { to: u32, body: &'a [u8] },
}

/// A machine's name, and the directory that it has mounted.
#[derive(Clone, Copy)]
pub struct MountPart<'a> {
    pub host: &'a [u8],
    pub directory: &'a [u8],
}

/// What a server has beside its clock and its messages.
#[derive(Drop)]
pub struct WorldPart<'a> {
    pub stage: StagePart<'a>,
    /// The number that the next file gets.
    pub next: u32,
    pub mounts: Vec<MountPart<'a>>,
    pub files: Vec<FilePart<'a>>,
}

/// What stands after the messages: of a client nothing.
#[derive(Drop)]
pub enum MachinePart<'a> {
    Server(WorldPart<'a>),
    Client,
}

/// The parts of a state.
#[derive(Drop)]
pub struct StatePart<'a> {
    pub node: u32,
    /// The last clock reading.
    pub clock: TimePart,
    pub received: Vec<ReceivedMessage>,
    pub sends: Vec<NumberedSend>,
    pub machine: MachinePart<'a>,
}
