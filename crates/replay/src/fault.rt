//! What an entry may have wrong.

ghost use Rattle.std.specs.Prelude.{◌≡◌};
ghost use Rattle.replay_spec.specs.Stepping.{fault_number};
ghost use Rattle.replay.specs.Faults.{fault_in};

use thiserror::Error;

/// What an entry of a log may have wrong after a state (PeerReview, SOSP 2007, section 5.4).
#[derive(Clone, Copy, Debug, PartialEq, Eq, Error)]
pub enum ReplayFault {
    /// A CLOCK stands where no server reads its clock, something else stands where it has to, or a CLOCK
    /// shows microseconds above 999,999.
    #[error("the entry is out of turn, or shows no time")]
    BadForm,
    /// A RECV names its own node or a stranger as sender, or isn't signed by the sender.
    #[error("the message is not signed by a member that is another node")]
    BadReceive,
    /// A RECV has the sender, number and hash of a message that was received before.
    #[error("the message was received before")]
    Repeated,
    /// A server sends what it doesn't owe, or does something else where it owes a reply.
    #[error("the reply is not the one that is owed")]
    WrongReply,
    /// A CLOCK shows a time before the last reading.
    #[error("the clock goes back")]
    ClockBack,
    /// A CHECK isn't the digest of the state.
    #[error("the digest is not that of the state")]
    WrongCheckpoint,
    /// An ACK is of no message that was sent to this node and has none yet, or isn't signed by it.
    #[error("the acknowledgement is of no message sent, or not signed by its receiver")]
    BadAck,
}

impl ReplayFault {
    /// The number that programs print, from 1 to 7.
    pub fn number(self) -> u32
        ensures { result ≡ fault_number (fault_in self) }
    {
        match self {
            ReplayFault::BadForm => 1,
            ReplayFault::BadReceive => 2,
            ReplayFault::Repeated => 3,
            ReplayFault::WrongReply => 4,
            ReplayFault::ClockBack => 5,
            ReplayFault::WrongCheckpoint => 6,
            ReplayFault::BadAck => 7,
        }
    }
}
