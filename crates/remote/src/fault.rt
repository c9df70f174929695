//! Why bytes that came back for a call are no answer to it.

ghost use Rattle.std.specs.Prelude.{◌≡◌};
ghost use Rattle.remote.specs.Refusals.{ack_fault, reply_fault};

use authenticator::Number;
use commitment::Refusal;
use std::fmt;
use thiserror::Error;

/// Why bytes that came back for a call are no answer to it.
#[derive(Clone, Copy, Debug, PartialEq, Eq, Error)]
pub enum AcceptFault {
    /// The bytes for the acknowledgement aren't one of this call that the server signed. Nothing is logged:
    /// nobody can show whose bytes they are.
    NotAcknowledged,
    /// They are one that the server signed, and the log has another of the same call. Nothing is logged. The
    /// two together show that the server received one message twice.
    AcknowledgedTwice,
    /// The call is acknowledged and a reply is owed to it; none came, or the bytes aren't an envelope from
    /// the server to the client that the server signed. Of them nothing is logged.
    Unanswered,
    /// The call is acknowledged and no reply is owed to it, but bytes came for one. They weren't looked at.
    NotOwed,
    /// The call is acknowledged, and the server signed a reply that is new and isn't this call's. Its RECV is
    /// logged with this number.
    AnotherCall(Number),
    /// The call is acknowledged, and the server's reply is one that was received before, by the RECV with
    /// this number. Nothing more is logged.
    Repeated(Number),
    /// The call is acknowledged, and the client has no key left for the RECV of a reply that is new.
    KeysUsedUp,
    /// The client's log has no number for the ACK, or for the RECV of a reply that is new.
    NoNumbers,
    /// A growth was refused.
    NoMemory,
}

impl fmt::Display for AcceptFault {
    fn fmt<W: fmt::Write>(&self, f: &mut fmt::Formatter<W>) -> fmt::Result {
        f.write_str(self.words())
    }
}

impl AcceptFault {
    /// What is said of it.
    fn words(self) -> &'static str {
        match self {
            AcceptFault::NotAcknowledged => "not acknowledged",
            AcceptFault::AcknowledgedTwice => "acknowledged twice",
            AcceptFault::Unanswered => "not answered",
            AcceptFault::NotOwed => "a reply that isn't owed",
            AcceptFault::AnotherCall(_) => "another call is answered",
            AcceptFault::Repeated(_) => "an earlier reply",
            AcceptFault::KeysUsedUp => "keys used up",
            AcceptFault::NoNumbers => "no numbers left",
            AcceptFault::NoMemory => "out of memory",
        }
    }
}

/// Why a client didn't take an acknowledgement.
pub(crate) fn ack_fault(refusal: Refusal) -> AcceptFault
    ensures { result ≡ ack_fault refusal }
{
    match refusal {
        Refusal::GapTooWide => AcceptFault::NoNumbers,
        Refusal::NoMemory => AcceptFault::NoMemory,
        Refusal::Garbage
        | Refusal::NotForMe
        | Refusal::BadSignature
        | Refusal::KeysUsedUp
        | Refusal::NoGaps => AcceptFault::NotAcknowledged,
    }
}

/// Why a client didn't take a reply.
pub(crate) fn reply_fault(refusal: Refusal) -> AcceptFault
    ensures { result ≡ reply_fault refusal }
{
    match refusal {
        Refusal::KeysUsedUp => AcceptFault::KeysUsedUp,
        Refusal::GapTooWide => AcceptFault::NoNumbers,
        Refusal::NoMemory => AcceptFault::NoMemory,
        Refusal::Garbage | Refusal::NotForMe | Refusal::BadSignature | Refusal::NoGaps => {
            AcceptFault::Unanswered
        }
    }
}
