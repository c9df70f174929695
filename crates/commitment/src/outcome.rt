//! What became of an envelope.

use authenticator::Number;
use envelopes::Envelope;

/// What became of an envelope that wasn't refused: of one that a receiver logs, the number of its RECV, by
/// which `Receiver::sender` gives the acknowledgement that is due; of one that a server
/// answers, the numbers of both.
#[derive(Clone, Copy, Debug, PartialEq, Eq)]
pub enum Received<T> {
    /// It was logged.
    New(T),
    /// Its message was received before, and nothing was logged: this came of it then.
    Repeat(T),
}

impl<T> Received<T> {
    ghost use Rattle.std.specs.Prelude.{◌≡◌};
    ghost use Rattle.commitment.specs.Outcomes.{is_new};

    /// Whether it was logged just now.
    pub fn is_new(&self) -> bool
        ensures { result ≡ is_new self.now }
    {
        match self {
            Received::New(_) => true,
            Received::Repeat(_) => false,
        }
    }
}

impl Received<Number> {
    ghost use Rattle.std.specs.Prelude.{◌≡◌};
    ghost use Rattle.commitment.specs.Outcomes.{receipt_number};

    /// The number of the RECV.
    pub fn number(&self) -> Number
        ensures { result ≡ receipt_number self.now }
    {
        match self {
            Received::New(number) => *number,
            Received::Repeat(number) => *number,
        }
    }
}

/// What `Receiver::prepare_receipt` made of an envelope that wasn't refused.
#[derive(Drop)]
pub enum Prepared {
    /// This envelope is new: keys are left for it and memory is reserved, so that `Receiver::log_receipt` can
    /// log it.
    New(Envelope),
    /// Its message was received before, and the RECV has this number.
    Repeat(Number),
}
