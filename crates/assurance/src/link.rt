//! The way to a witness.

ghost use Rattle.std.specs.Prelude.{◌≡◌, IfOk, List, None, OnErr, OnOk, Option};
ghost use Rattle.assurance.specs.Exchanges.{Adds, Asked, Exchange, Greeted, Shown};

use authenticator::Authenticator;
use std::alloc::AllocError;

/// Why a call of a witness brought no answer.
#[derive(Clone, Copy, Debug)]
pub enum LinkFault {
    /// A growth was refused.
    NoMemory,
    /// The connection ended or failed, or nothing came in time.
    Broken,
    /// What came is no answer to what was asked.
    Garbage,
    /// It goes by the roster whose text has this digest.
    OtherRoster([u8; 32]),
}

impl From<AllocError> for LinkFault {
    ghost use Rattle.std.specs.Prelude.{◌≡◌};
    ghost use Rattle.assurance.specs.declared.link.LinkFault.TheVariants.{NoMemory};

    ghost from_gives = { λ _ e. e ≡ NoMemory };

    fn from(_error: AllocError) -> LinkFault {
        LinkFault::NoMemory
    }
}

/// What a witness says of a node.
#[derive(Clone, Copy, Debug)]
pub struct Told {
    /// Whether it calls it exposed.
    pub is_exposed: bool,
    /// The last number up to which it has filed its log Sound.
    pub end: u64,
}

/// The way to a witness, over which it is asked one thing at a time. After a fault no answer came.
pub trait WitnessLink {
    /// What a witness awaits of a node.
    type Wanted;

    /// What it was asked about a server's replies, and answered, the newest first, where that is known.
    ghost exchanges: { Self → Option (List Exchange) } = { λ _. None };

    /// Greets it. `OtherRoster` comes where it goes by another roster.
    fn greet(&mut self) -> Result<(), LinkFault>
        ensures greeted { OnOk result (Adds (exchanges self.old) Greeted (exchanges self.new)) }
        ensures failed { OnErr result (exchanges self.new ≡ exchanges self.old) };

    /// Shows it what a node signed: the number by which it answers.
    fn show(&mut self, signed: &Authenticator) -> Result<u32, LinkFault>
        ensures shown { IfOk result (λ answer.
            Adds (exchanges self.old) (Shown signed.now answer) (exchanges self.new)) }
        ensures failed { OnErr result (exchanges self.new ≡ exchanges self.old) };

    /// Asks it what it says of a node.
    fn ask(&mut self, node: u32) -> Result<Told, LinkFault>
        ensures asked { IfOk result (λ told.
            Adds (exchanges self.old) (Asked node told.is_exposed told.end) (exchanges self.new)) }
        ensures failed { OnErr result (exchanges self.new ≡ exchanges self.old) };

    /// What it was shown of the asker last, if it was shown something.
    fn own(&mut self) -> Result<Option<Authenticator>, LinkFault>
        ensures { exchanges self.new ≡ exchanges self.old };

    /// Hands it a packet that isn't about the replies: the number by which it answers.
    fn hand(&mut self, packet: &[u8]) -> Result<u32, LinkFault>
        ensures { exchanges self.new ≡ exchanges self.old };

    /// What it awaits of the asker.
    fn wanted(&mut self) -> Result<Self::Wanted, LinkFault>
        ensures { exchanges self.new ≡ exchanges self.old };
}
