//! What came of asking witnesses, and the exit status for it.

ghost use Rattle.std.specs.Prelude.{◌≡◌, ℕ, max};
ghost use Rattle.host_commands.specs.Findings.{rank};

use program_output::{EXPOSED, SUSPECTED};
use witness_process::Indication;

/// What came of asking witnesses, from the least to the gravest.
#[derive(Clone, Copy, Debug, PartialEq, Eq)]
pub(crate) enum Finding {
    /// All are trusted.
    Trusted,
    /// Somebody is suspected.
    Suspected,
    /// A witness couldn't be asked, or what it said couldn't be printed, for which this is the status.
    Failed(u8),
    /// Somebody is exposed.
    Exposed,
}

impl Finding {
    /// What a witness says of a node.
    pub(crate) fn of(indication: Indication) -> Finding
        ensures trusted { indication ≡ Indication.Trusted → result ≡ Finding.Trusted }
        ensures suspected { indication ≡ Indication.Suspected → result ≡ Finding.Suspected }
        ensures exposed { indication ≡ Indication.Exposed → result ≡ Finding.Exposed }
    {
        match indication {
            Indication::Trusted => Finding::Trusted,
            Indication::Suspected => Finding::Suspected,
            Indication::Exposed => Finding::Exposed,
        }
    }

    /// How grave it is: of two faults that with the greater status is the graver.
    fn rank(self) -> u32
        ensures { result ≡ rank self }
    {
        match self {
            Finding::Trusted => 0,
            Finding::Suspected => 1,
            Finding::Failed(status) => 2 + u32::from(status),
            Finding::Exposed => 258,
        }
    }

    /// The graver of two.
    pub(crate) fn or(self, other: Finding) -> Finding
        ensures { rank result ≡ max (rank self) (rank other) }
    {
        if self.rank() < other.rank() {
            other
        } else {
            self
        }
    }

    /// The exit status.
    pub(crate) fn status(self) -> u8
        ensures trusted { self ≡ Finding.Trusted → result ≡ 0 }
        ensures suspected { self ≡ Finding.Suspected → result ≡ 7 }
        ensures failed { (status : ℕ) → self ≡ Finding.Failed status → result ≡ status }
        ensures exposed { self ≡ Finding.Exposed → result ≡ 8 }
    {
        match self {
            Finding::Trusted => 0,
            Finding::Suspected => SUSPECTED,
            Finding::Failed(status) => status,
            Finding::Exposed => EXPOSED,
        }
    }
}
