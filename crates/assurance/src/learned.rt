//! What a witness says of an authenticator that it is shown.

ghost use Rattle.std.specs.Prelude.{◌≡◌};
ghost use Rattle.assurance.specs.Learning.{said, takes};

/// The numbers by which it answers.
const TAKEN: u32 = 0;

const TAKEN_BEFORE: u32 = 10;

const NO_ROOM: u32 = 20;

const BELOW_BASE: u32 = 31;

/// What a witness says of an authenticator that it is shown.
#[derive(Clone, Copy, Debug, PartialEq, Eq)]
pub enum Learned {
    /// It takes it, or took it before.
    Taken,
    /// It has no room for more of that node until it has audited it.
    NoRoom,
    /// All that it knows of that node comes after the number: it never takes it.
    BelowBase,
    /// It takes it for none that the node signed.
    Refused,
}

impl Learned {
    /// Whether it takes it.
    pub(crate) fn is_taken(self) -> bool
        ensures { result ≡ takes self }
    {
        match self {
            Learned::Taken => true,
            Learned::NoRoom | Learned::BelowBase | Learned::Refused => false,
        }
    }
}

/// What the number of its answer says.
pub(crate) fn said_by(number: u32) -> Learned
    ensures { result ≡ said number }
{
    match number {
        TAKEN | TAKEN_BEFORE => Learned::Taken,
        NO_ROOM => Learned::NoRoom,
        BELOW_BASE => Learned::BelowBase,
        _ => Learned::Refused,
    }
}
