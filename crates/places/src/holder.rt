//! Who holds a place.

ghost use Rattle.std.specs.Prelude.{◌≡◌};
ghost use Rattle.places.specs.Holding.{alike, most};

/// How many connections of strangers are served at once.
pub const MAX_STRANGERS: usize = 16;

/// How many connections of one member are served at once.
pub const MAX_OF_A_MEMBER: usize = 4;

/// How many connections for audits are served at once, where they have an address of their own.
pub const MAX_AUDITORS: usize = 16;

/// How many seconds a stranger has to show a new message of a member.
pub const PATIENCE: u64 = 10;

/// Whose connection it is, as far as it is known.
#[derive(Clone, Copy, Debug, PartialEq, Eq)]
pub enum Standing {
    /// Nobody has shown a new message there.
    Stranger,
    /// A new message of this member came over it.
    Member(u32),
    /// It came to the address of audits.
    Auditor,
}

/// A connection that holds a place.
#[derive(Clone, Copy, Debug)]
pub struct Holder {
    /// Its number among the process's connections.
    pub id: u64,
    /// When it took its place, in seconds.
    pub seen: u64,
    pub standing: Standing,
}

impl Standing {
    /// Whether two stand alike: as strangers, as one member, as auditors.
    pub fn is_like(self, other: Standing) -> bool
        ensures { result ≡ alike self other }
    {
        match (self, other) {
            (Standing::Stranger, Standing::Stranger) => true,
            (Standing::Member(one), Standing::Member(another)) => one == another,
            (Standing::Auditor, Standing::Auditor) => true,
            _ => false,
        }
    }

    /// How many that stand alike hold a place at most.
    pub fn most(self) -> usize
        ensures { result ≡ most self }
    {
        match self {
            Standing::Stranger => MAX_STRANGERS,
            Standing::Member(_) => MAX_OF_A_MEMBER,
            Standing::Auditor => MAX_AUDITORS,
        }
    }
}
