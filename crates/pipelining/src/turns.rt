//! The turns of calls on a connection.

ghost use Rattle.std.specs.Prelude.{◌≡◌, ◌↔◌, ◌+◌, ◌^◌, ◌≤◌, IfNone, IfSome, IsTrue};
ghost use Rattle.pipelining.specs.declared.turns.Stage.TheVariants.{Closed, Open};
ghost use Rattle.pipelining.specs.Turns.{Answers, Ends, GivesUp, IsAt, IsTaken, Opens, Stands, Starts, Takes};

/// How far a connection is.
#[derive(Clone, Copy, Debug, PartialEq, Eq)]
pub(crate) enum Stage {
    /// There is none.
    Closed,
    /// Somebody makes one.
    Opening,
    /// There is one.
    Open,
}

/// A connection, among those that are made one after the other.
#[derive(Clone, Copy, Debug, PartialEq, Eq)]
pub struct Connection {
    pub(crate) number: u64,
}

/// The turn of a call on a connection. The answers of a connection come in the order of its turns.
#[derive(Clone, Copy, Debug, PartialEq, Eq)]
pub struct Turn {
    /// The connection's number.
    pub(crate) connection: u64,
    /// How many turns there were before it on that connection.
    pub(crate) place: u64,
}

/// How a turn stands.
#[derive(Clone, Copy, Debug, PartialEq, Eq)]
pub enum Standing {
    /// Its answer comes next.
    Next,
    /// Answers to earlier turns come first.
    Later,
    /// No answer comes for it: its connection has ended, or it was answered.
    Over,
}

/// The turns on one connection after the other.
#[derive(Clone, Copy, Debug)]
pub(crate) struct Turns {
    pub(crate) stage: Stage,
    /// How many connections there were, with this one.
    pub(crate) connection: u64,
    /// How many turns were taken on this connection.
    pub(crate) taken: u64,
    /// How many of them were answered.
    pub(crate) answered: u64,
}

impl Turn {
    /// The connection that it is on.
    pub fn connection(self) -> Connection
        ensures { result ≡ record { number = self.connection } }
    {
        Connection {
            number: self.connection,
        }
    }
}

impl Turns {
    /// No connection was made.
    pub(crate) fn new() -> Turns
        ensures { result ≡ record { stage = Closed; connection = 0; taken = 0; answered = 0 } }
    {
        Turns {
            stage: Stage::Closed,
            connection: 0,
            taken: 0,
            answered: 0,
        }
    }

    /// Where there is no connection, and nobody makes one, one is made from now on. Whether that is so.
    pub(crate) fn start(&mut self) -> bool
        ensures { Starts self.old result self.new }
    {
        if self.stage != Stage::Closed {
            return false;
        }
        self.stage = Stage::Opening;
        true
    }

    /// No connection could be made, where one was to be.
    pub(crate) fn give_up(&mut self)
        ensures { GivesUp self.old self.new }
    {
        if self.stage == Stage::Opening {
            self.stage = Stage::Closed;
        }
    }

    /// A connection was made. Whether it is kept: where one was to be made, and there were fewer than 2^64 - 1.
    pub(crate) fn open(&mut self) -> bool
        ensures { Opens self.old result self.new }
    {
        if self.stage != Stage::Opening || self.connection == u64::MAX {
            return false;
        }
        self.stage = Stage::Open;
        self.connection += 1;
        self.taken = 0;
        self.answered = 0;
        true
    }

    /// The connection that there is.
    pub(crate) fn connection(&self) -> Option<Connection>
        ensures open { IfSome result (λ c. IsAt self.now c.number) }
        ensures none { IfNone result (¬ (self.now.stage ≡ Open)) }
    {
        if self.stage != Stage::Open {
            return None;
        }
        Some(Connection {
            number: self.connection,
        })
    }

    /// Whether a connection is the one that there is.
    pub(crate) fn is_at(&self, connection: Connection) -> bool
        ensures { IsTrue result ↔ IsAt self.now connection.number }
    {
        self.stage == Stage::Open && self.connection == connection.number
    }

    /// The next turn on a connection: none exactly where that has ended, or had 2^64 - 1 turns.
    pub(crate) fn take(&mut self, connection: Connection) -> Option<Turn>
        ensures taken { IfSome result (λ t. Takes self.old connection.number t self.new) }
        ensures none { IfNone result (IsAt self.old connection.number → 2 ^ 64 ≤ self.old.taken + 1) }
        ensures stays { IfNone result (self.new ≡ self.old) }
    {
        if !self.is_at(connection) || self.taken == u64::MAX {
            return None;
        }
        let place = self.taken;
        self.taken += 1;
        Some(Turn {
            connection: connection.number,
            place,
        })
    }

    /// How a turn stands.
    pub(crate) fn standing(&self, turn: Turn) -> Standing
        ensures { Stands self.now turn result }
    {
        if !self.is_taken(turn) || turn.place < self.answered {
            return Standing::Over;
        }
        if self.answered < turn.place {
            Standing::Later
        } else {
            Standing::Next
        }
    }

    /// Whether a turn was taken on the connection that there is.
    fn is_taken(&self, turn: Turn) -> bool
        ensures { IsTrue result ↔ IsTaken self.now turn }
    {
        self.is_at(turn.connection()) && turn.place < self.taken
    }

    /// A turn was answered. Whether its answer was the next: else nothing has changed.
    pub(crate) fn answer(&mut self, turn: Turn) -> bool
        ensures { Answers self.old turn result self.new }
    {
        if !self.is_taken(turn) || turn.place != self.answered {
            return false;
        }
        self.answered += 1;
        true
    }

    /// A connection has ended, and so all turns on it are over. Whether it was the one that there is.
    pub(crate) fn end(&mut self, connection: Connection) -> bool
        ensures { Ends self.old connection.number result self.new }
    {
        if !self.is_at(connection) {
            return false;
        }
        self.stage = Stage::Closed;
        true
    }
}
