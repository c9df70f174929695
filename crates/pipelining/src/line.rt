//! A connection over which several calls are in flight, by its two halves.

ghost use Rattle.std.specs.Prelude.{◌≡◌, ◌↔◌, ◌+◌, ◌^◌, ◌≤◌, true, false, IfErr, IfNone, IfOk, IfSome, IsFalse};
ghost use Rattle.std.specs.Prelude.{IsTrue, None, OnErr, Some};
ghost use Rattle.pipelining.specs.declared.turns.Standing.TheVariants.{Next};
ghost use Rattle.pipelining.specs.declared.turns.Stage.TheVariants.{Closed, Open};
ghost use Rattle.pipelining.specs.Turns.{Answers, Ends, GivesUp, IsAt, Opens, Stands, Starts, Takes};

use crate::turns::{Connection, Standing, Turn, Turns};

/// A connection over which several calls are in flight, and after its end the next one. It has a half that sends and a
/// half that receives; each lies here, or with the one who uses it. Who has sent a call takes a turn. Who waits for an
/// answer gets the half that receives once the answers to all earlier turns were read, and gives it back after its own.
#[derive(Drop)]
pub struct Pipeline<S: Drop, R: Drop> {
    turns: Turns,
    sender: Option<S>,
    receiver: Option<R>,
}

impl<S: Drop, R: Drop> Pipeline<S, R> {
    /// No connection, and the next one is the first.
    pub fn new() -> Pipeline<S, R>
        ensures stage { result.turns.stage ≡ Closed }
        ensures first { result.turns.connection ≡ 0 }
        ensures sender { result.sender ≡ None }
        ensures receiver { result.receiver ≡ None }
    {
        Pipeline {
            turns: Turns::new(),
            sender: None,
            receiver: None,
        }
    }

    /// Where there is no connection, and nobody makes one, the caller is to make one, and then calls `open` or `give_up`.
    /// Whether that is so.
    pub fn start(&mut self) -> bool
        ensures turns { Starts self.old.turns result self.new.turns }
        ensures sender { self.new.sender ≡ self.old.sender }
        ensures receiver { self.new.receiver ≡ self.old.receiver }
    {
        self.turns.start()
    }

    /// The caller, who was to make a connection, couldn't.
    pub fn give_up(&mut self)
        ensures turns { GivesUp self.old.turns self.new.turns }
        ensures sender { self.new.sender ≡ self.old.sender }
        ensures receiver { self.new.receiver ≡ self.old.receiver }
    {
        self.turns.give_up();
    }

    /// The caller, who was to make a connection, has made it: these are its halves. Whether it is kept: but for the
    /// 2^64th it is.
    pub fn open(&mut self, sender: S, receiver: R) -> bool
        ensures turns { Opens self.old.turns result self.new.turns }
        ensures sender { IsTrue result → self.new.sender ≡ Some sender }
        ensures receiver { IsTrue result → self.new.receiver ≡ Some receiver }
        ensures stays { IsFalse result → (self.new.sender ≡ self.old.sender)
            × (self.new.receiver ≡ self.old.receiver) }
    {
        if !self.turns.open() {
            return false;
        }
        self.sender = Some(sender);
        self.receiver = Some(receiver);
        true
    }

    /// Whether there is a connection.
    pub fn is_open(&self) -> bool
        ensures { IsTrue result ↔ (self.now.turns.stage ≡ Open) }
    {
        self.turns.connection().is_some()
    }

    /// The half that sends, with its connection: none exactly where there is no connection, or somebody has that half.
    pub fn take_sender(&mut self) -> Option<(Connection, S)>
        ensures taken { IfSome result (λ p.
            IsAt self.old.turns p.0.number × (self.old.sender ≡ Some p.1) × (self.new.sender ≡ None)) }
        ensures none { IfNone result ((self.old.turns.stage ≡ Open) → self.old.sender ≡ None) }
        ensures stays { IfNone result (self.new.sender ≡ self.old.sender) }
        ensures turns { self.new.turns ≡ self.old.turns }
        ensures receiver { self.new.receiver ≡ self.old.receiver }
    {
        let connection = self.turns.connection()?;
        let sender = self.sender.take()?;
        Some((connection, sender))
    }

    /// Gives the half back that sends: it comes back where its connection has ended.
    pub fn put_sender(&mut self, connection: Connection, sender: S) -> Option<S>
        ensures put { IfNone result (IsAt self.old.turns connection.number × (self.new.sender ≡ Some sender)) }
        ensures ended { IfSome result (λ s. (s ≡ sender) × (¬ IsAt self.old.turns connection.number)
            × (self.new.sender ≡ self.old.sender)) }
        ensures turns { self.new.turns ≡ self.old.turns }
        ensures receiver { self.new.receiver ≡ self.old.receiver }
    {
        if !self.turns.is_at(connection) {
            return Some(sender);
        }
        self.sender = Some(sender);
        None
    }

    /// Takes the next turn on a connection, for a call that was sent by the half that the caller has: none exactly where
    /// the connection has ended, or had 2^64 - 1 turns.
    pub fn take_turn(&mut self, connection: Connection) -> Option<Turn>
        ensures taken { IfSome result (λ t. Takes self.old.turns connection.number t self.new.turns) }
        ensures none { IfNone result (IsAt self.old.turns connection.number → 2 ^ 64 ≤ self.old.turns.taken + 1) }
        ensures stays { IfNone result (self.new.turns ≡ self.old.turns) }
        ensures sender { self.new.sender ≡ self.old.sender }
        ensures receiver { self.new.receiver ≡ self.old.receiver }
    {
        self.turns.take(connection)
    }

    /// The half that receives, exactly where this turn's answer comes next and nobody has that half; else how the turn
    /// stands.
    pub fn take_receiver(&mut self, turn: Turn) -> Result<R, Standing>
        ensures taken { IfOk result (λ r. Stands self.old.turns turn Next × (self.old.receiver ≡ Some r)
            × (self.new.receiver ≡ None)) }
        ensures stands { IfErr result (λ s. Stands self.old.turns turn s × (s ≡ Next → self.old.receiver ≡ None)) }
        ensures stays { OnErr result (self.new.receiver ≡ self.old.receiver) }
        ensures turns { self.new.turns ≡ self.old.turns }
        ensures sender { self.new.sender ≡ self.old.sender }
    {
        let standing = self.turns.standing(turn);
        if standing != Standing::Next {
            return Err(standing);
        }
        match self.receiver.take() {
            Some(receiver) => Ok(receiver),
            None => Err(standing),
        }
    }

    /// Gives the half back that receives, after this turn's answer was read by it: the next turn's comes next. It comes
    /// back where the turn's answer wasn't the next, as where its connection has ended.
    pub fn put_receiver(&mut self, turn: Turn, receiver: R) -> Option<R>
        ensures put { IfNone result (Answers self.old.turns turn true self.new.turns
            × (self.new.receiver ≡ Some receiver)) }
        ensures ended { IfSome result (λ r. (r ≡ receiver) × Answers self.old.turns turn false self.new.turns
            × (self.new.receiver ≡ self.old.receiver)) }
        ensures sender { self.new.sender ≡ self.old.sender }
    {
        if !self.turns.answer(turn) {
            return Some(receiver);
        }
        self.receiver = Some(receiver);
        None
    }

    /// Ends a connection, unless it has ended: all turns on it are over then. Gives the half that sent, where it lies
    /// here.
    pub fn end(&mut self, connection: Connection) -> Option<S>
        ensures ended { IsAt self.old.turns connection.number → Ends self.old.turns connection.number true self.new.turns
            × (result ≡ self.old.sender) × (self.new.sender ≡ None) × (self.new.receiver ≡ None) }
        ensures stays { (¬ IsAt self.old.turns connection.number) → (self.new.turns ≡ self.old.turns)
            × (result ≡ None) × (self.new.sender ≡ self.old.sender) × (self.new.receiver ≡ self.old.receiver) }
    {
        if !self.turns.end(connection) {
            return None;
        }
        self.receiver = None;
        self.sender.take()
    }
}
