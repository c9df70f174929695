//! What is kept of what passes between a client and a witness, so that it tells which replies are assured.

ghost use Rattle.std.specs.Prelude.{◌≡◌, ℕ, List, [], ◌∷◌, Option, Some, option_map, OnErr, OnOk};
ghost use Rattle.assurance.specs.Assured.{IsAssuredTo, LastAnswer, leaving_out};
ghost use Rattle.assurance.specs.Events.{Asked, HandedOut, History, Taken, Told};
ghost use Rattle.assurance.specs.Keeping.{GoesOn, IsLast, IsLeast, StandsFor};

use std::alloc::{AllocError, Global};

/// What a witness answered.
#[derive(Clone, Copy)]
pub(crate) struct Answer {
    pub(crate) is_exposed: bool,
    pub(crate) end: u64,
    /// The least number of a reply that the answer leaves out.
    pub(crate) left_out: Option<u64>,
}

/// What passed between a client and a witness about the replies of one server: which were handed out, whose
/// signatures the witness took, and what it answered when it was asked about the server.
#[derive(Drop)]
pub struct Assurance {
    /// The numbers of the replies that were handed out, and whose signatures weren't taken since.
    pub(crate) waiting: Vec<u64>,
    /// The least number of a reply that an answer which comes now leaves out.
    pub(crate) left_out: Option<u64>,
    pub(crate) last: Option<Answer>,
}

impl Assurance {
    /// Nothing has passed.
    pub fn new(alloc: Global) -> Assurance
        ensures { StandsFor [] result }
    {
        Assurance {
            waiting: Vec::new(alloc),
            left_out: None,
            last: None,
        }
    }

    /// A reply is handed out, which has this number in the server's log. Where a growth was refused nothing has
    /// changed.
    pub fn hand_out(&mut self, number: u64) -> Result<(), AllocError>
        ensures goes_on { OnOk result (GoesOn self.old (λ h. HandedOut number ∷ h) self.new) }
        ensures stays { OnErr result (GoesOn self.old (λ h. h) self.new) }
    {
        self.waiting.push(number)?;
        self.left_out = Some(lesser(self.left_out, number));
        self.last = leave_out(self.last, number);
        Ok(())
    }

    /// The witness takes the signature of the reply with this number: it is new to it, or it has it.
    pub fn take(&mut self, number: u64)
        ensures { GoesOn self.old (λ h. Taken number ∷ h) self.new }
    {
        self.waiting.retain(|waiting| *waiting != number);
    }

    /// The witness is asked about the server.
    pub fn ask(&mut self)
        ensures { GoesOn self.old (λ h. Asked ∷ h) self.new }
    {
        self.left_out = self.waiting.iter().copied().min();
    }

    /// The witness answers: whether it calls the server exposed, and the last number up to which it has filed the
    /// server's log Sound.
    pub fn tell(&mut self, is_exposed: bool, end: u64)
        ensures { GoesOn self.old (λ h. Told is_exposed end ∷ h) self.new }
    {
        self.last = Some(Answer {
            is_exposed,
            end,
            left_out: self.left_out,
        });
    }

    /// The greatest number up to which the witness answers for each reply that was handed out: by its last answer
    /// the server isn't exposed, and its log was filed Sound up to there; and before the witness was asked, it had
    /// taken the signature of each reply up to there that has been handed out. None where there is no such number.
    pub fn assured(&self) -> Option<u64>
        ensures { (h : History) → StandsFor h self.now → IsAssuredTo h result }
    {
        let answer = self.last?;
        if answer.is_exposed {
            return None;
        }
        match answer.left_out {
            None => Some(answer.end),
            Some(0) => None,
            Some(number) => Some(answer.end.min(number - 1)),
        }
    }
}

#[tactic(auto, using(crate::proofs::Least::keeps_least, crate::proofs::Least::new_least))]
/// The lesser of a number, if there is one, and another.
fn lesser(number: Option<u64>, other: u64) -> u64
    ensures { (xs : List ℕ) → IsLeast xs number → IsLeast (other ∷ xs) (Some result) }
{
    match number {
        None => other,
        Some(number) => { if number < other { number } else { other } }
    }
}

/// An answer that leaves out a reply more, if there is one.
fn leave_out(last: Option<Answer>, number: u64) -> Option<Answer>
    ensures { (a : Option LastAnswer) → IsLast a last → IsLast (option_map (leaving_out number) a) result }
{
    match last {
        None => None,
        Some(answer) => Some(Answer {
            is_exposed: answer.is_exposed,
            end: answer.end,
            left_out: Some(lesser(answer.left_out, number)),
        }),
    }
}
