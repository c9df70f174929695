//! Room for what a step adds.

ghost use Rattle.std.specs.Prelude.{◌≡◌, IfErr, IfOk, OnOk};
ghost use Rattle.witness_book_laws.specs.Ready.{IsOfLog, IsReady};
ghost use Rattle.witness_book_laws.specs.Replying.{BookOwes};
ghost use Rattle.node_book.specs.Deciding.{AddsOne, Decides, HasRoomFor, reply_of};
ghost use Rattle.node_book.specs.Events.{step_in};
ghost use Rattle.node_book.specs.Replies.{reply_in};
ghost use Rattle.node_book.specs.Rows.{KeepsRows, book_in};
ghost use Rattle.node_book.specs.Stepping.{MayRunOut};

use crate::decision::{
    AnswerDecision, AuditDecision, ChallengeDecision, Decision, LearnDecision, ReturnDecision,
};
use crate::rows::Rows;
use crate::step::Step;
use std::alloc::{AllocError, Global};

impl Rows {
    /// Takes memory for what a step adds to the book, of which this was decided: one authenticator,
    /// challenge, segment or share of the outbox more. The book stays in any case. Where nothing is added,
    /// none is taken, and the answer is `Ok`.
    fn make_room_for(&mut self, decided: &Decision) -> Result<(), AllocError>
        ensures stays { book_in self.new ≡ book_in self.old }
        ensures base { self.new.base ≡ self.old.base }
        ensures segments { self.new.segments.items ≡ self.old.segments.items }
        ensures exposure { self.new.exposure ≡ self.old.exposure }
        ensures room { OnOk result (HasRoomFor self.new decided.now) }
        ensures err { IfErr result (λ _. AddsOne decided.now) }
    {
        match decided {
            Decision::Learn(LearnDecision::Noted(None)) => self.learned.try_reserve(1)?,
            Decision::SendChallenge(ChallengeDecision::Opened)
            | Decision::Audit(AuditDecision::Asked(_, _)) => { self.challenges.try_reserve(1)? }
            Decision::Answer(AnswerDecision::Accepted(_, _)) => self.segments.try_reserve(1)?,
            Decision::File(ReturnDecision::IsOut) => self.outbox.reserve()?,
            _ => {}
        }
        Ok(())
    }

    /// Decides what a step is to do, and takes the memory for it. The book stays in any case. `AllocError`
    /// comes only where memory was refused: so never where what is owed is a refusal or `Already`, nor for a
    /// job that is put back, an acknowledgement or a question for the indication.
    pub fn prepare(&mut self, alloc: Global, step: &Step) -> Result<Decision, AllocError>
        requires ready { IsReady (book_in self.old) }
        requires of_log { IsOfLog self.old.log_version (step_in step.now) }
        requires keeps { KeepsRows self.old }
        ensures stays { book_in self.new ≡ book_in self.old }
        ensures keeps { KeepsRows self.new }
        ensures decided { IfOk result (Decides (book_in self.new) step.now) }
        ensures owes { IfOk result
            (λ d. BookOwes (book_in self.new) (step_in step.now) (reply_in (reply_of step.now d))) }
        ensures room { IfOk result (HasRoomFor self.new) }
        ensures err { IfErr result (λ _. MayRunOut (book_in self.old) (step_in step.now)) }
    {
        let decided = self.decide(alloc, step)?;
        self.make_room_for(&decided)?;
        Ok(decided)
    }
}
