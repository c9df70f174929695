//! One member's book.

ghost use Rattle.std.specs.Prelude.{◌≡◌, IfOk};
ghost use Rattle.witness_book_laws.specs.Books.{book_starting};
ghost use Rattle.witness_book_laws.specs.Ready.{IsOfLog, IsReady};
ghost use Rattle.node_book.specs.Events.{step_in};
ghost use Rattle.node_book.specs.Replies.{refusal_in, reply_in};
ghost use Rattle.witness_spec.specs.Starting.{start_state};
ghost use Rattle.node_book.specs.Rows.{BaseIsOfLog, base_in};
ghost use Rattle.node_book.specs.Deciding.{reply_of};
ghost use Rattle.node_book.specs.Stepping.{NotedSteps, Steps, step_refused};

use crate::decision::Decision;
use crate::noted::note_of;
use crate::outbox::Outbox;
use crate::refusal::Refusal;
use crate::reply::{PlainReply, Reply, ReplyOf};
use crate::rows::{Exposure, Rows, Stage, start_number};
use crate::step::Step;
use authenticator::Member;
use challenge::{Base, SharedState, opening_state};
use std::alloc::{AllocError, Global};
use std::marker::Model;
use std::sync::Arc;

/// One member's book at a witness (PeerReview, SOSP 2007): what the witness keeps of the node.
#[derive(Drop)]
pub struct Book {
    rows: Rows,
}

impl Model for Book {
    ghost use Rattle.witness_book_laws.specs.Books.{Book};
    ghost use Rattle.node_book.specs.BookCodes.{book_code};
    ghost use Rattle.node_book.specs.Rows.{KeepsRows, book_in};

    ghost Value = { Book };

    ghost coded = { book_code };

    ghost view = { λ b. book_in b.rows };

    ghost invariant = { λ b. KeepsRows b.rows };
}

impl Step {
    /// The step is refused: a job or a done value comes back with the refusal.
    pub fn refuse(self, refusal: Refusal) -> Reply
        ensures { reply_in result ≡ step_refused (step_in self) (refusal_in refusal) }
    {
        match self {
            Step::File(done) => ReplyOf::FileRefused(refusal, done),
            Step::PutBack(job) => ReplyOf::PutBackRefused(refusal, job),
            Step::Learn(_)
            | Step::SendChallenge(_)
            | Step::Answer(_)
            | Step::AckIn(_)
            | Step::Audit
            | Step::Begin
            | Step::Forward
            | Step::Ask(_) => ReplyOf::Refused(refusal),
        }
    }
}

impl Book {
    /// A member's book before its first step. Without a base nothing is known of the node but the state that
    /// it begins with; with one the audit begins after the base's number, from its state, which is shared.
    /// Takes memory for the text of the state that a node begins with; `AllocError` comes only where a growth
    /// was refused.
    pub fn starting(
        alloc: Global,
        member: &Member,
        base: Option<Arc<Base>>,
    ) -> Result<Book, AllocError>
        requires { BaseIsOfLog (base_in base) member.now.log_version }
        ensures { IfOk result (λ b. b ≡ book_starting member.now (base_in base)) }
    {
        let state = start_state(alloc, member, &base)?;
        let end = start_number(&base);
        let rows = Rows {
            node: member.node,
            log_version: member.log_version,
            base,
            end,
            state,
            stage: Stage::NoAudit,
            begun: 0,
            learned: Vec::new(alloc),
            segments: Vec::new(alloc),
            challenges: Vec::new(alloc),
            outbox: Outbox::new(alloc),
            exposure: Exposure::Nothing,
        };
        Ok(Book { rows })
    }

    /// The node whose book it is.
    pub fn node(&self) -> u32
        ensures { result ≡ self.now.node }
    {
        self.rows.node
    }

    /// One step: the reply is the one that the book owes, and the book goes on with it. Where memory was
    /// refused the reply is `NoMemory`, a job or a done value comes back, and the book is as before; a job
    /// that is put back, an acknowledgement and a question for the indication take none. So is the book
    /// after any other refusal. A segment that is handed in is of the version of the node's log: packets are
    /// read so.
    pub fn step(&mut self, alloc: Global, step: Step) -> Reply
        requires ready { IsReady self.old }
        requires of_log { IsOfLog self.old.log_version (step_in step) }
        ensures { Steps self.old (step_in step) (reply_in result) self.new }
    {
        match self.rows.prepare(alloc, &step) {
            Ok(decided) => self.rows.carry_out(step, decided),
            Err(AllocError) => step.refuse(Refusal::NoMemory),
        }
    }

    /// One step, with two notes of its reply, made before anything changes. There are none where memory was
    /// refused, for the step or for the notes: the reply is `NoMemory`, and the book is as before.
    pub fn noted_step(
        &mut self,
        alloc: Global,
        step: Step,
    ) -> (Reply, Option<(PlainReply, PlainReply)>)
        requires ready { IsReady self.old }
        requires of_log { IsOfLog self.old.log_version (step_in step) }
        ensures { NotedSteps self.old (step_in step) result.0 result.1 self.new }
    {
        let Ok(decided) = self.rows.prepare(alloc, &step) else {
            return (step.refuse(Refusal::NoMemory), None);
        };
        match two_notes(alloc, &step, &decided) {
            Ok(notes) => (self.rows.carry_out(step, decided), Some(notes)),
            Err(AllocError) => (step.refuse(Refusal::NoMemory), None),
        }
    }
}

/// The state where an audit begins: that of the base, which is shared, or that with which a node begins.
fn start_state(
    alloc: Global,
    member: &Member,
    base: &Option<Arc<Base>>,
) -> Result<SharedState, AllocError>
    ensures { IfOk result (λ s. s ≡ start_state member.now (base_in base.now)) }
{
    match base {
        Some(base) => base.state().try_clone(),
        None => SharedState::new(alloc, &opening_state(alloc, member)?),
    }
}

/// Two notes of the reply to a step of which this was decided.
fn two_notes(
    alloc: Global,
    step: &Step,
    decided: &Decision,
) -> Result<(PlainReply, PlainReply), AllocError>
    ensures { IfOk result (λ notes. (reply_in notes.0 ≡ reply_in (reply_of step.now decided.now))
        × (reply_in notes.1 ≡ reply_in (reply_of step.now decided.now))) }
{
    let first = note_of(alloc, step, decided)?;
    match note_of(alloc, step, decided) {
        Ok(second) => Ok((first, second)),
        Err(refused) => Err(refused),
    }
}
