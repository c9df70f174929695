//! What a step is to do is decided: nothing changes here.

ghost use Rattle.std.specs.Prelude.{◌≡◌, ◌↔◌, ◌+◌, ◌<◌, ◌≤◌, ◌&&◌, false, nat_le, nat_lt, IfErr, IfOk, IsTrue};
ghost use Rattle.std.specs.Prelude.{length, option_map, MatchBool};
ghost use Rattle.std.specs.Arc.{arc_value};
ghost use Rattle.witness_spec.specs.Limits as limits;
ghost use Rattle.witness_spec.specs.Owing as owing;
ghost use Rattle.witness_spec.specs.Owing.{ask_reply};
ghost use Rattle.witness_spec.specs.Steps as steps;
ghost use Rattle.witness_book_laws.specs.Books.{book_indication, exposed, job_of};
ghost use Rattle.witness_book_laws.specs.Ready.{IsOfLog, IsReady};
ghost use Rattle.witness_spec.specs.Pairs.{number_of};
ghost use Rattle.witness_spec.specs.Starting.{is_below, start_number};
ghost use Rattle.witness_spec.specs.Refusals as refusals;
ghost use Rattle.witness_spec.specs.Replies as spec;
ghost use Rattle.witness_book_laws.specs.Going.{evidence_accepted, first_evidence};
ghost use Rattle.witness_book_laws.specs.Replying.{BookOwes, reply_to_answer, reply_to_begin};
ghost use Rattle.witness_book_laws.specs.Replying.{reply_to_forward};
ghost use Rattle.witness_book_laws.specs.Replying.{reply_to_learn};
ghost use Rattle.node_book.specs.Deciding.{DecidesLearn, DecidesChallenge, DecidesAnswer, DecidesAck};
ghost use Rattle.node_book.specs.Deciding.{DecidesAudit, DecidesBegin, DecidesReturn, DecidesForward};
ghost use Rattle.node_book.specs.Deciding.{Decides, DecidesAsk, audit_reply, reply_of};
ghost use Rattle.node_book.specs.Events.{question_in, step_in};
ghost use Rattle.node_book.specs.Replies.{indication_in, reply_in};
ghost use Rattle.node_book.specs.Rows.{BaseIsOfLog, KeepsRows, base_in, book_in};
ghost use Rattle.node_book.specs.Stepping.{MayRunOut, StepMayWant, is_refusal_or_already};

use crate::challenges::{copies_of, count_sends, is_open};
use crate::decision::{
    AnswerDecision, AskDecision, AuditDecision, BeginDecision, ChallengeDecision, Decision,
    LearnDecision, ReturnDecision,
};
use crate::event::Question;
use crate::looking::ShownHash;
use crate::refusal::Refusal;
use crate::replayed::replayed_evidence;
use crate::reply::Indication;
use crate::rows::{Exposure, Rows, Stage, start_number};
use crate::step::Step;
use authenticator::{Authenticator, LogVersion, Number, Signs};
use challenge::{Challenge, Evidence};
use envelopes::{Ack, Envelope};
use evidence_spec::MAX_AUDITED;
use replay_jobs::{PlainJob, SharedSegment};
use secure_log::MAX_ENTRIES;
use std::alloc::{AllocError, Global};
use std::cmp::max;
use std::sync::Arc;

/// The most authenticators that are kept of a node.
pub const MAX_LEARNED: usize = 256;

/// The most challenges with messages that are open to a node.
pub const MAX_CHALLENGES: usize = 16;

/// The most authenticators that wait to be forwarded.
pub const MAX_OUTBOX: u64 = 4096;

impl Rows {
    /// Whether the node is exposed.
    fn is_exposed(&self) -> bool
        ensures { result ≡ exposed (book_in self.now) }
    {
        match &self.exposure {
            Exposure::Nothing => false,
            Exposure::Fork(_) | Exposure::Replay(_, _) => true,
        }
    }

    /// Of an authenticator. A number below the base comes before a known pair, and that before a lack of room.
    fn decide_learn(
        &self,
        alloc: Global,
        authenticator: &Authenticator,
    ) -> Result<LearnDecision, AllocError>
        requires ready { IsReady (book_in self.now) }
        requires base { BaseIsOfLog (base_in self.now.base) self.now.log_version }
        ensures ok { IfOk result (DecidesLearn (book_in self.now) authenticator.now) }
        ensures err { IfErr result (λ _. reply_to_learn (book_in self.now) authenticator.now ≡ spec.Noted) }
    {
        if self.is_exposed() {
            return Ok(LearnDecision::Ignored);
        }
        if self.is_below(authenticator) {
            return Ok(LearnDecision::Below);
        }
        match self.knows(authenticator) {
            ShownHash::Same => Ok(LearnDecision::Known),
            ShownHash::Another => {
                let evidence = self.fork_by_authenticator(alloc, authenticator)?;
                Ok(LearnDecision::Noted(shared(alloc, evidence)?))
            }
            ShownHash::Nothing if self.has_no_room(authenticator) => Ok(LearnDecision::Full),
            ShownHash::Nothing => Ok(LearnDecision::Noted(None)),
        }
    }

    /// Whether an authenticator's number lies below all that the base shows.
    fn is_below(&self, authenticator: &Authenticator) -> bool
        ensures { result ≡ is_below (base_in self.now.base)
            (number_of self.now.log_version authenticator.now) }
    {
        match &self.base {
            Some(base) => {
                let number = authenticator.word.number(self.log_version);
                number.get() < base.showing().first().saturating_sub(1)
            }
            None => false,
        }
    }

    /// Whether an authenticator lies above the end, and as many are kept as may be.
    fn has_no_room(&self, authenticator: &Authenticator) -> bool
        ensures { result ≡ (nat_lt self.now.end (number_of self.now.log_version authenticator.now)
            && nat_le limits.MAX_LEARNED (length self.now.learned.items)) }
    {
        self.end < authenticator.word.number(self.log_version).get()
            && MAX_LEARNED <= self.learned.len()
    }

    /// Of a challenge with a message. An open one comes before a lack of room.
    fn decide_send_challenge(&self, envelope: &Envelope) -> ChallengeDecision
        ensures { DecidesChallenge (book_in self.now) envelope.now result }
    {
        if is_open(&envelope.message(), &self.challenges) {
            return ChallengeDecision::Known;
        }
        if MAX_CHALLENGES <= count_sends(&self.challenges) {
            return ChallengeDecision::Full;
        }
        ChallengeDecision::Opened
    }

    /// Of a segment.
    fn decide_answer(
        &self,
        alloc: Global,
        segment: &SharedSegment,
    ) -> Result<AnswerDecision, AllocError>
        requires ready { IsReady (book_in self.now) }
        requires base { BaseIsOfLog (base_in self.now.base) self.now.log_version }
        requires of_log { segment.now.segment.log_version ≡ self.now.log_version }
        ensures ok { IfOk result (DecidesAnswer (book_in self.now) segment.now) }
        ensures err { IfErr result (λ _. reply_to_answer (book_in self.now) segment.now ≡ spec.Accepted) }
    {
        if !self.is_asked(segment) {
            return Ok(AnswerDecision::NotAsked);
        }
        let share = segment.try_clone()?;
        match self.evidence_in(alloc, segment) {
            Ok(evidence) => Ok(AnswerDecision::Accepted(share, evidence)),
            Err(refused) => Err(refused),
        }
    }

    /// Whether a segment is the one that is asked for.
    fn is_asked(&self, segment: &SharedSegment) -> bool
        ensures { MatchBool result
            (reply_to_answer (book_in self.now) segment.now ≡ spec.Accepted)
            (reply_to_answer (book_in self.now) segment.now ≡ spec.Refused refusals.NotAsked) }
    {
        let Stage::Wanted(first, last) = &self.stage else {
            return false;
        };
        let given = segment.closed().segment();
        given.first() == *first && given.closing().word.number(given.log_version()) == *last
    }

    /// What a segment that is asked for exposes: nothing where the node is exposed already.
    fn evidence_in(
        &self,
        alloc: Global,
        segment: &SharedSegment,
    ) -> Result<Option<Arc<Evidence>>, AllocError>
        requires ready { IsReady (book_in self.now) }
        requires base { BaseIsOfLog (base_in self.now.base) self.now.log_version }
        requires of_log { segment.now.segment.log_version ≡ self.now.log_version }
        requires asked { reply_to_answer (book_in self.now) segment.now ≡ spec.Accepted }
        ensures { IfOk result (λ e. evidence_accepted (book_in self.now) segment.now.segment
            ≡ first_evidence (book_in self.now).evidence (option_map arc_value e)) }
    {
        if self.is_exposed() {
            return Ok(None);
        }
        let evidence = self.fork_by_segment(alloc, segment)?;
        shared(alloc, evidence)
    }

    /// Of an acknowledgement: whether its challenge is open.
    fn decide_ack(&self, ack: &Ack) -> bool
        ensures { DecidesAck (book_in self.now) ack.now result }
    {
        is_open(&ack.message(), &self.challenges)
    }

    /// Of an audit.
    fn decide_audit(&self) -> AuditDecision
        requires { IsReady (book_in self.now) }
        ensures { DecidesAudit (book_in self.now) result }
    {
        match &self.stage {
            Stage::NoAudit => self.decide_asking(),
            Stage::Wanted(_, _) | Stage::Given(_) | Stage::Out(_) => AuditDecision::Refused(
                Refusal::Busy,
            ),
        }
    }

    /// Of an audit where none is under way.
    #[tactic(auto, using(crate::proofs::Reaching::above_end, crate::proofs::Reaching::book_full))]
    fn decide_asking(&self) -> AuditDecision
        requires { IsReady (book_in self.now) }
        ensures { reply_in (audit_reply result) ≡ ask_reply self.now.log_version (exposed (book_in self.now))
            (start_number (base_in self.now.base)) self.now.end (length (book_in self.now).outbox)
            self.now.learned.items }
    {
        if self.is_exposed() || self.learned.is_empty() {
            return AuditDecision::Refused(Refusal::NothingToAudit);
        }
        let last = last_in_reach(self.log_version, self.end, &self.learned);
        if last == 0 {
            return AuditDecision::Refused(Refusal::TooFar);
        }
        if u64::from(MAX_AUDITED) < last.saturating_sub(start_number(&self.base)) {
            return AuditDecision::Refused(Refusal::BookFull);
        }
        if self.has_no_room_for(last.saturating_sub(self.end)) {
            return AuditDecision::Refused(Refusal::OutboxFull);
        }
        AuditDecision::Asked(Number::new(self.end + 1), Number::new(last))
    }

    /// Whether the outbox has no room for as many authenticators more.
    fn has_no_room_for(&self, more: u64) -> bool
        requires { length (book_in self.now).outbox ≤ limits.MAX_OUTBOX }
        ensures { result ≡ nat_lt limits.MAX_OUTBOX (length (book_in self.now).outbox + more) }
    {
        let waiting = self.outbox.len() as u64;
        MAX_OUTBOX - waiting < more
    }

    /// Of a job that is to begin. `AllocError` comes only where owners can't be counted further, or after as
    /// many jobs as 64 bits count.
    fn decide_begin(&self) -> Result<BeginDecision, AllocError>
        ensures ok { IfOk result (DecidesBegin (book_in self.now)) }
        ensures err { IfErr result
            (λ _. is_refusal_or_already (reply_to_begin (book_in self.now) (book_in self.now).stage) ≡ false) }
    {
        match &self.stage {
            Stage::Given(_) if self.is_exposed() => Ok(BeginDecision::Refused(
                Refusal::NothingToAudit,
            )),
            Stage::Given(segment) => Ok(BeginDecision::Begun(self.next_job(segment)?)),
            Stage::Out(_) => Ok(BeginDecision::Refused(Refusal::Busy)),
            Stage::NoAudit | Stage::Wanted(_, _) => {
                Ok(BeginDecision::Refused(Refusal::NothingToAudit))
            }
        }
    }

    /// The next job, of a segment.
    fn next_job(&self, segment: &SharedSegment) -> Result<PlainJob, AllocError>
        ensures { IfOk result (λ j. j ≡ job_of (book_in self.now) (self.now.begun + 1) segment.now) }
    {
        let Some(number) = self.begun.checked_add(1) else {
            return Err(AllocError);
        };
        let state = self.state.try_clone()?;
        let segment = segment.try_clone()?;
        Ok(PlainJob::new(self.node, number, state, segment))
    }

    /// Of a job that comes back: whether it is the one that is out. Takes no memory.
    fn decide_coming(&self, job: &PlainJob) -> ReturnDecision
        ensures { DecidesReturn (book_in self.now) job.now result }
    {
        let Stage::Out(segment) = &self.stage else {
            return ReturnDecision::NoJob;
        };
        if self.is_job(segment, job) {
            ReturnDecision::IsOut
        } else {
            ReturnDecision::Another
        }
    }

    /// Whether a job is that of a segment, with the last number. Takes no memory.
    fn is_job(&self, segment: &SharedSegment, job: &PlainJob) -> bool
        ensures { IsTrue result ↔ (job_of (book_in self.now) self.now.begun segment.now ≡ job.now) }
    {
        job.node() == self.node
            && job.number() == self.begun
            && job.state().is_same(&self.state)
            && job.segment().is_same(segment)
    }

    /// Of what is to be forwarded: a copy of the oldest.
    fn decide_forward(&self, alloc: Global) -> Result<Option<Authenticator>, AllocError>
        ensures ok { IfOk result (DecidesForward (book_in self.now)) }
        ensures err { IfErr result
            (λ _. is_refusal_or_already (reply_to_forward (book_in self.now)) ≡ false) }
    {
        match self.outbox.first() {
            Some(authenticator) => Ok(Some(authenticator.try_clone(alloc)?)),
            None => Ok(None),
        }
    }

    /// What is said of the node.
    fn indication(&self) -> Indication
        ensures { indication_in result ≡ book_indication (book_in self.now) }
    {
        if self.is_exposed() {
            Indication::Exposed
        } else if self.challenges.is_empty() {
            Indication::Trusted
        } else {
            Indication::Suspected
        }
    }

    /// The evidence against the node, if it is exposed: shared, or made of the accepted segments.
    fn evidence(&self, alloc: Global) -> Result<Option<Arc<Evidence>>, AllocError>
        requires { KeepsRows self.now }
        ensures { IfOk result (λ e. option_map arc_value e ≡ (book_in self.now).evidence) }
    {
        match &self.exposure {
            Exposure::Nothing => Ok(None),
            Exposure::Fork(evidence) => Ok(Some(Arc::try_clone(evidence)?)),
            Exposure::Replay(before, faulty) => {
                let evidence = replayed_evidence(
                    alloc,
                    &self.base,
                    self.log_version,
                    self.node,
                    &self.segments,
                    *before,
                    faulty,
                )?;
                shared(alloc, Some(evidence))
            }
        }
    }

    /// Of a question. That for the indication takes no memory.
    fn decide_ask(&self, alloc: Global, question: Question) -> Result<AskDecision, AllocError>
        requires { KeepsRows self.now }
        ensures ok { IfOk result (DecidesAsk (book_in self.now) question) }
        ensures err { IfErr result (λ _. StepMayWant (steps.Ask (question_in question))) }
    {
        match question {
            Question::Indication => Ok(AskDecision::Told(self.indication())),
            Question::Challenges => Ok(AskDecision::OpenList(copies_of(alloc, &self.challenges)?)),
            Question::Evidence => Ok(AskDecision::EvidenceIs(self.evidence(alloc)?)),
        }
    }

    /// Of a step. `AllocError` comes only where memory was refused, and never where what is owed is a refusal
    /// or `Already`, nor for a job that is put back, an acknowledgement or a question for the indication.
    pub fn decide(&self, alloc: Global, step: &Step) -> Result<Decision, AllocError>
        requires ready { IsReady (book_in self.now) }
        requires of_log { IsOfLog self.now.log_version (step_in step.now) }
        requires keeps { KeepsRows self.now }
        ensures ok { IfOk result (Decides (book_in self.now) step.now) }
        ensures owes { IfOk result
            (λ d. BookOwes (book_in self.now) (step_in step.now) (reply_in (reply_of step.now d))) }
        ensures err { IfErr result (λ _. MayRunOut (book_in self.now) (step_in step.now)) }
    {
        match step {
            Step::Learn(a) => Ok(Decision::Learn(self.decide_learn(alloc, a)?)),
            Step::SendChallenge(e) => Ok(Decision::SendChallenge(self.decide_send_challenge(e))),
            Step::Answer(segment) => Ok(Decision::Answer(self.decide_answer(alloc, segment)?)),
            Step::AckIn(ack) => Ok(Decision::AckIn(self.decide_ack(ack))),
            Step::Audit => Ok(Decision::Audit(self.decide_audit())),
            Step::Begin => Ok(Decision::Begin(self.decide_begin()?)),
            Step::File(done) => Ok(Decision::File(self.decide_coming(done.plain().job()))),
            Step::PutBack(job) => Ok(Decision::PutBack(self.decide_coming(job.plain()))),
            Step::Forward => Ok(Decision::Forward(self.decide_forward(alloc)?)),
            Step::Ask(question) => Ok(Decision::Ask(self.decide_ask(alloc, *question)?)),
        }
    }
}

/// Evidence to be shared, if there is some.
fn shared(alloc: Global, evidence: Option<Evidence>) -> Result<Option<Arc<Evidence>>, AllocError>
    ensures { IfOk result (λ e. option_map arc_value e ≡ evidence) }
{
    match evidence {
        Some(evidence) => match share_of(alloc, evidence) {
            Ok(share) => Ok(Some(share)),
            Err(refused) => Err(refused),
        },
        None => Ok(None),
    }
}

/// A value to be shared. `AllocError` comes only where a growth was refused.
fn share_of<T: Drop>(alloc: Global, value: T) -> Result<Arc<T>, AllocError>
    ensures { IfOk result (λ share. arc_value share ≡ value) }
{
    match Arc::new(alloc, value) {
        Ok(share) => Ok(share),
        Err(_) => Err(AllocError),
    }
}

/// The greatest number among those that an audit after the end can reach; 0 if there is none.
#[tactic(auto, using(crate::proofs::Reaching::reach_more))]
fn last_in_reach(version: LogVersion, end: u64, learned: &[Authenticator]) -> u64
    ensures last { result ≡ owing.last_in_reach version end learned.now }
    ensures low { result < 18446744073709551615 }
{
    let mut last = 0;
    for authenticator in learned {
        let number = authenticator.word.number(version).get();
        if number.saturating_sub(end) <= u64::from(MAX_ENTRIES) {
            last = max(last, number);
        }
    }
    last
}
