//! What was decided of a step is carried out: nothing here takes memory or is refused.

ghost use Rattle.std.specs.Prelude.{◌≡◌, ◌<◌, ◌-◌, ◌++◌, length, filter, nat_lt, option_map, Some};
ghost use Rattle.std.specs.Arc.{arc_value};
ghost use Rattle.std.specs.Vec.{vec_capacity};
ghost use Rattle.envelopes.specs.Acknowledgement.{acked_message};
ghost use Rattle.witness_book_laws.specs.Ready.{IsReady};
ghost use Rattle.witness_spec.specs.Pairs.{number_of};
ghost use Rattle.witness_book_laws.specs.Going.{after_learn, after_send_challenge, after_answer, after_ack};
ghost use Rattle.witness_book_laws.specs.Going.{after_audit, after_begin, after_file, after_put_back};
ghost use Rattle.witness_book_laws.specs.Going.{after_forward};
ghost use Rattle.witness_book_laws.specs.Going.{audited_with, book_after, first_evidence, having_filed};
ghost use Rattle.witness_spec.specs.Exposing.{replay_from};
ghost use Rattle.witness_spec.specs.Standing as standing;
ghost use Rattle.replay_jobs.specs.Jobs.{verdict_told};
ghost use Rattle.node_book.specs.Deciding.{DecidesLearn, DecidesChallenge, DecidesAnswer, DecidesAck};
ghost use Rattle.node_book.specs.Deciding.{DecidesAudit, DecidesBegin, DecidesReturn, DecidesForward};
ghost use Rattle.node_book.specs.Deciding.{Decides, HasRoomFor, HasRoomToAccept, HasRoomToAsk, HasRoomToFile};
ghost use Rattle.node_book.specs.Deciding.{HasRoomToLearn, HasRoomToOpen, reply_of};
ghost use Rattle.node_book.specs.Deciding.{learn_reply, challenge_reply, answer_reply, ack_reply};
ghost use Rattle.node_book.specs.Deciding.{audit_reply, begin_reply, file_reply, put_back_reply};
ghost use Rattle.node_book.specs.Deciding.{forward_reply, question_reply};
ghost use Rattle.node_book.specs.Events.{step_in};
ghost use Rattle.replay_jobs.specs.Jobs.{done_parts};
ghost use Rattle.node_book.specs.Outboxes.{HasPlace, outbox_in};
ghost use Rattle.node_book.specs.Replies.{reply_in};
ghost use Rattle.node_book.specs.Rows.{KeepsRows, book_in, segments_in, stage_in};

use crate::challenges::{close_answered, close_send};
use crate::decision::{
    AnswerDecision, AskDecision, AuditDecision, BeginDecision, ChallengeDecision, Decision,
    LearnDecision, ReturnDecision,
};
use crate::refusal::Refusal;
use crate::reply::{Reply, ReplyOf};
use crate::replying::{ack_reply, answer_reply, audit_reply, challenge_reply, learn_reply};
use crate::rows::{Exposure, Rows, Stage};
use crate::step::Step;
use authenticator::{Authenticator, LogVersion};
use challenge::{Challenge, Evidence, SharedState};
use envelopes::{Ack, Envelope};
use replay_jobs::{JobVerdict, ReplayDone, ReplayJob, SharedSegment};
use std::mem;
use std::sync::Arc;

impl Rows {
    /// Learns an authenticator.
    fn carry_learn(&mut self, authenticator: Authenticator, learning: LearnDecision) -> Reply
        requires decided { DecidesLearn (book_in self.old) authenticator learning }
        requires room { HasRoomToLearn self.old learning }
        requires keeps { KeepsRows self.old }
        ensures reply { result ≡ learn_reply learning }
        ensures after { book_in self.new ≡ after_learn (book_in self.old) authenticator (reply_in result) }
        ensures keeps { KeepsRows self.new }
    {
        let reply = learn_reply(&learning);
        match learning {
            LearnDecision::Known
            | LearnDecision::Below
            | LearnDecision::Full
            | LearnDecision::Ignored => {}
            LearnDecision::Noted(None) => self.learned.push_reserved(authenticator),
            LearnDecision::Noted(Some(evidence)) => self.exposure = Exposure::Fork(evidence),
        }
        reply
    }

    /// Opens a challenge with a message.
    fn carry_send_challenge(&mut self, envelope: Envelope, opening: ChallengeDecision) -> Reply
        requires decided { DecidesChallenge (book_in self.old) envelope opening }
        requires room { HasRoomToOpen self.old opening }
        requires keeps { KeepsRows self.old }
        ensures reply { result ≡ challenge_reply opening }
        ensures after { book_in self.new ≡ after_send_challenge (book_in self.old) envelope
            (reply_in result) }
        ensures keeps { KeepsRows self.new }
    {
        let reply = challenge_reply(&opening);
        if let ChallengeDecision::Opened = opening {
            self.challenges.push_reserved(Challenge::Send(envelope));
        }
        reply
    }

    /// Accepts a segment.
    fn carry_answer(&mut self, segment: SharedSegment, accepting: AnswerDecision) -> Reply
        requires decided { DecidesAnswer (book_in self.old) segment accepting }
        requires room { HasRoomToAccept self.old accepting }
        requires keeps { KeepsRows self.old }
        ensures reply { result ≡ answer_reply accepting }
        ensures after { book_in self.new ≡ after_answer (book_in self.old) segment (reply_in result) }
        ensures keeps { KeepsRows self.new }
    {
        let reply = answer_reply(&accepting);
        if let AnswerDecision::Accepted(share, evidence) = accepting {
            close_answered(&mut self.challenges, segment.closed().segment());
            self.expose(evidence);
            self.segments.push_reserved(segment);
            self.stage = Stage::Given(share);
        }
        reply
    }

    /// Closes the challenge that an acknowledgement answers.
    fn carry_ack(&mut self, ack: Ack, is_open: bool) -> Reply
        requires decided { DecidesAck (book_in self.old) ack is_open }
        requires keeps { KeepsRows self.old }
        ensures reply { result ≡ ack_reply is_open }
        ensures after { book_in self.new ≡ after_ack (book_in self.old) ack (reply_in result) }
        ensures keeps { KeepsRows self.new }
    {
        if is_open {
            close_send(&mut self.challenges, &ack.message());
        }
        ack_reply(is_open)
    }

    /// Asks for a segment.
    fn carry_audit(&mut self, asking: AuditDecision) -> Reply
        requires decided { DecidesAudit (book_in self.old) asking }
        requires room { HasRoomToAsk self.old asking }
        requires keeps { KeepsRows self.old }
        ensures reply { result ≡ audit_reply asking }
        ensures after { book_in self.new ≡ after_audit (book_in self.old) (reply_in result) }
        ensures keeps { KeepsRows self.new }
    {
        let reply = audit_reply(&asking);
        if let AuditDecision::Asked(first, last) = asking {
            self.stage = Stage::Wanted(first, last);
            self.challenges
                .push_reserved(Challenge::Audit { first, last });
        }
        reply
    }

    /// Hands a job out.
    fn carry_begin(&mut self, beginning: BeginDecision) -> Reply
        requires ready { IsReady (book_in self.old) }
        requires decided { DecidesBegin (book_in self.old) beginning }
        requires keeps { KeepsRows self.old }
        ensures reply { result ≡ begin_reply beginning }
        ensures after { book_in self.new ≡ after_begin (book_in self.old) (reply_in result) }
        ensures keeps { KeepsRows self.new }
    {
        match beginning {
            BeginDecision::Begun(job) => {
                match mem::replace(&mut self.stage, Stage::NoAudit) {
                    Stage::Given(segment) => self.stage = Stage::Out(segment),
                    stage => self.stage = stage,
                }
                self.begun = job.number();
                ReplyOf::Job(ReplayJob::new(job))
            }
            BeginDecision::Refused(refusal) => ReplyOf::Refused(refusal),
        }
    }

    /// Takes a job back.
    fn carry_put_back(&mut self, job: ReplayJob, coming: ReturnDecision) -> Reply
        requires decided { DecidesReturn (book_in self.old) job coming }
        requires keeps { KeepsRows self.old }
        ensures reply { result ≡ put_back_reply job coming }
        ensures after { book_in self.new ≡ after_put_back (book_in self.old) job (reply_in result) }
        ensures keeps { KeepsRows self.new }
    {
        match coming {
            ReturnDecision::NoJob => ReplyOf::PutBackRefused(Refusal::NoJob, job),
            ReturnDecision::Another => ReplyOf::PutBackRefused(Refusal::WrongJob, job),
            ReturnDecision::IsOut => {
                self.stage = Stage::Given(job.into_plain().into_segment());
                ReplyOf::Returned
            }
        }
    }

    /// Files a done value.
    fn carry_file(&mut self, done: ReplayDone, coming: ReturnDecision) -> Reply
        requires ready { IsReady (book_in self.old) }
        requires decided { DecidesReturn (book_in self.old) done coming }
        requires room { HasRoomToFile self.old coming }
        requires keeps { KeepsRows self.old }
        ensures reply { result ≡ file_reply done coming }
        ensures after { book_in self.new ≡
            after_file (book_in self.old) (done_parts done) (reply_in result) }
        ensures keeps { KeepsRows self.new }
    {
        match coming {
            ReturnDecision::NoJob => ReplyOf::FileRefused(Refusal::NoJob, done),
            ReturnDecision::Another => ReplyOf::FileRefused(Refusal::WrongJob, done),
            ReturnDecision::IsOut => {
                let (job, verdict) = done.into_plain().into_parts();
                self.file(job.into_segment(), verdict);
                ReplyOf::Filed
            }
        }
    }

    /// Files the verdict on the segment that is out.
    #[tactic(auto, using(crate::proofs::Faulted::sound_filed))]
    fn file(&mut self, segment: SharedSegment, verdict: JobVerdict)
        requires ready { IsReady (book_in self.old) }
        requires out { stage_in self.old.stage ≡ standing.Out segment }
        requires room { HasPlace self.old.outbox }
        requires keeps { KeepsRows self.old }
        ensures after { book_in self.new ≡
            having_filed (book_in self.old) segment.segment (verdict_told verdict) }
        ensures keeps { KeepsRows self.new }
    {
        match verdict {
            JobVerdict::Sound(state, found) => {
                let given = segment.closed().segment();
                let end = given.closing().word.number(given.log_version()).get();
                self.move_end(end, state, found);
            }
            JobVerdict::Fault(_, _) => {
                self.expose_by_replay(segment);
                self.stage = Stage::NoAudit;
            }
        }
    }

    /// The end moves to that of a segment that was found sound.
    fn move_end(&mut self, end: u64, state: SharedState, found: Arc<Vec<Authenticator>>)
        requires room { HasPlace self.old.outbox }
        ensures after { book_in self.new ≡ record (book_in self.old) {
          end = record { number = end; state = state };
          stage = standing.NoAudit;
          learned = filter (λ a. nat_lt end (number_of self.old.log_version a)) self.old.learned.items;
          outbox = outbox_in self.old.outbox ++ (arc_value found).items;
        } }
        ensures segments { self.new.segments ≡ self.old.segments }
        ensures exposure { self.new.exposure ≡ self.old.exposure }
    {
        self.end = end;
        self.state = state;
        self.stage = Stage::NoAudit;
        self.outbox.add(found);
        keep_above(self.log_version, &mut self.learned, end);
    }

    /// A replay found a fault in the segment that is out. The first evidence stays.
    fn expose_by_replay(&mut self, segment: SharedSegment)
        requires ready { IsReady (book_in self.old) }
        requires out { stage_in self.old.stage ≡ standing.Out segment }
        requires keeps { KeepsRows self.old }
        ensures after { book_in self.new ≡ record (book_in self.old) {
          evidence = first_evidence (book_in self.old).evidence (Some (record {
            node = self.old.node;
            charge = replay_from (book_in self.old).base (audited_with (book_in self.old) segment.segment);
          }));
        } }
        ensures keeps { KeepsRows self.new }
    {
        if let Exposure::Nothing = self.exposure {
            let before = all_but_one(&self.segments);
            self.exposure = Exposure::Replay(before, segment);
        }
    }

    /// Gives what is to be forwarded.
    fn carry_forward(&mut self, forwarding: Option<Authenticator>) -> Reply
        requires decided { DecidesForward (book_in self.old) forwarding }
        requires keeps { KeepsRows self.old }
        ensures reply { result ≡ forward_reply forwarding }
        ensures after { book_in self.new ≡ after_forward (book_in self.old) (reply_in result) }
        ensures keeps { KeepsRows self.new }
    {
        match forwarding {
            Some(authenticator) => {
                self.outbox.drop_first();
                ReplyOf::Forwarded(authenticator)
            }
            None => ReplyOf::Empty,
        }
    }

    /// Evidence of a fork exposes the node, if there is some. The first evidence stays.
    fn expose(&mut self, evidence: Option<Arc<Evidence>>)
        requires keeps { KeepsRows self.old }
        ensures after { book_in self.new ≡ record (book_in self.old) {
          evidence = first_evidence (book_in self.old).evidence (option_map arc_value evidence);
        } }
        ensures segments { self.new.segments ≡ self.old.segments }
        ensures keeps { KeepsRows self.new }
    {
        if let Exposure::Nothing = self.exposure {
            if let Some(evidence) = evidence {
                self.exposure = Exposure::Fork(evidence);
            }
        }
    }

    /// Does what was decided of a step, and replies.
    pub fn carry_out(&mut self, step: Step, decided: Decision) -> Reply
        requires ready { IsReady (book_in self.old) }
        requires decided { Decides (book_in self.old) step decided }
        requires room { HasRoomFor self.old decided }
        requires keeps { KeepsRows self.old }
        ensures reply { result ≡ reply_of step decided }
        ensures after { book_in self.new ≡ book_after (book_in self.old) (step_in step) (reply_in result) }
        ensures keeps { KeepsRows self.new }
    {
        match (step, decided) {
            (Step::Learn(authenticator), Decision::Learn(d)) => self.carry_learn(authenticator, d),
            (Step::SendChallenge(envelope), Decision::SendChallenge(d)) => {
                self.carry_send_challenge(envelope, d)
            }
            (Step::Answer(segment), Decision::Answer(d)) => self.carry_answer(segment, d),
            (Step::AckIn(ack), Decision::AckIn(d)) => self.carry_ack(ack, d),
            (Step::Audit, Decision::Audit(d)) => self.carry_audit(d),
            (Step::Begin, Decision::Begin(d)) => self.carry_begin(d),
            (Step::File(done), Decision::File(d)) => self.carry_file(done, d),
            (Step::PutBack(job), Decision::PutBack(d)) => self.carry_put_back(job, d),
            (Step::Forward, Decision::Forward(d)) => self.carry_forward(d),
            (Step::Ask(_), Decision::Ask(d)) => reply_to_question(d),
            // What was decided is always of the step's own kind.
            (_, _) => unreachable!(),
        }
    }
}

/// What is told.
fn reply_to_question(asked: AskDecision) -> Reply
    ensures { result ≡ question_reply asked }
{
    match asked {
        AskDecision::Told(indication) => ReplyOf::Told(indication),
        AskDecision::OpenList(challenges) => ReplyOf::OpenList(challenges),
        AskDecision::EvidenceIs(evidence) => ReplyOf::EvidenceIs(evidence),
    }
}

/// How many stand before the last segment.
fn all_but_one(segments: &[SharedSegment]) -> usize
    ensures { result ≡ length (segments_in segments.now) - 1 }
{
    segments.len().saturating_sub(1)
}

/// Lets go of the authenticators, of a log of this version, with numbers up to the end.
fn keep_above(version: LogVersion, learned: &mut Vec<Authenticator>, end: u64)
    ensures { learned.new.items ≡ filter (λ a. nat_lt end (number_of version a)) learned.old.items }
{
    learned.retain(|authenticator| end < authenticator.word.number(version).get());
}
