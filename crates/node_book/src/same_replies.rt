//! Whether two replies are the same, by their plain words.

ghost use Rattle.std.specs.Prelude.{◌≡◌, ◌↔◌, IsTrue, map, option_map};
ghost use Rattle.std.specs.Arc.{arc_value};
ghost use Rattle.witness_spec.specs.Replies.{Asked, EvidenceIs, FileRefused, Forwarded, Job, OpenList};
ghost use Rattle.witness_spec.specs.Replies.{PutBackRefused, Refused, Told};
ghost use Rattle.replay_jobs.specs.Jobs.{done_parts};
ghost use Rattle.node_book.specs.Replies.{challenge_in, indication_in, refusal_in, reply_in};

use crate::refusal::Refusal;
use crate::reply::{Indication, PlainReply, ReplyOf};
use crate::same_challenges::are_same_challenges;
use authenticator::{Authenticator, Number, Signs};
use challenge::{Challenge, Evidence};
use replay_jobs::{PlainDone, PlainJob};
use std::sync::Arc;

impl ReplyOf<PlainJob, PlainDone> {
    /// Whether another says the same reply: of the same kind, and the same in every part. It compares bytes,
    /// and takes no memory.
    pub fn is_same(&self, other: &PlainReply) -> bool
        ensures { IsTrue result ↔ (reply_in self.now ≡ reply_in other.now) }
    {
        match self {
            ReplyOf::Noted => matches!(other, ReplyOf::Noted),
            ReplyOf::Already => matches!(other, ReplyOf::Already),
            ReplyOf::Opened => matches!(other, ReplyOf::Opened),
            ReplyOf::Accepted => matches!(other, ReplyOf::Accepted),
            ReplyOf::Closed => matches!(other, ReplyOf::Closed),
            ReplyOf::Asked { first, last } => is_asked(other, *first, *last),
            ReplyOf::Job(job) => is_job(other, job),
            ReplyOf::Filed => matches!(other, ReplyOf::Filed),
            ReplyOf::Returned => matches!(other, ReplyOf::Returned),
            ReplyOf::Forwarded(authenticator) => is_forwarded(other, authenticator),
            ReplyOf::Empty => matches!(other, ReplyOf::Empty),
            ReplyOf::Told(indication) => is_told(other, *indication),
            ReplyOf::OpenList(challenges) => is_open_list(other, challenges),
            ReplyOf::EvidenceIs(evidence) => is_evidence(other, evidence),
            ReplyOf::Refused(refusal) => is_refused(other, *refusal),
            ReplyOf::FileRefused(refusal, done) => is_file_refused(other, *refusal, done),
            ReplyOf::PutBackRefused(refusal, job) => is_put_back_refused(other, *refusal, job),
        }
    }
}

/// Whether two indications are the same.
fn is_same_indication(own: Indication, other: Indication) -> bool
    ensures { IsTrue result ↔ (indication_in own ≡ indication_in other) }
{
    match own {
        Indication::Trusted => matches!(other, Indication::Trusted),
        Indication::Suspected => matches!(other, Indication::Suspected),
        Indication::Exposed => matches!(other, Indication::Exposed),
    }
}

/// Whether two refusals are the same.
#[tactic(auto, using(crate::proofs::SameReplies::refusal_of_number))]
fn is_same_refusal(own: Refusal, other: Refusal) -> bool
    ensures { IsTrue result ↔ (refusal_in own ≡ refusal_in other) }
{
    own.number() == other.number()
}

/// Whether evidence is the same, or there is none on both sides.
fn is_same_evidence(own: &Option<Arc<Evidence>>, other: &Option<Arc<Evidence>>) -> bool
    ensures { IsTrue result ↔ (option_map arc_value own.now ≡ option_map arc_value other.now) }
{
    match (own, other) {
        (Some(own), Some(other)) => own.is_same(other),
        (None, None) => true,
        _ => false,
    }
}

/// Whether the reply is that the node is asked for these numbers.
fn is_asked(reply: &PlainReply, first: Number, last: Number) -> bool
    ensures { IsTrue result ↔ (Asked first last ≡ reply_in reply.now) }
{
    match reply {
        ReplyOf::Asked {
            first: from,
            last: to,
        } => first == *from && last == *to,
        _ => false,
    }
}

/// Whether the reply is this job.
fn is_job(reply: &PlainReply, job: &PlainJob) -> bool
    ensures { IsTrue result ↔ (Job job.now ≡ reply_in reply.now) }
{
    match reply {
        ReplyOf::Job(other) => job.is_same(other),
        _ => false,
    }
}

/// Whether the reply is that this authenticator is to be forwarded.
fn is_forwarded(reply: &PlainReply, authenticator: &Authenticator) -> bool
    ensures { IsTrue result ↔ (Forwarded authenticator.now ≡ reply_in reply.now) }
{
    match reply {
        ReplyOf::Forwarded(other) => authenticator.is_same(other),
        _ => false,
    }
}

/// Whether the reply tells this.
fn is_told(reply: &PlainReply, indication: Indication) -> bool
    ensures { IsTrue result ↔ (Told (indication_in indication) ≡ reply_in reply.now) }
{
    match reply {
        ReplyOf::Told(other) => is_same_indication(indication, *other),
        _ => false,
    }
}

/// Whether the reply is that these challenges are open.
#[tactic(auto, using(crate::proofs::SameReplies::challenges_same))]
fn is_open_list(reply: &PlainReply, challenges: &[Challenge]) -> bool
    ensures { IsTrue result ↔ (OpenList (map challenge_in challenges.now) ≡ reply_in reply.now) }
{
    match reply {
        ReplyOf::OpenList(others) => are_same_challenges(challenges, others),
        _ => false,
    }
}

/// Whether the reply is this evidence, or that there is none.
fn is_evidence(reply: &PlainReply, evidence: &Option<Arc<Evidence>>) -> bool
    ensures { IsTrue result ↔ (EvidenceIs (option_map arc_value evidence.now) ≡ reply_in reply.now) }
{
    match reply {
        ReplyOf::EvidenceIs(other) => is_same_evidence(evidence, other),
        _ => false,
    }
}

/// Whether the reply is this refusal.
fn is_refused(reply: &PlainReply, refusal: Refusal) -> bool
    ensures { IsTrue result ↔ (Refused (refusal_in refusal) ≡ reply_in reply.now) }
{
    match reply {
        ReplyOf::Refused(other) => is_same_refusal(refusal, *other),
        _ => false,
    }
}

/// Whether the reply is that this done value is refused so.
fn is_file_refused(reply: &PlainReply, refusal: Refusal, done: &PlainDone) -> bool
    ensures { IsTrue result ↔
        (FileRefused (refusal_in refusal) (done_parts done.now) ≡ reply_in reply.now) }
{
    match reply {
        ReplyOf::FileRefused(other, value) => is_same_refusal(refusal, *other)
            && done.is_same(value),
        _ => false,
    }
}

/// Whether the reply is that this job is refused so.
fn is_put_back_refused(reply: &PlainReply, refusal: Refusal, job: &PlainJob) -> bool
    ensures { IsTrue result ↔ (PutBackRefused (refusal_in refusal) job.now ≡ reply_in reply.now) }
{
    match reply {
        ReplyOf::PutBackRefused(other, value) => is_same_refusal(refusal, *other)
            && job.is_same(value),
        _ => false,
    }
}
