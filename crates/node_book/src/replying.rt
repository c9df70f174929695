//! The reply that follows from what was decided of a step. It is the same for a reply and for a note of it.

ghost use Rattle.std.specs.Prelude.{◌≡◌};
ghost use Rattle.node_book.specs.Deciding.{ack_reply, answer_reply, audit_reply, challenge_reply};
ghost use Rattle.node_book.specs.Deciding.{learn_reply};

use crate::decision::{AnswerDecision, AuditDecision, ChallengeDecision, LearnDecision};
use crate::refusal::Refusal;
use crate::reply::ReplyOf;

/// To an authenticator that is to be learned.
pub(crate) fn learn_reply<J, D>(decision: &LearnDecision) -> ReplyOf<J, D>
    ensures { result ≡ learn_reply decision.now }
{
    match decision {
        LearnDecision::Below => ReplyOf::Refused(Refusal::BelowBase),
        LearnDecision::Known => ReplyOf::Already,
        LearnDecision::Full => ReplyOf::Refused(Refusal::LearnedFull),
        LearnDecision::Ignored | LearnDecision::Noted(_) => ReplyOf::Noted,
    }
}

/// To a challenge with a message.
pub(crate) fn challenge_reply<J, D>(decision: &ChallengeDecision) -> ReplyOf<J, D>
    ensures { result ≡ challenge_reply decision.now }
{
    match decision {
        ChallengeDecision::Known => ReplyOf::Already,
        ChallengeDecision::Full => ReplyOf::Refused(Refusal::ChallengesFull),
        ChallengeDecision::Opened => ReplyOf::Opened,
    }
}

/// To a segment.
pub(crate) fn answer_reply<J, D>(decision: &AnswerDecision) -> ReplyOf<J, D>
    ensures { result ≡ answer_reply decision.now }
{
    match decision {
        AnswerDecision::NotAsked => ReplyOf::Refused(Refusal::NotAsked),
        AnswerDecision::Accepted(_, _) => ReplyOf::Accepted,
    }
}

/// To an acknowledgement, by whether its challenge is open.
pub(crate) fn ack_reply<J, D>(is_open: bool) -> ReplyOf<J, D>
    ensures { result ≡ ack_reply is_open }
{
    if is_open {
        ReplyOf::Closed
    } else {
        ReplyOf::Refused(Refusal::NotAsked)
    }
}

/// To an audit.
pub(crate) fn audit_reply<J, D>(decision: &AuditDecision) -> ReplyOf<J, D>
    ensures { result ≡ audit_reply decision.now }
{
    match decision {
        AuditDecision::Asked(first, last) => ReplyOf::Asked {
            first: *first,
            last: *last,
        },
        AuditDecision::Refused(refusal) => ReplyOf::Refused(*refusal),
    }
}
