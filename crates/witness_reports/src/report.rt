//! What a witness said of each member in the end.

ghost use Rattle.std.specs.Prelude.{◌≡◌, ◌≤◌, IfOk, IfSome, IsTrue, option_map};
ghost use Rattle.std.specs.Arc.{arc_value};
ghost use Rattle.node_book.specs.Events.{event_in, question_in};
ghost use Rattle.node_book.specs.Replies.{indication_in, reply_in};
ghost use Rattle.node_book.specs.witness_spec.Events.{Ask, ItsChallenges, ItsEvidence, ItsIndication};
ghost use Rattle.node_book.specs.witness_spec.Replies.{EvidenceIs, Told};
ghost use Rattle.witness_reports.specs.Reports.{AreAnswers, EndsWith, ListsSoMany};

use authenticator::Member;
use node_book::{EventOf, Evidence, Indication, PlainEvent, PlainReply, Question, ReplyOf};
use std::alloc::{AllocError, Global};
use std::sync::Arc;
use witness_service::{Journal, Note};

/// What a witness said of a node in the end.
#[derive(Drop)]
pub struct NodeReport {
    /// The node's number.
    pub node: u32,
    /// Its failure indication.
    pub indication: Indication,
    /// How many challenges to it were open.
    pub challenges: usize,
    /// The evidence against it, if there was some.
    pub evidence: Option<Arc<Evidence>>,
}

/// What was said of each member in the last places of a journal, in the roster's order: those are the answers
/// to the three questions about each member, one member after the other. None where they aren't. `AllocError`
/// comes only where a growth was refused, or where owners of evidence can't be counted further.
pub fn final_reports(
    alloc: Global,
    journal: &Journal,
) -> Result<Option<Vec<NodeReport>>, AllocError>
    ensures { IfOk result (λ reports. IfSome reports (λ rs.
        EndsWith journal.now.books.roster journal.now.places rs.items)) }
{
    reports_of(alloc, journal.books().roster().members(), journal.places())
}

/// The same of the members and the places.
fn reports_of(
    alloc: Global,
    members: &[Member],
    places: &[Note],
) -> Result<Option<Vec<NodeReport>>, AllocError>
    ensures { IfOk result (λ reports. IfSome reports (λ rs. EndsWith members.now places.now rs.items)) }
{
    let start = start_of(members.len(), places.len());
    let mut rest = &places[start..];
    let mut reports = Vec::with_capacity(alloc, members.len())?;
    for member in members {
        if rest.len() < 3 {
            return Ok(None);
        }
        match report_of(member.node, &rest[..3])? {
            Some(report) => reports.push(report)?,
            None => return Ok(None),
        }
        rest = &rest[3..];
    }
    if rest.is_empty() {
        Ok(Some(reports))
    } else {
        Ok(None)
    }
}

/// Where the last places begin, three for each member: at the first place where there are fewer.
fn start_of(members: usize, places: usize) -> usize
    ensures { result ≤ places }
{
    places.saturating_sub(members.saturating_mul(3))
}

/// What three places say of a node, where they are the answers to the questions about it.
fn report_of(node: u32, places: &[Note]) -> Result<Option<NodeReport>, AllocError>
    ensures answers { IfOk result (λ report. IfSome report (λ r. AreAnswers r places.now)) }
    ensures node { IfOk result (λ report. IfSome report (λ r. r.node ≡ node)) }
{
    let [first, second, third] = places else {
        return Ok(None);
    };
    let Some(indication) = indication_told(first.event(), first.reply(), node) else {
        return Ok(None);
    };
    let Some(challenges) = challenges_told(second.event(), second.reply(), node) else {
        return Ok(None);
    };
    match evidence_told(third.event(), third.reply(), node)? {
        Some(evidence) => Ok(Some(NodeReport {
            node,
            indication,
            challenges,
            evidence,
        })),
        None => Ok(None),
    }
}

/// The failure indication of a node, where the event asks for it and the reply tells it.
fn indication_told(event: &PlainEvent, reply: &PlainReply, node: u32) -> Option<Indication>
    ensures { IfSome result (λ i. (event_in event.now ≡ Ask node ItsIndication)
        × (reply_in reply.now ≡ Told (indication_in i))) }
{
    if !asks(event, node, Question::Indication) {
        return None;
    }
    match reply {
        ReplyOf::Told(indication) => Some(*indication),
        _ => None,
    }
}

/// How many challenges to a node are open, where the event asks for them and the reply lists them.
fn challenges_told(event: &PlainEvent, reply: &PlainReply, node: u32) -> Option<usize>
    ensures { IfSome result (λ n. (event_in event.now ≡ Ask node ItsChallenges) × ListsSoMany n (reply_in reply.now)) }
{
    if !asks(event, node, Question::Challenges) {
        return None;
    }
    match reply {
        ReplyOf::OpenList(challenges) => Some(challenges.len()),
        _ => None,
    }
}

/// The evidence against a node, if there is some, where the event asks for it and the reply gives it.
fn evidence_told(
    event: &PlainEvent,
    reply: &PlainReply,
    node: u32,
) -> Result<Option<Option<Arc<Evidence>>>, AllocError>
    ensures { IfOk result (λ told. IfSome told (λ e. (event_in event.now ≡ Ask node ItsEvidence)
        × (reply_in reply.now ≡ EvidenceIs (option_map arc_value e)))) }
{
    if !asks(event, node, Question::Evidence) {
        return Ok(None);
    }
    match reply {
        ReplyOf::EvidenceIs(Some(evidence)) => Ok(Some(Some(Arc::try_clone(evidence)?))),
        ReplyOf::EvidenceIs(None) => Ok(Some(None)),
        _ => Ok(None),
    }
}

/// Whether the event asks this question about a node.
fn asks(event: &PlainEvent, node: u32, question: Question) -> bool
    ensures { IsTrue result → event_in event.now ≡ Ask node (question_in question) }
{
    match event {
        EventOf::Ask(asked, question_asked) => *asked == node && *question_asked == question,
        _ => false,
    }
}
