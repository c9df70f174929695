//! What is found in evidence.

ghost use Rattle.std.specs.Prelude.{◌≡◌, ◌↔◌, IfErr, IfNone, IfOk, IfSome, IsTrue, None, Some, length};
ghost use Rattle.secure_log.specs.LogEntries.Chain.{zeros};
ghost use Rattle.evidence_showings.specs.evidence_spec.Evidence.{Accepts};
ghost use Rattle.challenge.specs.Findings.{Finds, FindsInFork, FindsInLog, LogLacks, ShowingLacks};
ghost use Rattle.challenge.specs.Findings.{IsAudited, IsClosedOf, IsFromStart, IsMark, OneFinding};
ghost use Rattle.challenge.specs.Findings.{finding_in, is_accepted};

use crate::evidence::{AuditedLog, Charge, Evidence, Fork};
use crate::find_based::find_in_based;
use crate::finding::{Finding, NotAccepted};
use authenticator::{LogVersion, Member, Number, Roster, is_same_hash, is_signed_by};
use evidence_showings::{Mark, Showing, is_signed_in};
use replay::{Outcome, a_text_has_one_state, opening_state, replay_outcome};
use std::alloc::{AllocError, Global};

/// What is found in evidence under a roster: with what it is accepted, or the first that it lacks. Closings
/// are looked at before a log is replayed. `AllocError` comes only where a growth was refused.
pub fn examine(alloc: Global, roster: &Roster, evidence: &Evidence) -> Result<Finding, AllocError>
    ensures finds { IfOk result (λ finding. Finds roster.now evidence.now finding) }
    ensures exact { IfOk result
        (λ finding. IsTrue (is_accepted finding) ↔ Accepts roster.now evidence.now) }
{
    finding_of(alloc, roster, evidence)
}

/// Evidence has one finding at most: does nothing, and tells a caller's proof.
pub fn one_finding()
    ensures { OneFinding }
{
    a_text_has_one_state();
}

/// As `examine`, with the first clause alone.
fn finding_of(alloc: Global, roster: &Roster, evidence: &Evidence) -> Result<Finding, AllocError>
    ensures { IfOk result (λ finding. Finds roster.now evidence.now finding) }
{
    match evidence.charge() {
        Charge::Fork(fork) => Ok(find_in_fork(roster, evidence.node(), fork)),
        Charge::Replay(log) => find_in_log(alloc, roster, evidence.node(), log),
        Charge::Based(based) => find_in_based(alloc, roster, evidence.node(), based),
    }
}

/// What is found in a fork.
fn find_in_fork(roster: &Roster, node: u32, fork: &Fork) -> Finding
    ensures { FindsInFork fork.now.log_version roster.now node fork.now.at fork.now.a fork.now.b result }
{
    if let Some(reason) = find_lack(roster, node, fork.log_version, &fork.a) {
        return Finding::NotAccepted(reason);
    }
    match &fork.b {
        Some(b) => find_in_two(roster, node, fork, b),
        None => find_in_one(roster, node, fork),
    }
}

/// What is found in a fork's first showing, which is closed, and a second.
fn find_in_two(roster: &Roster, node: u32, fork: &Fork, b: &Showing) -> Finding
    requires { IsClosedOf fork.now.log_version roster.now node fork.now.a }
    ensures { FindsInFork fork.now.log_version roster.now node fork.now.at fork.now.a (Some b.now) result }
{
    if let Some(reason) = find_lack(roster, node, fork.log_version, b) {
        return Finding::NotAccepted(reason);
    }
    let at = fork.at;
    let Some(one) = fork.a.mark_at(fork.log_version, at.get()) else {
        return Finding::NotAccepted(NotAccepted::NoTwoMarks);
    };
    let Some(other) = b.mark_at(fork.log_version, at.get()) else {
        return Finding::NotAccepted(NotAccepted::NoTwoMarks);
    };
    if one.is_same(&other) {
        return Finding::NotAccepted(NotAccepted::NoTwoMarks);
    }
    is_mark(&one);
    is_mark(&other);
    Finding::TwoMarks { at, one, other }
}

/// What is found in a fork's first showing alone, which is closed.
#[tactic(auto, unfolding(secure_log::specs::LogEntries::Chain::zeros))]
fn find_in_one(roster: &Roster, node: u32, fork: &Fork) -> Finding
    requires { IsClosedOf fork.now.log_version roster.now node fork.now.a }
    ensures { FindsInFork fork.now.log_version roster.now node fork.now.at fork.now.a None result }
{
    let zeros = Mark::Hash([0; 32]);
    let Some(one) = fork.a.mark_at(fork.log_version, 0) else {
        return Finding::NotAccepted(NotAccepted::NoTwoMarks);
    };
    if one.is_same(&zeros) {
        return Finding::NotAccepted(NotAccepted::NoTwoMarks);
    }
    is_mark(&one);
    is_mark(&zeros);
    Finding::TwoMarks {
        at: Number::new(0),
        one,
        other: zeros,
    }
}

/// A mark that is a hash has 32 bytes: does nothing, and tells a caller's proof.
fn is_mark(mark: &Mark)
    ensures { IsMark mark.now }
{
    if let Mark::Hash(hash) = mark {
        is_hash(hash);
    }
}

/// A hash has 32 bytes: does nothing, and tells a caller's proof.
fn is_hash(hash: &[u8; 32])
    ensures { length hash.now ≡ 32 }
{
    let _bytes = hash;
}

/// What a showing of a log of this version lacks first.
fn find_lack(
    roster: &Roster,
    node: u32,
    version: LogVersion,
    showing: &Showing,
) -> Option<NotAccepted>
    ensures none { IfNone result (IsClosedOf version roster.now node showing.now) }
    ensures some { IfSome result (λ reason. ShowingLacks version roster.now node showing.now reason) }
{
    if showing.node() != node {
        return Some(NotAccepted::AnotherNode);
    }
    if !roster.keeps_version(node, version) {
        return Some(NotAccepted::OtherVersion);
    }
    if !showing.ends(version) {
        return Some(NotAccepted::NotClosed);
    }
    if !is_signed_in(roster, showing.closing()) {
        return Some(NotAccepted::NotSigned);
    }
    None
}

/// Whether a hash is 32 zero bytes, as before a log's first entry.
#[tactic(auto, unfolding(secure_log::specs::LogEntries::Chain::zeros))]
fn is_zeros(hash: &[u8; 32]) -> bool
    ensures { IsTrue result ↔ (hash.now ≡ zeros) }
{
    is_same_hash(hash, &[0; 32])
}

/// What is found in a log.
fn find_in_log(
    alloc: Global,
    roster: &Roster,
    node: u32,
    log: &AuditedLog,
) -> Result<Finding, AllocError>
    ensures { IfOk result (λ finding. FindsInLog roster.now node log.now finding) }
{
    match audited_member(roster, node, log) {
        Ok(member) => replay_finding(alloc, roster, node, &member, log),
        Err(reason) => Ok(Finding::NotAccepted(reason)),
    }
}

/// The member whose log is shown from its first entry on and closed, or what is lacking first.
fn audited_member(roster: &Roster, node: u32, log: &AuditedLog) -> Result<Member, NotAccepted>
    ensures ok { IfOk result (λ member. IsAudited roster.now node log.now member) }
    ensures err { IfErr result (λ reason. LogLacks roster.now node log.now reason) }
{
    if log.node() != node {
        return Err(NotAccepted::AnotherNode);
    }
    if !roster.keeps_version(log.node(), log.log_version()) {
        return Err(NotAccepted::OtherVersion);
    }
    if !is_from_start(log) {
        return Err(NotAccepted::NotFromStart);
    }
    if !log.ends() {
        return Err(NotAccepted::NotClosed);
    }
    let Some(member) = roster.member(log.closing().node) else {
        return Err(NotAccepted::NotSigned);
    };
    if !is_signed_by(&member, log.closing()) {
        return Err(NotAccepted::NotSigned);
    }
    Ok(member)
}

/// Whether a log is shown from its first entry on.
fn is_from_start(log: &AuditedLog) -> bool
    ensures { IsTrue result ↔ IsFromStart log.now }
{
    log.first().get() == 1 && is_zeros(&log.opening())
}

/// What a replay of a member's closed log finds, from the state that the member begins with.
fn replay_finding(
    alloc: Global,
    roster: &Roster,
    node: u32,
    member: &Member,
    log: &AuditedLog,
) -> Result<Finding, AllocError>
    requires { IsAudited roster.now node log.now member.now }
    ensures { IfOk result (λ finding. FindsInLog roster.now node log.now finding) }
{
    let start = opening_state(alloc, member)?;
    let first = log.first();
    let opening = log.opening();
    let entries = log.entries();
    log.fits();
    let outcome = replay_outcome(alloc, roster, start, first, &opening, log.skips(), entries)?;
    Ok(finding_in(outcome))
}

/// What the end of a replay says of a log.
pub(crate) fn finding_in(outcome: Outcome) -> Finding
    ensures { result ≡ finding_in outcome }
{
    match outcome {
        Outcome::Fault(fault, number) => Finding::Fault(fault, number),
        Outcome::Sound(_) => Finding::NotAccepted(NotAccepted::NoFault),
    }
}
