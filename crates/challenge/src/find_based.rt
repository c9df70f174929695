//! What is found in a base and a log after it.

ghost use Rattle.std.specs.Prelude.{◌↔◌, IfNone, IfOk, IfSome, IsTrue};
ghost use Rattle.authenticator.specs.declared.member.Member.{Member};
ghost use Rattle.evidence_showings.specs.Showings.{Ends};
ghost use Rattle.evidence_showings.specs.evidence_spec.Base.{IsGoodBase};
ghost use Rattle.challenge.specs.Findings.{BasedLacks, FindsInBased, FollowsOn, IsClosedAfter, IsClosedBase};
ghost use Rattle.challenge.specs.Findings.{IsGood};

use crate::base_state::{is_base_of, state_of};
use crate::based::BasedReplay;
use crate::evidence::AuditedLog;
use crate::find::finding_in;
use crate::finding::{Finding, NotAccepted};
use authenticator::Roster;
use evidence_showings::{BaseText, Mark, is_signed_in};
use replay::{State, a_text_has_one_state, replay_outcome};
use std::alloc::{AllocError, Global};

/// What is found in a base and a log after it. Closings are looked at before the base's state is read, and
/// that before the log is replayed.
pub(crate) fn find_in_based(
    alloc: Global,
    roster: &Roster,
    node: u32,
    based: &BasedReplay,
) -> Result<Finding, AllocError>
    ensures { IfOk result (λ finding. FindsInBased roster.now node based.now.base based.now.log finding) }
{
    if let Some(reason) = find_lack(roster, node, based) {
        return Ok(Finding::NotAccepted(reason));
    }
    let Some(state) = good_state(alloc, roster, node, based)? else {
        return Ok(Finding::NotAccepted(NotAccepted::NoGoodBase));
    };
    if let Some(reason) = find_lack_after(roster, node, based) {
        return Ok(Finding::NotAccepted(reason));
    }
    replay_finding(alloc, roster, node, based, state)
}

/// What a base lacks first of what can be told without its state.
fn find_lack(roster: &Roster, node: u32, based: &BasedReplay) -> Option<NotAccepted>
    ensures none { IfNone result (IsClosedBase roster.now node based.now.base based.now.log) }
    ensures some { IfSome result (λ reason. BasedLacks roster.now node based.now.base based.now.log reason) }
{
    let base = based.base();
    if base.showing().node() != node {
        return Some(NotAccepted::AnotherNode);
    }
    if !roster.keeps_version(node, base.log_version()) {
        return Some(NotAccepted::OtherVersion);
    }
    if based.log().node() != node {
        return Some(NotAccepted::AnotherNode);
    }
    if !base.showing().ends(base.log_version()) {
        return Some(NotAccepted::NotClosed);
    }
    if !is_signed_in(roster, base.showing().closing()) {
        return Some(NotAccepted::NotSigned);
    }
    None
}

/// The state of a base that is closed, where it is good.
fn good_state(
    alloc: Global,
    roster: &Roster,
    node: u32,
    based: &BasedReplay,
) -> Result<Option<State>, AllocError>
    requires { IsClosedBase roster.now node based.now.base based.now.log }
    ensures some { IfOk result (λ o. IfSome o (λ s.
        (m : Member) × IsGoodBase roster.now based.now.base m s.state)) }
    ensures none { IfOk result (λ o. IfNone o (¬ IsGood roster.now based.now.base)) }
{
    a_text_has_one_state();
    let Some(member) = roster.member(node) else {
        return Ok(None);
    };
    let Some(state) = state_of(alloc, based.base())? else {
        return Ok(None);
    };
    if !is_base_of(based.base(), &state, &member) {
        return Ok(None);
    }
    Ok(Some(state))
}

/// What the log after a good base lacks first of what can be told without a replay.
fn find_lack_after(roster: &Roster, node: u32, based: &BasedReplay) -> Option<NotAccepted>
    requires closed { IsClosedBase roster.now node based.now.base based.now.log }
    requires good { IsGood roster.now based.now.base }
    ensures none { IfNone result (IsClosedAfter roster.now based.now.base based.now.log) }
    ensures some { IfSome result (λ reason. BasedLacks roster.now node based.now.base based.now.log reason) }
{
    let log = based.log();
    if !follows_on(based.base(), log) {
        return Some(NotAccepted::NotFromBase);
    }
    if !log.ends() {
        return Some(NotAccepted::NotClosed);
    }
    if !is_signed_in(roster, log.closing()) {
        return Some(NotAccepted::NotSigned);
    }
    None
}

/// Whether a log begins right after a base's number, with the hash that the base shows there.
fn follows_on(base: &BaseText, log: &AuditedLog) -> bool
    requires { Ends base.now.log_version base.now.showing }
    ensures { IsTrue result ↔ FollowsOn base.now log.now }
{
    if log.first().get() != base.at().get() + 1 {
        return false;
    }
    let opening = Mark::Hash(log.opening());
    match base.showing().mark_at(base.log_version(), base.at().get()) {
        Some(mark) => mark.is_same(&opening),
        None => false,
    }
}

/// What a replay of a closed log finds from the state of a good base on.
fn replay_finding(
    alloc: Global,
    roster: &Roster,
    node: u32,
    based: &BasedReplay,
    state: State,
) -> Result<Finding, AllocError>
    requires closed { IsClosedBase roster.now node based.now.base based.now.log }
    requires good { (m : Member) × IsGoodBase roster.now based.now.base m state.state }
    requires after { IsClosedAfter roster.now based.now.base based.now.log }
    ensures { IfOk result (λ finding. FindsInBased roster.now node based.now.base based.now.log finding) }
{
    a_text_has_one_state();
    let log = based.log();
    let first = log.first();
    let opening = log.opening();
    let entries = log.entries();
    log.fits();
    let outcome = replay_outcome(alloc, roster, state, first, &opening, log.skips(), entries)?;
    Ok(finding_in(outcome))
}
