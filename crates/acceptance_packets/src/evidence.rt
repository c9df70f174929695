//! Evidence against node 2, made, written, read and examined. Each function is small, and gives none or
//! false where memory is refused.

use crate::bases::based;
use crate::made::{keys_of_two, roster_of_two};
use acceptance_helpers::signed;
use authenticator::{Authenticator, LogVersion, Number, Roster};
use challenge::{
    AuditedLog, Charge, Evidence, EvidenceFault, Finding, Fork, NotAccepted, Showing,
    check_evidence, examine, read_case, read_evidence, write_case,
};
use merkle_keys::Signer;
use secure_log::Log;
use secure_log::log_entries::Entry;
use std::alloc::Global;

/// What evidence holds.
#[derive(Clone, Copy, Debug)]
pub enum Content {
    /// Two hashes at number 5.
    TwoHashes,
    /// A hash of bytes that are all this one, at number 0.
    AtZero(u8),
    /// A log that has a reading of the clock at one second and so many microseconds alone.
    Clock(u32),
    /// The same after a base, on which it doesn't follow.
    ClockAfterBase(u32),
}

/// What an authenticator of a hash shows.
fn shown(alloc: Global, signer: &mut Signer, number: u64, hash: [u8; 32]) -> Option<Showing> {
    match signed(signer, 2, Number::new(number.min(5)), hash) {
        Some(authenticator) => {
            Showing::of_authenticator(alloc, LogVersion::One, &authenticator).ok()
        }
        None => None,
    }
}

fn two_hashes(alloc: Global, signer: &mut Signer) -> Option<Evidence> {
    let log_version = LogVersion::One;
    let at = Number::new(5);
    let a = shown(alloc, signer, 5, [1; 32])?;
    let b = shown(alloc, signer, 5, [2; 32])?;
    Evidence::new(
        2,
        Charge::Fork(Fork {
            log_version,
            at,
            a,
            b: Some(b),
        }),
    )
}

fn at_zero(alloc: Global, signer: &mut Signer, hash: [u8; 32]) -> Option<Evidence> {
    let log_version = LogVersion::One;
    let at = Number::new(0);
    let a = shown(alloc, signer, 0, hash)?;
    Evidence::new(
        2,
        Charge::Fork(Fork {
            log_version,
            at,
            a,
            b: None,
        }),
    )
}

/// The log of one entry, closed by this authenticator.
fn log_of_one(alloc: Global, entry: Entry, closing: &Authenticator) -> Option<AuditedLog> {
    let mut entries = Vec::new(alloc);
    match entries.push(entry) {
        Ok(()) => AuditedLog::from_start(alloc, 2, entries, closing).ok(),
        Err(_) => None,
    }
}

/// A clock reading one second and so many microseconds after the beginning.
fn clock_entry(microseconds: u32) -> Entry {
    Entry::Clock {
        seconds: 1,
        microseconds,
    }
}

/// The hash of the log of that entry.
fn hash_of(alloc: Global, microseconds: u32) -> Option<[u8; 32]> {
    let mut log = Log::new(alloc, 2, LogVersion::One);
    match log.append(0, clock_entry(microseconds)) {
        Ok(()) => log.hash_at(1),
        Err(_) => None,
    }
}

/// The log of that entry, closed.
fn clock_log(alloc: Global, signer: &mut Signer, microseconds: u32) -> Option<AuditedLog> {
    let hash = hash_of(alloc, microseconds)?;
    match signed(signer, 2, Number::new(1), hash) {
        Some(closing) => log_of_one(alloc, clock_entry(microseconds), &closing),
        None => None,
    }
}

fn clock(alloc: Global, signer: &mut Signer, microseconds: u32) -> Option<Evidence> {
    let log = clock_log(alloc, signer, microseconds)?;
    Evidence::new(2, Charge::Replay(log))
}

fn clock_after_base(alloc: Global, signer: &mut Signer, microseconds: u32) -> Option<Evidence> {
    let roster = roster_of_two(alloc, signer)?;
    let log = clock_log(alloc, signer, microseconds)?;
    let based = based(alloc, signer, &roster, log)?;
    Evidence::new(2, Charge::Based(based))
}

fn evidence_of(alloc: Global, signer: &mut Signer, content: Content) -> Option<Evidence> {
    match content {
        Content::TwoHashes => two_hashes(alloc, signer),
        Content::AtZero(byte) => at_zero(alloc, signer, [byte; 32]),
        Content::Clock(microseconds) => clock(alloc, signer, microseconds),
        Content::ClockAfterBase(microseconds) => clock_after_base(alloc, signer, microseconds),
    }
}

/// The text of a case with this evidence.
fn case_text(alloc: Global, roster: &Roster, evidence: &Evidence) -> Option<Vec<u8>> {
    let mut text = Vec::new(alloc);
    match write_case(roster, evidence, &mut text) {
        Ok(()) => Some(text),
        Err(_) => None,
    }
}

/// Whether this is found in evidence, and it is accepted only then.
fn finds(alloc: Global, roster: &Roster, evidence: &Evidence, finding: &Finding) -> bool {
    let accepted = !matches!(finding, Finding::NotAccepted(_));
    let is_found = match examine(alloc, roster, evidence) {
        Ok(found) => found == *finding,
        Err(_) => false,
    };
    let is_accepted = match check_evidence(alloc, roster, evidence) {
        Ok(is_accepted) => is_accepted == accepted,
        Err(_) => false,
    };
    is_found && is_accepted
}

/// Whether this is found in evidence that is read from a text.
fn finds_in_text(alloc: Global, roster: &Roster, text: Vec<u8>, finding: &Finding) -> bool {
    match read_evidence(alloc, text) {
        Ok(evidence) => finds(alloc, roster, &evidence, finding),
        Err(_) => false,
    }
}

/// Node 2's roster, and evidence against it.
#[derive(Drop)]
pub struct Made {
    pub roster: Roster,
    pub evidence: Evidence,
}

fn made_of(alloc: Global, content: Content) -> Option<Made> {
    let mut signer = keys_of_two(alloc)?;
    let roster = roster_of_two(alloc, &signer)?;
    let evidence = evidence_of(alloc, &mut signer, content)?;
    Some(Made { roster, evidence })
}

/// Whether a function holds of evidence with this content, which is owned here alone.
pub fn holds_of<F: FnOnce(Global, &Made) -> bool>(alloc: Global, content: Content, holds: F) -> bool
    requires { F.IsAlwaysCallable holds }
{
    match made_of(alloc, content) {
        Some(made) => holds(alloc, &made),
        None => false,
    }
}

/// Whether evidence whose text ends in another bit isn't signed: that is in the path of its last signature.
fn is_not_signed(alloc: Global, made: &Made) -> bool {
    match made.evidence.evidence_text(alloc) {
        Ok(mut text) => {
            if let Some(last) = text.last_mut() {
                *last ^= 1;
            }
            let finding = Finding::NotAccepted(NotAccepted::NotSigned);
            finds_in_text(alloc, &made.roster, text, &finding)
        }
        Err(_) => false,
    }
}

/// What bytes are read as.
#[derive(Clone, Copy)]
enum Kind {
    Evidence,
    Case,
}

/// Whether a copy of bytes is garbage.
fn is_garbage(alloc: Global, kind: Kind, bytes: &[u8]) -> bool {
    let Ok(bytes) = Vec::from_slice(alloc, bytes) else {
        return false;
    };
    let fault = match kind {
        Kind::Evidence => read_evidence(alloc, bytes).err(),
        Kind::Case => read_case(alloc, bytes).err(),
    };
    fault == Some(EvidenceFault::Garbage)
}

/// Whether a text is garbage that is cut at any length, or has a byte more.
fn is_garbage_changed(alloc: Global, kind: Kind, mut text: Vec<u8>) -> bool {
    for len in 0..text.len() {
        if !is_garbage(alloc, kind, &text[..len]) {
            return false;
        }
    }
    text.push(0).is_ok() && is_garbage(alloc, kind, &text)
}

/// Whether the text of evidence is refused where it is changed.
fn is_evidence_refused(alloc: Global, made: &Made) -> bool {
    match made.evidence.evidence_text(alloc) {
        Ok(text) => is_garbage_changed(alloc, Kind::Evidence, text),
        Err(_) => false,
    }
}

/// Whether the text of a case is refused where it is changed.
fn is_case_refused(alloc: Global, made: &Made) -> bool {
    match case_text(alloc, &made.roster, &made.evidence) {
        Some(text) => is_garbage_changed(alloc, Kind::Case, text),
        None => false,
    }
}

#[test]
fn changed_evidence_is_refused(rt: HostRuntime) {
    assert!(rt; holds_of(rt.alloc(), Content::TwoHashes, is_not_signed));
    assert!(rt; holds_of(rt.alloc(), Content::AtZero(1), is_evidence_refused));
    assert!(rt; holds_of(rt.alloc(), Content::Clock(1_000_000), is_case_refused));
}
