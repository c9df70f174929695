//! Files of a base of node 2, whose log is a CHECK of its opening state alone. Each function is small, and
//! gives none or false where memory is refused.

use crate::made::{keys_of_two, roster_of_two};
use acceptance_helpers::signed;
use authenticator::{LogVersion, Number, Refusal, Roster};
use challenge::{
    AuditedLog, BaseText, BasedReplay, SharedState, Showing, check_base_file, opening_state,
};
use merkle_keys::Signer;
use secure_log::Log;
use secure_log::log_entries::Entry;
use sha2::{Digest, Sha256};
use std::alloc::Global;

/// The text of the state that node 2 begins with.
fn opening_text(alloc: Global, roster: &Roster) -> Option<Vec<u8>> {
    let member = roster.member(2)?;
    let Ok(state) = opening_state(alloc, &member) else {
        return None;
    };
    match SharedState::new(alloc, &state) {
        Ok(shared) => Vec::from_slice(alloc, shared.text()).ok(),
        Err(_) => None,
    }
}

/// A CHECK of a state with this text, which has no files.
fn check_of(text: &[u8]) -> Entry {
    Entry::Check {
        digest: Sha256::digest(text),
    }
}

/// The hash of the log of that entry.
fn hash_of(alloc: Global, text: &[u8]) -> Option<[u8; 32]> {
    let mut log = Log::new(alloc, 2, LogVersion::One);
    match log.append(0, check_of(text)) {
        Ok(()) => log.hash_at(1),
        Err(_) => None,
    }
}

/// What is shown of that log, closed at its entry.
fn shown(alloc: Global, signer: &mut Signer, text: &[u8]) -> Option<Showing> {
    let hash = hash_of(alloc, text)?;
    let closing = signed(signer, 2, Number::new(1), hash)?;
    let entries = [check_of(text)];
    Showing::of_entries(alloc, Number::new(1), &[0; 32], &[], &entries, &closing).ok()
}

/// The base at that entry.
pub fn base_of(alloc: Global, signer: &mut Signer, roster: &Roster) -> Option<BaseText> {
    let text = opening_text(alloc, roster)?;
    let showing = shown(alloc, signer, &text)?;
    BaseText::new(LogVersion::One, showing, Number::new(1), text)
}

/// That base, and after it this log.
pub fn based(
    alloc: Global,
    signer: &mut Signer,
    roster: &Roster,
    log: AuditedLog,
) -> Option<BasedReplay> {
    let base = base_of(alloc, signer, roster)?;
    BasedReplay::new(base, log)
}

/// The roster's text with that of the base after it.
fn file(alloc: Global) -> Option<Vec<u8>> {
    let mut signer = keys_of_two(alloc)?;
    let roster = roster_of_two(alloc, &signer)?;
    let base = base_of(alloc, &mut signer, &roster)?;
    let mut text = Vec::new(alloc);
    if roster.write(&mut text).is_err() || base.write(&mut text).is_err() {
        return None;
    }
    Some(text)
}

/// What is changed in a file.
#[derive(Clone, Copy, Debug)]
enum Change {
    Nothing,
    /// The lowest bit of the byte so far from the beginning, counted from 0.
    Bit(usize),
    /// The same so far from the end, the last byte being 1.
    BitBeforeEnd(usize),
    /// The last byte is left out.
    Cut,
    /// A byte more.
    More,
}

/// Changes the lowest bit of a byte, if it is there.
fn flip(text: &mut Vec<u8>, at: usize) -> bool {
    match text.get_mut(at) {
        Some(byte) => {
            *byte ^= 1;
            true
        }
        None => false,
    }
}

/// Changes a file; false where that can't be.
fn change_in(text: &mut Vec<u8>, change: Change) -> bool {
    match change {
        Change::Nothing => true,
        Change::Bit(at) => flip(text, at),
        Change::BitBeforeEnd(at) => flip(text, text.len().wrapping_sub(at)),
        Change::Cut => text.pop().is_some(),
        Change::More => text.push(0).is_ok(),
    }
}

/// Whether the file, so changed, is refused so, or not at all.
fn is_answered(alloc: Global, change: Change, refusal: Option<Refusal>) -> bool {
    let Some(mut text) = file(alloc) else {
        return false;
    };
    if !change_in(&mut text, change) {
        return false;
    }
    match check_base_file(alloc, &text) {
        Ok(base) => refusal.is_none() && base.value().at().get() == 1,
        Err(found) => refusal == Some(found),
    }
}

#[test]
fn bases_in_files_are_checked(rt: HostRuntime) {
    for (change, refusal) in [
        (Change::Nothing, None),
        // The count of members; the member's number, so that node 2 is none; its kind.
        (Change::Bit(0), Some(Refusal::Garbage)),
        (Change::Bit(7), Some(Refusal::UnknownNode)),
        (Change::Bit(11), Some(Refusal::Garbage)),
        // The state's clock and its stage; the base's number; the path of the signature.
        (Change::BitBeforeEnd(13), Some(Refusal::Garbage)),
        (Change::BitBeforeEnd(1), Some(Refusal::Garbage)),
        (Change::BitBeforeEnd(37), Some(Refusal::Garbage)),
        (Change::BitBeforeEnd(45), Some(Refusal::BadSignature)),
        (Change::Cut, Some(Refusal::Garbage)),
        (Change::More, Some(Refusal::Garbage)),
    ] {
        let answered = is_answered(rt.alloc(), change, refusal);
        assert!(rt; answered, "{change:?}");
    }
}
