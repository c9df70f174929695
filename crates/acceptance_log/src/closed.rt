//! A log's text, closed by its node.

use acceptance_helpers::{MASTER, roster_of, server, signed};
use authenticator::{Authenticator, LogVersion, Number, Roster};
use merkle_keys::Signer;
use secure_log::Log;
use std::alloc::Global;

/// The text of a log's entries from the first on, closed by this authenticator.
fn text_closed(alloc: Global, log: &Log, closing: &Authenticator) -> Option<Vec<u8>> {
    let mut text = Vec::new(alloc);
    let last = closing.word.number(LogVersion::One);
    match log.segment(1, last.get()) {
        Ok(segment) => match segment.write(closing, &mut text) {
            Ok(()) => Some(text),
            Err(_) => None,
        },
        Err(_) => None,
    }
}

/// The text of a log's entries from the first to the one with this number, closed there.
fn text_to(alloc: Global, signer: &mut Signer, log: &Log, last: u32) -> Option<Vec<u8>> {
    let hash = log.hash_at(last as u64)?;
    let closing = signed(signer, 1, Number::new(last as u64), hash)?;
    text_closed(alloc, log, &closing)
}

/// A text of node 1, and the roster of that node alone, with keys of height 1.
#[derive(Drop)]
pub struct ClosedText {
    pub roster: Roster,
    pub text: Vec<u8>,
}

/// A log's entries from the first to the one with this number, closed there.
pub fn closed_text(alloc: Global, log: &Log, last: u32) -> Option<ClosedText> {
    match Signer::new(alloc, MASTER, 1) {
        Ok(mut signer) => {
            let text = text_to(alloc, &mut signer, log, last)?;
            let roster = roster_of(alloc, &[server(signer.root(), 1)])?;
            Some(ClosedText { roster, text })
        }
        Err(_) => None,
    }
}
