//! Bases that have texts.

ghost use Rattle.std.specs.Prelude.{◌≡◌, ◌↔◌, ◌≤◌, IfNone, IfOk, IfSome, IsTrue, length};
ghost use Rattle.evidence_spec.specs.Base.{MAX_STATE};
ghost use Rattle.evidence_spec.specs.Showing.{links_follow, showing_value};
ghost use Rattle.evidence_showings.specs.Bases.{HasBaseText, IsShortState};

use crate::showing::Showing;
use authenticator::{LogVersion, Number};
use evidence_spec::MAX_STATE;
use std::alloc::{AllocError, Global};
use std::marker::Model;

/// Where a witness that comes later begins, as its text says it: a part of a node's log that is shown, the
/// number of one of its links, and bytes that are to be the text of the node's state there, at most
/// `MAX_STATE` (67,108,864). It has a text of its log's version, and nothing else is checked of it.
#[derive(Drop)]
pub struct BaseText {
    log_version: LogVersion,
    showing: Showing,
    at: Number,
    state: Vec<u8>,
}

impl Model for BaseText {
    ghost use Rattle.evidence_spec.specs.Base.{BaseParts};
    ghost use Rattle.evidence_showings.specs.Bases.{HasBaseText};

    ghost Value = { BaseParts };

    ghost view = { λ b. record {
      log_version = b.log_version;
      showing = b.showing;
      at = b.at;
      state = b.state.items;
    } };

    ghost invariant = { λ b. HasBaseText (record {
      log_version = b.log_version;
      showing = b.showing;
      at = b.at;
      state = b.state.items;
    }) };
}

impl BaseText {
    /// A base of these parts. None where it would have no text: the state has more than `MAX_STATE` bytes, or
    /// the showing no text of a log of version 2.
    pub fn new(
        log_version: LogVersion,
        showing: Showing,
        at: Number,
        state: Vec<u8>,
    ) -> Option<BaseText>
        ensures some { IfSome result (λ b. b ≡ record {
          log_version = log_version;
          showing = showing;
          at = at;
          state = state.items;
        }) }
        ensures none { IfNone result (¬ HasBaseText (record {
          log_version = log_version;
          showing = showing;
          at = at;
          state = state.items;
        })) }
    {
        if !is_short(&state) {
            return None;
        }
        if !words_follow(log_version, &showing) {
            return None;
        }
        Some(BaseText::of_parts(log_version, showing, at, state))
    }

    /// A base of parts that have a text.
    pub(crate) fn of_parts(
        log_version: LogVersion,
        showing: Showing,
        at: Number,
        state: Vec<u8>,
    ) -> BaseText
        requires words { IsTrue (links_follow log_version (showing_value log_version showing)) }
        requires short { IsShortState state.items }
        ensures { result ≡ record {
          log_version = log_version;
          showing = showing;
          at = at;
          state = state.items;
        } }
    {
        showing.has_text();
        at.fits();
        BaseText {
            log_version,
            showing,
            at,
            state,
        }
    }

    /// The version of the log.
    pub fn log_version(&self) -> LogVersion
        ensures { result ≡ self.now.log_version }
    {
        self.log_version
    }

    /// What is shown of the log.
    pub fn showing(&self) -> &Showing
        ensures { result.now ≡ self.now.showing }
    {
        &self.showing
    }

    /// The number of the link at which the state is.
    pub fn at(&self) -> Number
        ensures { result ≡ self.now.at }
    {
        self.at
    }

    /// The bytes that are to be the text of the state.
    pub fn state(&self) -> &[u8]
        ensures state { result.now ≡ self.now.state }
        ensures few { length self.now.state ≤ MAX_STATE }
    {
        &self.state
    }

    /// The showing, and the bytes of the state.
    pub fn into_parts(self) -> (Showing, Vec<u8>)
        ensures showing { result.0 ≡ self.showing }
        ensures state { result.1.items ≡ self.state }
    {
        let BaseText { showing, state, .. } = self;
        (showing, state)
    }

    /// It has a text, as its type keeps it: does nothing, and tells a caller's proof.
    pub fn has_text(&self)
        ensures { HasBaseText self.now }
    {
        let _at = &self.at;
    }

    /// Whether another base is the same in every part. It compares bytes, and takes no memory.
    pub fn is_same(&self, other: &BaseText) -> bool
        ensures { IsTrue result ↔ (self.now ≡ other.now) }
    {
        self.log_version == other.log_version
            && self.at == other.at
            && self.showing.is_same(&other.showing)
            && are_same_bytes(&self.state, &other.state)
    }

    /// A copy. No text is written for it, and nothing is hashed. `AllocError` comes only where a growth was
    /// refused.
    pub fn try_clone(&self, alloc: Global) -> Result<BaseText, AllocError>
        ensures { IfOk result (λ b. b ≡ self.now) }
    {
        let showing = self.showing.try_clone(alloc)?;
        let state = Vec::from_slice(alloc, &self.state)?;
        Ok(BaseText {
            log_version: self.log_version,
            showing,
            at: self.at,
            state,
        })
    }
}

/// Whether some bytes are as few as a base may have for a state.
fn is_short(state: &[u8]) -> bool
    ensures { IsTrue result ↔ IsShortState state.now }
{
    state.len() <= MAX_STATE as usize
}

/// Whether a showing has a text of a log of this version. Every one has one of a log of version 1.
fn words_follow(version: LogVersion, showing: &Showing) -> bool
    ensures { result ≡ links_follow version (showing_value version showing.now) }
{
    match version {
        LogVersion::One => true,
        LogVersion::Two => showing.has_words(),
    }
}

/// Whether two runs of bytes are the same.
fn are_same_bytes(own: &[u8], other: &[u8]) -> bool
    ensures { IsTrue result ↔ (own.now ≡ other.now) }
{
    own == other
}
