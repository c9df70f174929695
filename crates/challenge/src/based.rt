//! Replays from a base.

ghost use Rattle.std.specs.Prelude.{◌≡◌, ◌≢◌, ◌↔◌, IfNone, IfOk, IfSome, IsTrue};
ghost use Rattle.xdr.specs.Item.{Fits, choice, spelling};
ghost use Rattle.xdr.specs.Writing.{Adds};
ghost use Rattle.evidence_showings.specs.evidence_spec.Evidence.{based_item, based_value, charge_item};
ghost use Rattle.evidence_showings.specs.evidence_spec.Evidence.{is_charge, is_whole_charge};

use crate::evidence::AuditedLog;
use evidence_showings::BaseText;
use std::alloc::{AllocError, Global};
use std::marker::Model;

/// A base, and a log of the same version that is to follow on it, of at most `MAX_AUDITED` entries (65,536).
#[derive(Drop)]
pub struct BasedReplay {
    base: BaseText,
    log: AuditedLog,
}

impl Model for BasedReplay {
    ghost use Rattle.std.specs.Prelude.{◌≡◌};
    ghost use Rattle.challenge.specs.BasedReplays.{BasedParts};

    ghost Value = { BasedParts };

    ghost view = { λ r. record { base = r.base; log = r.log } };

    ghost invariant = { λ r. r.log.log_version ≡ r.base.log_version };
}

impl BasedReplay {
    /// A base, and a log that is to follow on it. None where they are of two versions.
    pub fn new(base: BaseText, log: AuditedLog) -> Option<BasedReplay>
        ensures some { IfSome result (λ r. r ≡ record { base = base; log = log }) }
        ensures version { IfSome result (λ _. log.log_version ≡ base.log_version) }
        ensures none { IfNone result (log.log_version ≢ base.log_version) }
    {
        if log.log_version() != base.log_version() {
            return None;
        }
        Some(BasedReplay { base, log })
    }

    /// A base, and a log of the same version.
    pub(crate) fn of_parts(base: BaseText, log: AuditedLog) -> BasedReplay
        requires { log.log_version ≡ base.log_version }
        ensures { result ≡ record { base = base; log = log } }
    {
        BasedReplay { base, log }
    }

    /// The base.
    pub fn base(&self) -> &BaseText
        ensures { result.now ≡ self.now.base }
    {
        &self.base
    }

    /// The log after it, which is of the same version.
    pub fn log(&self) -> &AuditedLog
        ensures log { result.now ≡ self.now.log }
        ensures version { self.now.log.log_version ≡ self.now.base.log_version }
    {
        &self.log
    }

    /// Whether evidence of it has a text: the log has an entry and begins at 1 or later.
    pub(crate) fn is_whole(&self) -> bool
        ensures { result ≡ is_whole_charge (5, based_value self.now.base.log_version self.now.base self.now.log) }
    {
        let base = self.base();
        let log = self.log();
        base.has_text();
        log.is_whole()
    }

    /// Each part has a spelling, as their types keep it: does nothing, and tells a caller's proof.
    pub(crate) fn fits(&self)
        ensures { Fits (choice is_charge charge_item)
            (5, based_value self.now.base.log_version self.now.base self.now.log) }
    {
        let base = self.base();
        let log = self.log();
        base.has_text();
        log.fits();
    }

    /// Whether another is the same: of the same base, with the same log after it. It compares bytes, and
    /// takes no memory.
    pub fn is_same(&self, other: &BasedReplay) -> bool
        ensures { IsTrue result ↔ (self.now ≡ other.now) }
    {
        self.base.is_same(&other.base) && self.log.is_same(&other.log)
    }

    /// A copy. No text is written for it, and nothing is hashed. `AllocError` comes only where a growth was
    /// refused.
    pub fn try_clone(&self, alloc: Global) -> Result<BasedReplay, AllocError>
        ensures { IfOk result (λ r. r ≡ self.now) }
    {
        let base = self.base.try_clone(alloc)?;
        let log = self.log.try_clone(alloc)?;
        Ok(BasedReplay { base, log })
    }

    /// Appends it after its charge's number; where memory is refused a part may stand.
    pub(crate) fn add_to(&self, out: &mut Vec<u8>) -> Result<(), AllocError>
        ensures { Adds (spelling based_item (based_value self.now.base.log_version self.now.base self.now.log))
            out.old.items result out.new.items }
    {
        let base = self.base();
        let log = self.log();
        base.write(out)?;
        log.write(out)
    }
}
