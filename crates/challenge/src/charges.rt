//! Charges as they stand in a text.

ghost use Rattle.std.specs.Prelude.{◌≡◌, IfNone, IfOk, IfSome, IsTrue, false, option_map};
ghost use Rattle.authenticator.specs.declared.member.LogVersion.TheVariants.{One, Two};
ghost use Rattle.secure_log.specs.Versioned as logs;
ghost use Rattle.evidence_showings.specs.Plain.{plain_value};
ghost use Rattle.evidence_showings.specs.Worded.{worded_value};
ghost use Rattle.evidence_showings.specs.evidence_spec.Showing.{links_follow, showing_value};
ghost use Rattle.evidence_showings.specs.evidence_spec.Evidence.{charge_value, is_whole_charge};
ghost use Rattle.evidence_showings.specs.evidence_spec.Evidence.{second_follows};
ghost use Rattle.evidence_showings.specs.Showings.{SaysNoMore};
ghost use Rattle.challenge.specs.Charges.{IsWritten, charge_in};
ghost use Rattle.challenge.specs.ReadBased.{read_based_value, read_based_version};
ghost use Rattle.challenge.specs.ReadCharges.{read_value, read_version};

use crate::based_read::ReadBased;
use crate::evidence::{AuditedLog, Charge, Fork};
use authenticator::{LogVersion, Number};
use evidence_showings::{MAX_AUDITED, PlainShowing, Showing, WordedShowing};
use secure_log::WordedSegment;
use std::alloc::{AllocError, Global};

/// What is shown against a node, as it stands in a text. Nothing is checked of the words of a log of version
/// 2, nor that a log has an entry, nor of the first number of one of version 1.
#[derive(Drop)]
pub(crate) enum ReadCharge {
    /// A number, and one showing or two, of a log of version 1.
    Fork(Number, PlainShowing, Option<PlainShowing>),
    /// A log of version 1.
    Replay(AuditedLog),
    /// A number, and one showing or two, of a log of version 2.
    WordedFork(Number, WordedShowing, Option<WordedShowing>),
    /// A log of version 2.
    WordedReplay(WordedSegment<MAX_AUDITED>),
    /// A base, and a log after it.
    Based(ReadBased),
}

impl ReadCharge {
    /// The charge. None comes of a log of version 2 alone: where its words don't follow, or a replay has no
    /// entry. `AllocError` comes only where a growth was refused.
    pub(crate) fn into_charge(self, alloc: Global) -> Result<Option<Charge>, AllocError>
        ensures some { IfOk result (λ o. IfSome o (λ c. charge_value (charge_in c) ≡ read_value self)) }
        ensures none { IfOk result (λ o. IfNone o (is_whole_charge (read_value self) ≡ false)) }
        ensures version { IfOk result (λ o. IfNone o (read_version self ≡ Two)) }
        ensures written { IfOk result (λ o. IfSome o (λ c. IsWritten (charge_in c))) }
    {
        match self {
            ReadCharge::Fork(at, a, b) => {
                let fork = plain_fork(alloc, at, a, b)?;
                Ok(Some(fork))
            }
            ReadCharge::Replay(log) => {
                log.fits();
                Ok(Some(Charge::Replay(log)))
            }
            ReadCharge::WordedFork(at, a, b) => worded_fork(alloc, at, a, b),
            ReadCharge::WordedReplay(log) => worded_replay(alloc, log),
            ReadCharge::Based(based) => based_charge(alloc, based),
        }
    }
}

/// A fork of a log of version 1.
fn plain_fork(
    alloc: Global,
    at: Number,
    a: PlainShowing,
    b: Option<PlainShowing>,
) -> Result<Charge, AllocError>
    ensures some { IfOk result (λ c.
        charge_value (charge_in c) ≡ (1, (at, (plain_value a, option_map plain_value b)))) }
    ensures written { IfOk result (λ c. IsWritten (charge_in c)) }
{
    let a = plain_showing(alloc, a)?;
    let b = plain_second(alloc, b)?;
    Ok(Charge::Fork(Fork {
        log_version: LogVersion::One,
        at,
        a,
        b,
    }))
}

/// A showing of a log of version 1, whose links skip nothing.
fn plain_showing(alloc: Global, plain: PlainShowing) -> Result<Showing, AllocError>
    ensures text { IfOk result (λ s. showing_value One s ≡ plain_value plain) }
    ensures written { IfOk result (SaysNoMore One) }
{
    let showing = plain.into_showing(alloc)?;
    Ok(showing)
}

/// The second showing, if there is one.
fn plain_second(alloc: Global, second: Option<PlainShowing>) -> Result<Option<Showing>, AllocError>
    ensures text { IfOk result (λ b. option_map (showing_value One) b ≡ option_map plain_value second) }
    ensures written { IfOk result (λ b. IfSome b (SaysNoMore One)) }
{
    match second {
        Some(second) => {
            let showing = plain_showing(alloc, second)?;
            Ok(Some(showing))
        }
        None => Ok(None),
    }
}

/// A fork of a log of version 2; None where its words don't follow.
fn worded_fork(
    alloc: Global,
    at: Number,
    a: WordedShowing,
    b: Option<WordedShowing>,
) -> Result<Option<Charge>, AllocError>
    ensures some { IfOk result (λ o. IfSome o (λ c.
        charge_value (charge_in c) ≡ (3, (at, (worded_value a, option_map worded_value b))))) }
    ensures none { IfOk result (λ o. IfNone o
        (is_whole_charge (3, (at, (worded_value a, option_map worded_value b))) ≡ false)) }
    ensures written { IfOk result (λ o. IfSome o (λ c. IsWritten (charge_in c))) }
{
    let Some(a) = a.into_showing(alloc)? else {
        return Ok(None);
    };
    let Some(b) = second_showing(alloc, b)? else {
        return Ok(None);
    };
    Ok(Some(Charge::Fork(Fork {
        log_version: LogVersion::Two,
        at,
        a,
        b,
    })))
}

/// The second showing, if there is one; None where there is one whose words don't follow.
fn second_showing(
    alloc: Global,
    second: Option<WordedShowing>,
) -> Result<Option<Option<Showing>>, AllocError>
    ensures some { IfOk result (λ o. IfSome o (λ b.
        option_map (showing_value Two) b ≡ option_map worded_value second)) }
    ensures none { IfOk result (λ o. IfNone o (second_follows (option_map worded_value second) ≡ false)) }
    ensures written { IfOk result (λ o. IfSome o (λ b. IfSome b (SaysNoMore Two))) }
{
    let Some(second) = second else {
        return Ok(Some(None));
    };
    match second.into_showing(alloc)? {
        Some(showing) => Ok(Some(Some(showing))),
        None => Ok(None),
    }
}

/// A replay of a log of version 2; None where it has no entry or its words don't follow.
fn worded_replay(
    alloc: Global,
    log: WordedSegment<MAX_AUDITED>,
) -> Result<Option<Charge>, AllocError>
    ensures some { IfOk result (λ o. IfSome o (λ c.
        charge_value (charge_in c) ≡ (4, logs.worded_value log))) }
    ensures none { IfOk result (λ o. IfNone o (is_whole_charge (4, logs.worded_value log) ≡ false)) }
    ensures written { IfOk result (λ o. IfSome o (λ c. IsWritten (charge_in c))) }
{
    match log.into_segment(alloc)? {
        Some(log) => Ok(Some(Charge::Replay(log))),
        None => Ok(None),
    }
}

/// A replay from a base; None where it is of a log of version 2, and its words don't follow or it has no
/// entry.
fn based_charge(alloc: Global, based: ReadBased) -> Result<Option<Charge>, AllocError>
    ensures some { IfOk result (λ o. IfSome o (λ c. charge_value (charge_in c) ≡ (5, read_based_value based))) }
    ensures none { IfOk result (λ o. IfNone o (is_whole_charge (5, read_based_value based) ≡ false)) }
    ensures version { IfOk result (λ o. IfNone o (read_based_version based ≡ Two)) }
    ensures written { IfOk result (λ o. IfSome o (λ c. IsWritten (charge_in c))) }
{
    match based.into_replay(alloc)? {
        Some(replay) => Ok(Some(Charge::Based(replay))),
        None => Ok(None),
    }
}
