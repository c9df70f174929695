//! Replays from a base as they stand in a text (RFC 4506).

ghost use Rattle.std.specs.Prelude.{◌≡◌, IfNone, IfOk, IfSome, false};
ghost use Rattle.xdr.specs.Item.{pair};
ghost use Rattle.xdr.specs.Reading.{GivesUnless};
ghost use Rattle.xdr.specs.ReadFault.{xdr_fault};
ghost use Rattle.authenticator.specs.declared.member.LogVersion.TheVariants.{One, Two};
ghost use Rattle.secure_log.specs.Versioned.{versioned_value, worded_value};
ghost use Rattle.evidence_showings.specs.Bases.{plain_base_value, worded_base_value};
ghost use Rattle.evidence_showings.specs.evidence_spec.Evidence.{based_item, based_value, begun_replay};
ghost use Rattle.evidence_showings.specs.evidence_spec.Evidence.{Based, is_whole_charge};
ghost use Rattle.challenge.specs.BasedReplays.{plain_based_value};
ghost use Rattle.challenge.specs.Charges.{IsWritten};
ghost use Rattle.challenge.specs.ReadBased.{read_based_value, read_based_version};

use crate::based::BasedReplay;
use crate::evidence::AuditedLog;
use crate::items::{take_plain_base, take_word, take_worded_base};
use crate::read::{take_log, take_worded_log};
use crate::source::Source;
use evidence_showings::{MAX_AUDITED, PlainBase, WordedBase};
use secure_log::WordedSegment;
use std::alloc::{AllocError, Global};
use std::marker::Model;
use xdr::{ReadFault, XdrFault};

/// A base and a log after it, both of version 1.
#[derive(Drop)]
pub(crate) struct PlainBased {
    base: PlainBase,
    log: AuditedLog,
}

impl Model for PlainBased {
    ghost use Rattle.std.specs.Prelude.{◌≡◌};
    ghost use Rattle.authenticator.specs.declared.member.LogVersion.TheVariants.{One};
    ghost use Rattle.challenge.specs.BasedReplays.{PlainBasedParts};

    ghost Value = { PlainBasedParts };

    ghost view = { λ r. record { base = r.base; log = r.log } };

    ghost invariant = { λ r. r.log.log_version ≡ One };
}

/// A base and a log after it, as they stand in a text. Nothing is checked of the words of logs of version 2,
/// nor that the log has an entry.
#[derive(Drop)]
pub(crate) enum ReadBased {
    /// Of a log of version 1.
    Plain(PlainBased),
    /// Of a log of version 2.
    Worded(WordedBase, WordedSegment<MAX_AUDITED>),
}

impl ReadBased {
    /// The replay. None comes of a log of version 2 alone: where its words don't follow, or the log after the
    /// base has no entry. `AllocError` comes only where a growth was refused.
    pub(crate) fn into_replay(self, alloc: Global) -> Result<Option<BasedReplay>, AllocError>
        ensures some { IfOk result (λ o. IfSome o (λ r.
            based_value r.base.log_version r.base r.log ≡ read_based_value self)) }
        ensures none { IfOk result (λ o. IfNone o (is_whole_charge (5, read_based_value self) ≡ false)) }
        ensures version { IfOk result (λ o. IfNone o (read_based_version self ≡ Two)) }
        ensures written { IfOk result (λ o. IfSome o (λ r. IsWritten (Based r.base r.log))) }
    {
        match self {
            ReadBased::Plain(based) => Ok(Some(based.into_replay(alloc)?)),
            ReadBased::Worded(base, log) => worded_replay(alloc, base, log),
        }
    }
}

impl PlainBased {
    /// The replay.
    fn into_replay(self, alloc: Global) -> Result<BasedReplay, AllocError>
        ensures value { IfOk result (λ r.
            based_value r.base.log_version r.base r.log ≡ (1, plain_based_value self)) }
        ensures written { IfOk result (λ r. IsWritten (Based r.base r.log)) }
    {
        let PlainBased { base, log } = self;
        log.fits();
        let base = base.into_base(alloc)?;
        Ok(BasedReplay::of_parts(base, log))
    }
}

/// A replay of a log of version 2; None where its words don't follow, or there is no entry after the base.
fn worded_replay(
    alloc: Global,
    base: WordedBase,
    log: WordedSegment<MAX_AUDITED>,
) -> Result<Option<BasedReplay>, AllocError>
    ensures value { IfOk result (λ o. IfSome o (λ r.
        based_value r.base.log_version r.base r.log ≡ (2, (worded_base_value base, worded_value log)))) }
    ensures none { IfOk result (λ o. IfNone o
        (is_whole_charge (5, (2, (worded_base_value base, worded_value log))) ≡ false)) }
    ensures written { IfOk result (λ o. IfSome o (λ r. IsWritten (Based r.base r.log))) }
{
    let Some(base) = base.into_base(alloc)? else {
        return Ok(None);
    };
    let Some(log) = log.into_segment(alloc)? else {
        return Ok(None);
    };
    log.fits();
    Ok(Some(BasedReplay::of_parts(base, log)))
}

/// Takes a base and a log after it, by the version of both.
pub(crate) fn take_based(alloc: Global, source: &mut Source) -> Result<ReadBased, ReadFault>
    ensures { GivesUnless xdr_fault based_item read_based_value source.old result source.new }
{
    match take_word(alloc, source)? {
        1 => {
            let based = take_plain(alloc, source)?;
            Ok(ReadBased::Plain(based))
        }
        2 => {
            let (base, log) = take_worded(alloc, source)?;
            Ok(ReadBased::Worded(base, log))
        }
        _ => Err(ReadFault::Fault(XdrFault::BadEnum)),
    }
}

fn take_plain(alloc: Global, source: &mut Source) -> Result<PlainBased, ReadFault>
    ensures { GivesUnless xdr_fault (begun_replay One) plain_based_value source.old result source.new }
{
    let base = take_plain_base(alloc, source)?;
    let log = take_log(alloc, source)?;
    Ok(PlainBased { base, log })
}

fn take_worded(
    alloc: Global,
    source: &mut Source,
) -> Result<(WordedBase, WordedSegment<MAX_AUDITED>), ReadFault>
    ensures { GivesUnless xdr_fault (begun_replay Two) (λ r. (worded_base_value r.0, worded_value r.1))
        source.old result source.new }
{
    let base = take_worded_base(alloc, source)?;
    let log = take_worded_log(alloc, source)?;
    Ok((base, log))
}
