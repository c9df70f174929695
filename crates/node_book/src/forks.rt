//! Forks that a book finds.

ghost use Rattle.std.specs.Prelude.{◌≡◌, ◌+◌, ◌<◌, ◌∷◌, [], false, None, Some, IfOk, IfSome, option_map};
ghost use Rattle.secure_log.specs.Marks.{mark_in};
ghost use Rattle.secure_log.specs.Versioned.{segment_marks};
ghost use Rattle.evidence_spec.specs.Showing.{authenticator_showing, versioned_showing};
ghost use Rattle.evidence_spec.specs.Evidence as spec;
ghost use Rattle.witness_spec.specs.Exposing.{fork_of, kept_before};
ghost use Rattle.witness_spec.specs.Starting.{start_showing};
ghost use Rattle.authenticator.specs.declared.member.LogVersion.{LogVersion};
ghost use Rattle.witness_spec.specs.Pairs.{last_of, pair_of};
ghost use Rattle.witness_spec.specs.Standing as standing;
ghost use Rattle.witness_book_laws.specs.Answers.{answer_fork, least_from, least_with, lesser};
ghost use Rattle.witness_book_laws.specs.Books.{exposed};
ghost use Rattle.witness_book_laws.specs.Fitting.{FitsTogether};
ghost use Rattle.witness_book_laws.specs.Going.{evidence_of, fork_evidence};
ghost use Rattle.witness_book_laws.specs.LookUps.{is_other_hash};
ghost use Rattle.witness_book_laws.specs.Ready.{IsReady};
ghost use Rattle.node_book.specs.Looking.{HasWordsOf};
ghost use Rattle.node_book.specs.Rows.{BaseIsOfLog, base_in, book_in};

use crate::looking::{ShownHash, learned_at, segment_holding};
use crate::rows::Rows;
use authenticator::{Authenticator, LogVersion, Number};
use challenge::{Base, Charge, Evidence, Fork, Showing};
use replay_jobs::SharedSegment;
use secure_log::{ClosedSegment, Mark};
use std::alloc::{AllocError, Global};
use std::sync::Arc;

impl Rows {
    /// The evidence that an authenticator brings: a fork, where the book shows another mark at its number. It
    /// costs one look-up; where there is a fork, what showed either hash is copied. `AllocError` comes only
    /// where a growth was refused.
    pub(crate) fn fork_by_authenticator(
        &self,
        alloc: Global,
        authenticator: &Authenticator,
    ) -> Result<Option<Evidence>, AllocError>
        requires ready { IsReady (book_in self.now) }
        requires base { BaseIsOfLog (base_in self.now.base) self.now.log_version }
        requires hidden { exposed (book_in self.now) ≡ false }
        ensures { IfOk result (λ e. e ≡ fork_evidence (book_in self.now)
            (authenticator_showing self.now.log_version authenticator.now)
            (pair_of self.now.log_version authenticator.now ∷ [])) }
    {
        match self.knows(authenticator) {
            ShownHash::Another => {
                let new = Showing::of_authenticator(alloc, self.log_version, authenticator)?;
                self.fork_at(alloc, new, authenticator.word.number(self.log_version))
            }
            ShownHash::Same | ShownHash::Nothing => Ok(None),
        }
    }

    /// The evidence that a segment brings for which the book asked: a fork, at the least number at which the
    /// book shows another mark. It costs one look-up of the end's number, and one in the segment for each
    /// learned authenticator; where there is a fork, what showed either hash is copied. `AllocError` comes
    /// only where a growth was refused.
    pub(crate) fn fork_by_segment(
        &self,
        alloc: Global,
        segment: &SharedSegment,
    ) -> Result<Option<Evidence>, AllocError>
        requires ready { IsReady (book_in self.now) }
        requires base { BaseIsOfLog (base_in self.now.base) self.now.log_version }
        requires hidden { exposed (book_in self.now) ≡ false }
        requires of_log { segment.now.segment.log_version ≡ self.now.log_version }
        requires asked { (book_in self.now).stage
            ≡ standing.Wanted segment.now.segment.first (last_of segment.now.segment) }
        ensures { IfOk result (λ e. e ≡ fork_evidence (book_in self.now)
            (versioned_showing segment.now.segment) (segment_marks segment.now.segment)) }
    {
        let Some(number) = self.answer_fork(segment.closed()) else {
            return Ok(None);
        };
        let new = Showing::of_segment(alloc, segment.closed())?;
        self.fork_at(alloc, new, number)
    }

    /// The least number at which a segment that follows on the end shows another mark than the book.
    fn answer_fork(&self, closed: &ClosedSegment) -> Option<Number>
        requires fits { FitsTogether (book_in self.now) }
        requires follows { closed.now.segment.first ≡ self.now.end + 1 }
        ensures { result ≡ answer_fork (book_in self.now) closed.now.segment }
    {
        let segment = closed.segment();
        if is_other_mark(&segment.opening(), self.mark_shown(self.end)) {
            return Some(Number::new(segment.first().get() - 1));
        }
        least_another(self.log_version, closed, &self.learned)
    }

    /// Evidence of a fork: a new showing shows another mark at a number than the book did before.
    fn fork_at(
        &self,
        alloc: Global,
        new: Showing,
        number: Number,
    ) -> Result<Option<Evidence>, AllocError>
        requires fits { FitsTogether (book_in self.now) }
        requires base { BaseIsOfLog (base_in self.now.base) self.now.log_version }
        requires words { HasWordsOf self.now.log_version new }
        ensures { IfOk result (λ e. e ≡ evidence_of (book_in self.now)
            (fork_of (base_in self.now.base) self.now.log_version (book_in self.now).learned
            (book_in self.now).segments new number)) }
    {
        match base_showing(alloc, &self.base, number.get()) {
            Ok(Some(old)) => Ok(self.evidence_of_fork(number, old, Some(new))),
            Ok(None) if number.get() == 0 => {
                Ok(self.evidence_of_fork(Number::new(0), new, None))
            }
            Ok(None) => self.fork_with_kept(alloc, new, number),
            Err(refused) => Err(refused),
        }
    }

    /// Evidence of a fork with what is kept, where no base shows a number that isn't 0.
    fn fork_with_kept(
        &self,
        alloc: Global,
        new: Showing,
        number: Number,
    ) -> Result<Option<Evidence>, AllocError>
        requires fits { FitsTogether (book_in self.now) }
        requires words { HasWordsOf self.now.log_version new }
        ensures { IfOk result (λ e. e ≡ evidence_of (book_in self.now)
            (option_map (λ kept. spec.Fork (record {
              log_version = self.now.log_version;
              at = number;
              a = kept;
              b = Some new;
            })) (kept_before self.now.log_version (book_in self.now).learned
            (book_in self.now).segments number))) }
    {
        match self.showing_kept(alloc, number.get()) {
            Ok(Some(kept)) => Ok(self.evidence_of_fork(number, kept, Some(new))),
            Ok(None) => Ok(None),
            Err(refused) => Err(refused),
        }
    }

    /// What is kept that showed a hash at a number: the learned authenticator with the number, else the
    /// accepted segment that holds it. `AllocError` comes only where a growth was refused.
    fn showing_kept(&self, alloc: Global, number: u64) -> Result<Option<Showing>, AllocError>
        requires fits { FitsTogether (book_in self.now) }
        ensures shown { IfOk result (λ s. s ≡
            kept_before self.now.log_version (book_in self.now).learned (book_in self.now).segments number) }
        ensures words { IfOk result (λ o. IfSome o (HasWordsOf self.now.log_version)) }
    {
        if let Some(authenticator) = learned_at(self.log_version, &self.learned, number) {
            let showing = Showing::of_authenticator(alloc, self.log_version, authenticator)?;
            return Ok(Some(showing));
        }
        let Some(segment) = segment_holding(&self.segments, number) else {
            return Ok(None);
        };
        let showing = Showing::of_segment(alloc, segment.closed())?;
        Ok(Some(showing))
    }

    /// Evidence against the node: a fork of these parts.
    fn evidence_of_fork(&self, at: Number, a: Showing, b: Option<Showing>) -> Option<Evidence>
        requires first { HasWordsOf self.now.log_version a }
        requires second { IfSome b (HasWordsOf self.now.log_version) }
        ensures { result ≡ Some (record {
          node = self.now.node;
          charge = spec.Fork (record { log_version = self.now.log_version; at = at; a = a; b = b });
        }) }
    {
        let log_version = self.log_version;
        Evidence::new(
            self.node,
            Charge::Fork(Fork {
                log_version,
                at,
                a,
                b,
            }),
        )
    }
}

/// A copy of the showing of a base, of a number up to the base's. `AllocError` comes only where a growth was
/// refused.
fn base_showing(
    alloc: Global,
    base: &Option<Arc<Base>>,
    number: u64,
) -> Result<Option<Showing>, AllocError>
    ensures shown { IfOk result (λ s. s ≡ start_showing (base_in base.now) number) }
    ensures words { (v : LogVersion) → BaseIsOfLog (base_in base.now) v →
        IfOk result (λ o. IfSome o (HasWordsOf v)) }
{
    match base {
        Some(base) if number <= base.at().get() => {
            base.has_text();
            let showing = base.showing().try_clone(alloc)?;
            Ok(Some(showing))
        }
        Some(_) | None => Ok(None),
    }
}

/// The least number of some authenticators of a log of this version at which a segment shows another mark.
fn least_another(
    version: LogVersion,
    closed: &ClosedSegment,
    learned: &[Authenticator],
) -> Option<Number>
    ensures { result ≡ least_from version closed.now.segment None learned.now }
{
    let mut least = None;
    for authenticator in learned {
        least = least_with(version, closed, least, authenticator);
    }
    least
}

/// The least number that was found so far, with one authenticator more.
fn least_with(
    version: LogVersion,
    closed: &ClosedSegment,
    least: Option<Number>,
    authenticator: &Authenticator,
) -> Option<Number>
    ensures { result ≡ least_with version closed.now.segment least authenticator.now }
{
    let number = authenticator.word.number(version);
    if is_other_mark(&authenticator.hash, closed.mark_at(number.get())) {
        Some(lesser(least, number))
    } else {
        least
    }
}

/// The lesser of a number that was found, if one was, and another one.
fn lesser(least: Option<Number>, number: Number) -> Number
    ensures { result ≡ lesser least number }
{
    match least {
        Some(least) => {
            if number.get() < least.get() {
                number
            } else {
                least
            }
        }
        None => number,
    }
}

/// Whether a mark was looked up, and it is another one than this hash.
fn is_other_mark(hash: &[u8; 32], shown: Option<Mark>) -> bool
    ensures { result ≡ is_other_hash hash.now (option_map mark_in shown) }
{
    match shown {
        Some(shown) => !shown.is_same(&Mark::Hash(*hash)),
        None => false,
    }
}
