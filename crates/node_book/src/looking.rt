//! What a book looks up.

ghost use Rattle.std.specs.Prelude.{◌≡◌, ◌==◌, ◌<◌, ◌≤◌, nat_lt, length, find, option_map, false};
ghost use Rattle.witness_spec.specs.Exposing.{segment_holding};
ghost use Rattle.secure_log.specs.Marks.{mark_in};
ghost use Rattle.witness_spec.specs.Pairs.{last_of, number_of, pair_of, is_shown, is_fork};
ghost use Rattle.witness_book_laws.specs.Books.{book_shown, exposed};
ghost use Rattle.witness_book_laws.specs.Fitting.{FitsTogether};
ghost use Rattle.witness_book_laws.specs.LookUps.{base_mark_at, hash_shown};
ghost use Rattle.witness_book_laws.specs.Ready.{IsReady};
ghost use Rattle.node_book.specs.Rows.{base_in, book_in, segments_in};
ghost use Rattle.node_book.specs.Looking.{FollowOn, count_ended, hash_kept, is_another, is_the_same};

use crate::rows::Rows;
use authenticator::{Authenticator, LogVersion};
use challenge::Base;
use replay_jobs::SharedSegment;
use secure_log::Mark;
use std::sync::Arc;

/// What a book shows at an authenticator's number: its hash, another mark, or nothing.
#[derive(Clone, Copy)]
pub(crate) enum ShownHash {
    Same,
    Another,
    Nothing,
}

impl Rows {
    /// The mark that the book shows at a number: the base's, if it has one there, else that of what is kept.
    /// No memory is taken. Where the number lies between the base's first and its own, the base's links up to
    /// there are hashed.
    pub(crate) fn mark_shown(&self, number: u64) -> Option<Mark>
        requires { FitsTogether (book_in self.now) }
        ensures { option_map mark_in result ≡ hash_shown (book_in self.now) number }
    {
        match base_mark(&self.base, number) {
            Some(mark) => Some(mark),
            None => self.mark_kept(number),
        }
    }

    /// The mark of what is kept at a number: zeros at 0, else that in the accepted segment that holds the
    /// number, else the hash of the learned authenticator with the number. It looks at the logarithm of how
    /// many segments and entries there are, or besides at each learned authenticator; nothing is hashed, and
    /// no memory taken.
    #[tactic(auto, unfolding(secure_log::specs::LogEntries::Chain::zeros))]
    fn mark_kept(&self, number: u64) -> Option<Mark>
        requires { FitsTogether (book_in self.now) }
        ensures { option_map mark_in result ≡ hash_kept (book_in self.now) number }
    {
        if number == 0 {
            return Some(Mark::Hash([0; 32]));
        }
        match segment_holding(&self.segments, number) {
            Some(segment) => segment.closed().mark_at(number),
            None => learned_hash(self.log_version, &self.learned, number),
        }
    }

    /// What the book shows at an authenticator's number, by one look-up.
    pub(crate) fn knows(&self, authenticator: &Authenticator) -> ShownHash
        requires ready { IsReady (book_in self.now) }
        requires hidden { exposed (book_in self.now) ≡ false }
        ensures same { is_shown (pair_of self.now.log_version authenticator.now) (book_shown (book_in self.now))
            ≡ is_the_same result }
        ensures another { is_fork (pair_of self.now.log_version authenticator.now) (book_shown (book_in self.now))
            ≡ is_another result }
    {
        let number = authenticator.word.number(self.log_version);
        let Some(mark) = self.mark_shown(number.get()) else {
            return ShownHash::Nothing;
        };
        if mark.is_same(&Mark::Hash(authenticator.hash)) {
            ShownHash::Same
        } else {
            ShownHash::Another
        }
    }
}

/// The mark of a base at a number, if there is a base and it has one there.
fn base_mark(base: &Option<Arc<Base>>, number: u64) -> Option<Mark>
    ensures { option_map mark_in result ≡ base_mark_at (base_in base.now) number }
{
    match base {
        Some(base) => base.mark_at(number),
        None => None,
    }
}

/// How many segments, which follow on one another, end before a number.
fn count_ended(segments: &[SharedSegment], number: u64) -> usize
    requires { FollowOn (segments_in segments.now) }
    ensures count { result ≡ count_ended number (segments_in segments.now) }
    ensures few { result ≤ length segments.now }
{
    segments.partition_point(
        |shared: &SharedSegment| -> bool
            ensures { result ≡ nat_lt (last_of shared.now.segment) number }
        {
            let segment = shared.closed().segment();
            segment.closing().word.number(segment.log_version()).get() < number
        },
    )
}

/// The segment that holds a number, of some that follow on one another.
pub(crate) fn segment_holding(segments: &[SharedSegment], number: u64) -> Option<&SharedSegment>
    requires { FollowOn (segments_in segments.now) }
    ensures { option_map (λ s. s.now.segment) result ≡ segment_holding number (segments_in segments.now) }
{
    let count = count_ended(segments, number);
    if segments.len() <= count {
        return None;
    }
    let next = &segments[count];
    if next.closed().segment().first().get() <= number {
        Some(next)
    } else {
        None
    }
}

/// The authenticator with a number, of some of a log of this version.
pub(crate) fn learned_at(
    version: LogVersion,
    learned: &[Authenticator],
    number: u64,
) -> Option<&Authenticator>
    ensures { option_map (λ a. a.now) result ≡ find (λ a. number_of version a == number) learned.now }
{
    for authenticator in learned {
        if authenticator.word.number(version).get() == number {
            return Some(authenticator);
        }
    }
    None
}

/// The hash of the authenticator with a number, of some of a log of this version.
fn learned_hash(version: LogVersion, learned: &[Authenticator], number: u64) -> Option<Mark>
    ensures { option_map mark_in result
        ≡ option_map (λ a. a.hash) (find (λ a. number_of version a == number) learned.now) }
{
    let authenticator = learned_at(version, learned, number)?;
    Some(Mark::Hash(authenticator.hash))
}
