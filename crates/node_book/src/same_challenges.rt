//! Whether challenges are the same.

ghost use Rattle.std.specs.Prelude.{◌≡◌, ◌↔◌, IsTrue};

use authenticator::Signs;
use challenge::Challenge;

/// Whether two challenges are the same: the same numbers, or the same envelope. It compares
/// bytes, and takes no memory.
pub(crate) fn is_same_challenge(own: &Challenge, other: &Challenge) -> bool
    ensures { IsTrue result ↔ (own.now ≡ other.now) }
{
    match (own, other) {
        (
            Challenge::Audit { first, last },
            Challenge::Audit {
                first: from,
                last: to,
            },
        ) => *first == *from && *last == *to,
        (Challenge::Send(own), Challenge::Send(other)) => own.is_same(other),
        _ => false,
    }
}

/// Whether two lists have the same challenges in the same order. Takes no memory.
pub(crate) fn are_same_challenges(own: &[Challenge], others: &[Challenge]) -> bool
    ensures { IsTrue result ↔ (own.now ≡ others.now) }
{
    if own.len() != others.len() {
        return false;
    }
    for place in 0..own.len() {
        if !is_same_challenge(&own[place], &others[place]) {
            return false;
        }
    }
    true
}
