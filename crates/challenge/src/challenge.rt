//! Challenges.

use authenticator::Number;
use envelopes::Envelope;

/// What a node is asked to show (PeerReview, SOSP 2007, section 5.3).
#[derive(Drop)]
pub enum Challenge {
    /// The segment of its log from the first to the last of these numbers.
    Audit { first: Number, last: Number },
    /// That it has this message.
    Send(Envelope),
}
