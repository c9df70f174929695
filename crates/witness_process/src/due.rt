//! Which line is due.

ghost use Rattle.std.specs.Prelude.{◌≡◌, ◌↔◌, IfOk, IfSome, IsNone, IsTrue, string_bytes};
ghost use Rattle.witness_process.specs.Lines.{IsDue, IsLineOf, IsSaid, IsUntouched, saying_of, seconds_open};

use crate::opened::{OpenChallenge, Wanted};
use std::alloc::{AllocError, Global};
use watching::NodeTold;
use witness_books::Indication;

/// What a line says of a node.
#[derive(Clone, Copy, Debug)]
pub(crate) struct Saying {
    /// What the books told.
    pub(crate) told: NodeTold,
    /// The oldest challenge that is open, where the node is suspected.
    pub(crate) oldest: Option<OpenChallenge>,
}

/// The line that is due of a node: of what the books told, of the oldest challenge that is open and for how many
/// seconds it has been, and of what was said last. Nothing is due of a node that is suspected unless that challenge has
/// been open for more seconds than `patience`; nor is a line that was said last. Where nothing was said yet, that is
/// `trusted 0 to 0`.
pub(crate) fn line_due(
    told: &NodeTold,
    oldest: Option<OpenChallenge>,
    seconds: u64,
    patience: u32,
    last: Option<Saying>,
) -> Option<Saying>
    ensures due { IfSome result (λ s. (s ≡ saying_of told.now oldest) × IsDue told.now oldest seconds patience last) }
    ensures none { IsNone result → IsDue told.now oldest seconds patience last → ⊥ }
{
    if told.indication == Indication::Suspected && seconds <= u64::from(patience) {
        return None;
    }
    let saying = saying_of(told, oldest);
    if is_said(last, &saying) {
        None
    } else {
        Some(saying)
    }
}

/// For how many seconds the oldest challenge that is open has been, 0 where none is.
pub(crate) fn seconds_open(oldest: Option<OpenChallenge>, time: u64) -> u64
    ensures { result ≡ seconds_open oldest time }
{
    match oldest {
        Some(oldest) => time.saturating_sub(oldest.since),
        None => 0,
    }
}

/// What is to be said.
fn saying_of(told: &NodeTold, oldest: Option<OpenChallenge>) -> Saying
    ensures { result ≡ saying_of told.now oldest }
{
    let oldest = match told.indication {
        Indication::Suspected => oldest,
        Indication::Trusted | Indication::Exposed => None,
    };
    Saying {
        told: *told,
        oldest,
    }
}

/// Whether it is what was said last.
fn is_said(last: Option<Saying>, saying: &Saying) -> bool
    ensures { IsTrue result ↔ IsSaid last saying.now }
{
    match last {
        Some(last) => is_same(&last, saying),
        None => is_untouched(&saying.told),
    }
}

/// Whether two lines say the same.
fn is_same(one: &Saying, other: &Saying) -> bool
    ensures { IsTrue result ↔ (one.now ≡ other.now) }
{
    is_same_told(&one.told, &other.told) && one.oldest == other.oldest
}

/// Whether the same was told.
fn is_same_told(one: &NodeTold, other: &NodeTold) -> bool
    ensures { IsTrue result ↔ (one.now ≡ other.now) }
{
    one.node == other.node
        && one.indication == other.indication
        && one.open == other.open
        && one.from == other.from
        && one.end == other.end
}

/// Whether it is what is told of a node of which nothing is known.
fn is_untouched(told: &NodeTold) -> bool
    ensures { IsTrue result ↔ IsUntouched told.now }
{
    told.indication == Indication::Trusted && told.open == 0 && told.end == 0
}

impl Saying {
    /// The line, without a time and without a line feed, as in
    /// `1 suspected 1 to 4096: asked for 4097 to 8190 since 10:00:02`.
    #[tactic(auto, using(crate::proofs::OfLines::with_oldest))]
    pub(crate) fn line(&self, alloc: Global) -> Result<String, AllocError>
        ensures { IfOk result (λ line. IsLineOf self.now (string_bytes line)) }
    {
        let mut line = self.told.line(alloc)?;
        if let Some(oldest) = &self.oldest {
            line.push_str(": ")?;
            let since = since_text(alloc, oldest)?;
            line.push_str(&since)?;
        }
        Ok(line)
    }
}

/// What is asked for, and since when.
fn since_text(alloc: Global, oldest: &OpenChallenge) -> Result<String, AllocError> {
    let second = oldest.since % 86_400;
    let (hour, minute, second) = (second / 3_600, second / 60 % 60, second % 60);
    match oldest.wanted {
        Wanted::Segment { first, last } => {
            format!(in alloc; "asked for {first} to {last} since {hour:02}:{minute:02}:{second:02}")
        }
        Wanted::Message(_) => {
            format!(in alloc;
                "asked to acknowledge a message since {hour:02}:{minute:02}:{second:02}"
            )
        }
    }
}
