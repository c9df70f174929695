//! What a line of a script prints.

ghost use Rattle.std.specs.Prelude.{◌≡◌, ◌++◌, codes, IfOk, string_bytes};
ghost use Rattle.authenticator.specs.Numbers.{number_in};
ghost use Rattle.witness_books.specs.node_book.Replies.{indication_in};
ghost use Rattle.scripts.specs.Said.{said_line};
ghost use Rattle.scripts.specs.Turns.{flooded_line, forwarded_words, marked_line, refused_line, told_line};

use authenticator::{Authenticator, LogVersion};
use std::alloc::{AllocError, Global};
use witness_calls::{Outcome, Replayed, Said, Told, indication_word};

/// A line of these words.
pub(crate) fn line_of(alloc: Global, words: &str) -> Result<String, AllocError>
    ensures { IfOk result (λ line. string_bytes line ≡ words.now ++ codes "\n") }
{
    format!(in alloc; "{words}\n")
}

/// The line `refused R`.
pub(crate) fn refused_line(alloc: Global, number: u32) -> Result<String, AllocError>
    ensures { IfOk result (λ line. string_bytes line ≡ refused_line number) }
{
    format!(in alloc; "refused {number}\n")
}

/// The line `flooded T`.
pub(crate) fn flooded_line(alloc: Global, times: u32) -> Result<String, AllocError>
    ensures { IfOk result (λ line. string_bytes line ≡ flooded_line times) }
{
    format!(in alloc; "flooded {times}\n")
}

/// The line `marked K`.
pub(crate) fn marked_line(alloc: Global, number: u64) -> Result<String, AllocError>
    ensures { IfOk result (λ line. string_bytes line ≡ marked_line number) }
{
    format!(in alloc; "marked {number}\n")
}

/// The line of a reply: `reply HEX`, or `no reply`.
pub(crate) fn reply_line(alloc: Global, reply: Option<&[u8]>) -> Result<String, AllocError> {
    match reply {
        Some(bytes) => {
            let digits = hex::encode(alloc, bytes)?;
            format!(in alloc; "reply {digits}\n")
        }
        None => line_of(alloc, "no reply"),
    }
}

/// The line of what a witness said.
pub(crate) fn said_line(alloc: Global, said: &Said) -> Result<String, AllocError>
    ensures { IfOk result (λ line. string_bytes line ≡ said_line said.now) }
{
    match said {
        Said::Noted => line_of(alloc, "noted"),
        Said::Already => line_of(alloc, "already"),
        Said::Opened => line_of(alloc, "opened"),
        Said::Accepted => line_of(alloc, "accepted"),
        Said::Closed => line_of(alloc, "closed"),
        Said::Asked { first, last } => {
            let (first, last) = (first.get(), last.get());
            format!(in alloc; "asked {first} {last}\n")
        }
        Said::Returned => line_of(alloc, "returned"),
        Said::Forwarded(authenticator) => {
            let word = authenticator.word.get();
            format!(in alloc; "forwarded {} {word}\n", authenticator.node)
        }
        Said::Empty => line_of(alloc, "empty"),
        Said::Told(indication) => line_of(alloc, indication_word(*indication)),
        Said::Open(_) => line_of(alloc, "open"),
        Said::EvidenceIs(_) => line_of(alloc, "evidence"),
        Said::Refused(refusal) => refused_line(alloc, refusal.number()),
    }
}

/// The words `forwarded M K`, where K is its number in a log of this version.
fn forwarded_words(
    alloc: Global,
    version: LogVersion,
    authenticator: &Authenticator,
) -> Result<String, AllocError>
    ensures { IfOk result (λ words. string_bytes words
        ≡ forwarded_words authenticator.now.node (number_in version authenticator.now.word)) }
{
    let number = authenticator.word.number(version).get();
    format!(in alloc; "forwarded {} {number} ", authenticator.node)
}

/// The words `forwarded M K`, and after them a line.
pub(crate) fn forwarded_line(
    alloc: Global,
    version: LogVersion,
    authenticator: &Authenticator,
    line: &str,
) -> Result<String, AllocError>
    ensures { IfOk result (λ text. string_bytes text
        ≡ forwarded_words authenticator.now.node (number_in version authenticator.now.word) ++ line.now) }
{
    let mut text = forwarded_words(alloc, version, authenticator)?;
    text.push_str(line)?;
    Ok(text)
}

/// The line of what a witness says of a node: `N INDICATION OPEN`.
pub(crate) fn told_line(alloc: Global, told: &Told) -> Result<String, AllocError>
    ensures { IfOk result (λ line. string_bytes line
        ≡ told_line told.now.node (indication_in told.now.indication) told.now.open) }
{
    let word = told.word();
    format!(in alloc; "{} {word} {}\n", told.node, told.open)
}

/// The line of a replay: `N sound`, or `N fault KIND AT`.
fn replayed_line(alloc: Global, replayed: &Replayed) -> Result<String, AllocError> {
    match replayed.outcome {
        Outcome::Sound => format!(in alloc; "{} sound\n", replayed.node),
        Outcome::Fault(fault, at) => {
            let (kind, at) = (fault.number(), at.get());
            format!(in alloc; "{} fault {kind} {at}\n", replayed.node)
        }
    }
}

/// A line for each replay of a round; `idle` where there was none.
pub(crate) fn round_text(alloc: Global, round: &[Replayed]) -> Result<String, AllocError> {
    if round.is_empty() {
        return line_of(alloc, "idle");
    }
    let mut text = String::new(alloc);
    for replayed in round {
        let line = replayed_line(alloc, replayed)?;
        text.push_str(&line)?;
    }
    Ok(text)
}
