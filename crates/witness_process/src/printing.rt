//! Lines on standard output.

ghost use Rattle.std.specs.Prelude.{◌≡◌, IfOk, None, string_bytes};
ghost use Rattle.witness_process.specs.Lines.{BeginsLine, IsLineOf};

use crate::context::Context;
use crate::due::Saying;
use crate::evidence::shown_in;
use crate::times::time_at;
use std::alloc::{AllocError, Global};
use std::io::Write;
use std::sync::Wait;
use std::time::Clock;
use watching::Shelf;

/// The most lines that are said one after the other before something else is done.
const MAX_LINES: u32 = 1024;

/// Says the lines that are due.
pub(crate) fn say_due<R, T, W, E, S>(context: Context<'_, R, T, W, E, S>)
where
    R: Wait,
    T: Clock,
    W: Write,
    E: Write,
    S: Shelf,
{
    for _ in 0..MAX_LINES {
        let Some(saying) = context.lock().take_due(context.settings.patience) else {
            return;
        };
        say(context, &saying);
    }
}

/// Says a line of a node. Of one that is exposed the evidence is put in its place before.
fn say<R, T, W, E, S>(context: Context<'_, R, T, W, E, S>, saying: &Saying)
where
    R: Wait,
    T: Clock,
    W: Write,
    E: Write,
    S: Shelf,
{
    let line = match shown_in(context, &saying.told) {
        Ok(name) => whole_line(context.alloc, saying, name),
        Err(AllocError) => Err(AllocError),
    };
    say_line(context, line);
}

/// Says a line, with the time in front.
pub(crate) fn say_line<R, T, W, E, S>(
    context: Context<'_, R, T, W, E, S>,
    line: Result<String, AllocError>,
)
where
    R: Wait,
    T: Clock,
    W: Write,
    E: Write,
{
    let time = context.lock().time();
    let line = match line {
        Ok(line) => timed_line(context.alloc, time, &line),
        Err(AllocError) => Err(AllocError),
    };
    context.output.lock(context.rt).line(line);
}

/// A line of a node, and where the evidence is, if it was put anywhere.
#[tactic(auto, using(crate::proofs::OfLines::begins, crate::proofs::OfLines::longer))]
fn whole_line(alloc: Global, saying: &Saying, name: Option<String>) -> Result<String, AllocError>
    ensures begins { IfOk result (λ line. BeginsLine saying.now (string_bytes line)) }
    ensures alone { name ≡ None → IfOk result (λ line. IsLineOf saying.now (string_bytes line)) }
{
    let mut line = saying.line(alloc)?;
    if let Some(name) = name {
        line.push_str(": ")?;
        line.push_str(&name)?;
    }
    Ok(line)
}

/// A line with the time in front, so many seconds after 1970 began, and a line feed at its end.
fn timed_line(alloc: Global, time: u64, line: &str) -> Result<String, AllocError> {
    match time_at(time) {
        Some(time) => format!(in alloc; "{time} {line}\n"),
        None => format!(in alloc; "{line}\n"),
    }
}
