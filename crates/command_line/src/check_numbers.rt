//! The number in what `check` is asked.

ghost use Rattle.std.specs.Prelude.{IfErr, IfOk, option_map};
ghost use Rattle.command_line.specs.CheckNumbers.{AsksState};
ghost use Rattle.command_line.specs.ServeOrders.{IsNotWithin};

use crate::request::CheckRequest;
use crate::serve_numbers::number_within;
use thiserror::Error;

/// The greatest number of an entry before which there may be a state: one more than the greatest number of a
/// log's last entry, of 65,536 entries with 64 numbers skipped before each.
const MOST_ENTRY: u32 = 4_259_841;

/// Why what `check` is asked names no entry: `--state` is no decimal number from 1 to 4,259,841.
#[derive(Clone, Copy, Debug, PartialEq, Eq, Error)]
#[error("--state is a number from 1 to 4259841")]
pub struct StateRefusal;

/// The number of the entry before which `check` is to show the state, if it is asked to. It is refused where
/// the option's word is no decimal number from 1 to 4,259,841.
pub fn state_number(request: &CheckRequest<'_>) -> Result<Option<u32>, StateRefusal>
    ensures ok { IfOk result (AsksState (option_map (λ s. s.now) request.now.state)) }
    ensures err { IfErr result (λ _. IsNotWithin 1 4259841 (option_map (λ s. s.now) request.now.state)) }
{
    let Some(word) = request.state else {
        return Ok(None);
    };
    match number_within(word, 1, MOST_ENTRY) {
        Some(number) => Ok(Some(number)),
        None => Err(StateRefusal),
    }
}
