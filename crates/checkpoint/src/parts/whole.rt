//! Whole texts of states.

ghost use Rattle.std.specs.Prelude.{◌≡◌, Some, IfOk, IfErr};
ghost use Rattle.xdr.specs.Item.{Fits};
ghost use Rattle.xdr.specs.Texts.Text.{text_at};
ghost use Rattle.state_spec.specs.server_spec.FileItems.{file_item};
ghost use Rattle.state_spec.specs.StateItems.{state_item};
ghost use Rattle.state_spec.specs.StateText.{spelled_text, IsGarbage};
ghost use Rattle.checkpoint.specs.Parts.SaidParts.{state_said};
ghost use Rattle.checkpoint.specs.Parts.Bounds.{AreBounded};
ghost use Rattle.checkpoint.specs.declared.parts.whole.PartsFault.TheVariants.{Garbage};

use crate::parts::parts::StatePart;
use std::alloc::Global;
use thiserror::Error;
use xdr::texts::{FromText, TextFault, read_text};
use xdr::{FromXdr, ReadFault, Reader};

/// Why bytes could not be read as the text of a state.
#[derive(Debug, Drop, Error)]
pub enum PartsFault {
    #[error("out of memory")]
    NoMemory,
    /// They aren't spelled as a state is: another version, an unknown kind, stage or file type, a count or
    /// length above its bound, or something after the text.
    #[error("the bytes are not spelled as a state is")]
    Garbage,
}

impl<'a> FromText<'a> for StatePart<'a> {
    ghost text = { spelled_text };

    ghost value = { state_said };

    fn read_front(alloc: Global, reader: &mut Reader<'a>) -> Result<StatePart<'a>, ReadFault> {
        StatePart::read(alloc, reader)
    }

    fn has_text(&self) -> bool {
        true
    }
}

/// The parts of the text that the bytes are. `Garbage` comes exactly where they are spelled as no state is,
/// `NoMemory` only where a growth was refused. No count is taken on trust: memory is asked for as items are
/// read, so it stays within a multiple of the bytes.
pub fn read_parts<'a>(alloc: Global, bytes: &'a [u8]) -> Result<StatePart<'a>, PartsFault>
    ensures said { IfOk result (λ parts. text_at spelled_text bytes.now ≡ Some (state_said parts)) }
    ensures fits { IfOk result (λ parts. Fits (state_item file_item) (state_said parts)) }
    ensures bounds { IfOk result (λ parts. AreBounded parts) }
    ensures refused { IfErr result (λ error. error ≡ Garbage → IsGarbage bytes.now) }
{
    match read_text(alloc, bytes) {
        Ok(parts) => Ok(parts),
        Err(TextFault::NoMemory) => Err(PartsFault::NoMemory),
        Err(TextFault::NotAText) => Err(PartsFault::Garbage),
    }
}
