//! Text that a terminal can show.

ghost use Rattle.std.specs.Prelude.{◌≡◌, IsTrue};
ghost use Rattle.shown_names.specs.Names.{is_printed};
ghost use Rattle.explain.specs.Shown.{IsShown, is_shown};

use std::alloc::{AllocError, Global};
use std::marker::Model;

/// Text of printed characters of ASCII, and ends of lines.
#[derive(Drop)]
pub struct Text {
    bytes: Vec<u8>,
}

impl Model for Text {
    ghost use Rattle.std.specs.Prelude.{ℕ, List};
    ghost use Rattle.explain.specs.Shown.{IsShown};

    ghost Value = { List ℕ };

    ghost view = { λ t. t.bytes.items };

    ghost invariant = { λ t. IsShown t.bytes.items };
}

impl Text {
    /// The empty text.
    pub(crate) fn new(alloc: Global) -> Text {
        Text {
            bytes: Vec::new(alloc),
        }
    }

    /// Its bytes: nothing that a terminal would take for a command.
    pub fn as_bytes(&self) -> &[u8]
        ensures bytes { result.now ≡ self.now }
        ensures shown { IsShown result.now }
    {
        &self.bytes
    }

    /// Appends a byte, or `?` where it is no printed character.
    pub(crate) fn put(&mut self, byte: u8) -> Result<(), AllocError> {
        self.bytes.push(shown(byte))?;
        Ok(())
    }

    /// Ends a line.
    pub(crate) fn end_line(&mut self) -> Result<(), AllocError> {
        self.bytes.push(b'\n')?;
        Ok(())
    }
}

/// Whether a byte is a printed character of ASCII, or a blank.
pub(crate) fn is_printed(byte: u8) -> bool
    ensures { result ≡ is_printed byte }
{
    byte > 31 && byte < 127
}

/// A byte, or `?` where it is no printed character.
fn shown(byte: u8) -> u8
    ensures { IsTrue (is_shown result) }
{
    if is_printed(byte) { byte } else { b'?' }
}
