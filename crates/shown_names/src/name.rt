//! A name as it is shown.

ghost use Rattle.std.specs.Prelude.{◌≡◌, ◌<◌, Some};
ghost use Rattle.std.specs.Char.{digit_char};
ghost use Rattle.shown_names.specs.Names.{shown_byte, shown_name};
ghost use Rattle.shown_names.specs.Shown.{name_of};

use std::fmt;

/// A name of a file, or another word that the program was given. Its `Display` is one line of printed ASCII,
/// whatever it has: a backslash stands as `\\`, and a byte that is no printed character of ASCII as `\x` with
/// two lower-case hexadecimal digits, as a line feed `\x0a`. Each other byte stands for itself, and two
/// quotes for an empty name.
#[derive(Clone, Copy, Debug)]
pub struct ShownName<'a> {
    name: &'a str,
}

impl<'a> ShownName<'a> {
    /// The name to be shown. Takes no memory.
    pub fn new(name: &'a str) -> ShownName<'a>
        ensures { name_of result ≡ name.now }
    {
        ShownName { name }
    }
}

impl fmt::Display for ShownName<'_> {
    ghost output = { λ shown. Some (shown_name (name_of shown)) };

    fn fmt<W: fmt::Write>(&self, f: &mut fmt::Formatter<W>) -> fmt::Result {
        if self.name.is_empty() {
            return f.write_str("''");
        }
        for byte in self.name.as_bytes() {
            f.write(ShownByte(*byte))?;
        }
        Ok(())
    }
}

/// A byte of a name.
#[derive(Clone, Copy)]
struct ShownByte(u8);

impl fmt::Display for ShownByte {
    ghost output = { λ byte. Some (shown_byte byte.0) };

    fn fmt<W: fmt::Write>(&self, f: &mut fmt::Formatter<W>) -> fmt::Result {
        let byte = self.0;
        match byte {
            b'\\' => f.write_str("\\\\"),
            b' '..=b'~' => f.write_char(char::from(byte)),
            _ => {
                f.write_str("\\x")?;
                f.write_char(char::from(digit(byte / 16)))?;
                f.write_char(char::from(digit(byte % 16)))
            }
        }
    }
}

/// The character of a hexadecimal digit.
fn digit(value: u8) -> u8
    requires { value < 16 }
    ensures { result ≡ digit_char value }
{
    if value < 10 {
        b'0' + value
    } else {
        b'a' + (value - 10)
    }
}
