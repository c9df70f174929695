//! Reading a script line by line.

ghost use Rattle.std.specs.Prelude.{◌≡◌};
ghost use Rattle.std.specs.Io.KnownBytes.{IsAtEnd};

use std::alloc::Global;
use std::io::Read;

/// The most bytes of a line. The longest that is good, a `fork` of two bodies of `MAX_BODY` bytes, has fewer.
const MAX_LINE: usize = 65536;

/// The next line of a script, or why there is none.
#[derive(Clone, Copy)]
pub(crate) enum Next {
    /// There is a line.
    Line,
    /// There is one, which has more bytes than any that is good, and isn't read to its end.
    TooLong,
    /// The script is at its end.
    End,
    /// A read failed.
    Device,
    /// A growth was refused.
    NoMemory,
}

/// Reads the next line into `line`, without its line feed, in place of what `line` was. The last line may
/// lack a line feed. No byte after the line is read.
pub(crate) fn next_line<R: Read>(reader: &mut R, line: &mut Vec<u8>) -> Next
    ensures { result ≡ Next.End → IsAtEnd (R.remaining reader.new) }
{
    line.clear();
    let mut byte = [0];
    for _ in 0..=MAX_LINE {
        match reader.read(&mut byte) {
            Err(_) => return Next::Device,
            Ok(0) if line.is_empty() => return Next::End,
            Ok(0) => return Next::Line,
            Ok(_) if byte[0] == b'\n' => return Next::Line,
            Ok(_) => {}
        }
        if line.push(byte[0]).is_err() {
            return Next::NoMemory;
        }
    }
    Next::TooLong
}

/// Reads on to the end of a line that is passed over, whatever its length, and keeps nothing of it: `Line`
/// after its line feed, `End` where the script ends first. No byte after the line is read.
pub(crate) fn pass_line<R: Read>(reader: &mut R) -> Next {
    let mut byte = [0];
    for _ in 0..u64::MAX {
        match reader.read(&mut byte) {
            Err(_) => return Next::Device,
            Ok(0) => return Next::End,
            Ok(_) if byte[0] == b'\n' => return Next::Line,
            Ok(_) => {}
        }
    }
    Next::TooLong
}
