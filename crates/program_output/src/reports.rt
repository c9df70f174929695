//! What is said on standard error where a command comes to no end, and the status for it.

ghost use Rattle.std.specs.Prelude.{◌≡◌, ◌⊎◌};

use crate::statuses::{DEVICE, NO_MEMORY};
use shown_names::ShownName;
use std::io;

/// How a line names standard output.
const STANDARD_OUTPUT: &str = "standard output";

/// Says what is wrong with a file: 4, or 3 where that is want of memory.
pub fn report_file(rt: &impl Eprint, name: &str, error: &io::Error) -> u8
    ensures { (result ≡ 3) ⊎ (result ≡ 4) }
{
    if error.kind() == io::ErrorKind::OutOfMemory {
        return report_no_memory(rt);
    }
    let name = ShownName::new(name);
    let _ = eprintln!(rt; "nfsacc: {name}: {error}");
    DEVICE
}

/// Says this of a file or a folder, and gives this status.
pub fn report_name(rt: &impl Eprint, name: &str, words: &str, status: u8) -> u8
    ensures { result ≡ status }
{
    let name = ShownName::new(name);
    let _ = eprintln!(rt; "nfsacc: {name}: {words}");
    status
}

/// Says this, and gives this status.
pub fn report_words(rt: &impl Eprint, words: &str, status: u8) -> u8
    ensures { result ≡ status }
{
    let _ = eprintln!(rt; "nfsacc: {words}");
    status
}

/// Says that standard output takes no more, and why: where no error was answered, a write took nothing. 4, or
/// 3 where that is want of memory.
pub fn report_output(rt: &impl Eprint, error: Option<io::Error>) -> u8
    ensures { (result ≡ 3) ⊎ (result ≡ 4) }
{
    match error {
        Some(error) => report_file(rt, STANDARD_OUTPUT, &error),
        None => {
            let _ = eprintln!(rt; "nfsacc: {STANDARD_OUTPUT}: a write took nothing");
            DEVICE
        }
    }
}

/// Says that memory was refused: 3.
pub fn report_no_memory(rt: &impl Eprint) -> u8
    ensures { result ≡ 3 }
{
    let _ = rt.eprintln("nfsacc: out of memory");
    NO_MEMORY
}
