//! The words of the command line.

use clap::error::ErrorKind;
use command_line::parse;
use program_output::{COMMAND_LINE, DEVICE, report_no_memory, report_output};
use shown_names::ShownName;
use std::alloc::{AllocError, Global};
use std::rt::Env;
use std::{env, io};

/// The words of the command line, or the status where there are none to be had.
pub fn words_of<R: Env + Eprint + AllocGlobal>(rt: &R) -> Result<Vec<String>, u8> {
    let args = match env::args(rt) {
        Ok(args) => args,
        Err(error) if error.kind() == io::ErrorKind::OutOfMemory => {
            return Err(report_no_memory(rt));
        }
        Err(_) => {
            let _ = rt.eprintln("nfsacc: the command line is no text");
            return Err(COMMAND_LINE);
        }
    };
    args.collect::<Vec<String>>(rt.alloc())
        .map_err(|_| report_no_memory(rt))
}

/// The status of a command line that asks for nothing that there is, or for help. What is said of it has some
/// of its words; where one of them isn't shown as it is, the same is said of the words as they are shown.
pub fn report_parse<R>(rt: &R, words: &[String], error: &clap::Error) -> u8
where
    R: Print + Eprint + AllocGlobal,
{
    if error.kind() == ErrorKind::OutOfMemory {
        return report_no_memory(rt);
    }
    if words.iter().all(|word| is_plain(word.as_str())) {
        return print_error(rt, error);
    }
    match shown_words(rt.alloc(), words) {
        Ok(shown) => match parse(rt.alloc(), shown.as_slice()) {
            Err(error) if error.kind() == ErrorKind::OutOfMemory => report_no_memory(rt),
            Err(error) => print_error(rt, &error),
            Ok(_) => {
                let _ = rt.eprintln("nfsacc: the command line asks for nothing that there is");
                COMMAND_LINE
            }
        },
        Err(AllocError) => report_no_memory(rt),
    }
}

/// Prints what is said of a command line, and gives the status for it.
fn print_error<R: Print + Eprint>(rt: &R, error: &clap::Error) -> u8 {
    let status = error.exit_code();
    match error.print(rt) {
        Ok(()) if status == 0 => 0,
        Ok(()) => COMMAND_LINE,
        Err(error) if status == 0 => report_output(rt, Some(error)),
        Err(_) => DEVICE,
    }
}

/// Whether a word is shown as it is.
fn is_plain(word: &str) -> bool {
    word.as_bytes()
        .iter()
        .all(|byte| matches!(byte, b' '..=b'[' | b']'..=b'~'))
}

/// Words as they are shown, except that one without bytes stays so.
fn shown_words(alloc: Global, words: &[String]) -> Result<Vec<String>, AllocError> {
    let mut shown = Vec::new(alloc);
    for word in words {
        if word.is_empty() {
            shown.push(String::new(alloc))?;
        } else {
            let name = ShownName::new(word.as_str());
            shown.push(format!(in alloc; "{name}")?)?;
        }
    }
    Ok(shown)
}
