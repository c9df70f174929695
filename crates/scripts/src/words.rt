//! The words of a line.

use hex::FromHexError;
use secure_log::log_entries::{Body, MAX_BODY};
use std::alloc::{AllocError, Global};

/// Why words aren't a line of a script.
#[derive(Clone, Copy)]
pub(crate) enum LineFault {
    /// They are none.
    Bad,
    /// A growth was refused.
    NoMemory,
}

/// The words of a line that are left: they stand with one space between.
#[derive(Drop)]
pub(crate) struct Words<'a> {
    rest: Option<&'a str>,
}

impl<'a> Words<'a> {
    /// The words of a line.
    pub(crate) fn new(line: &'a str) -> Words<'a> {
        Words { rest: Some(line) }
    }

    /// The next word. An empty one, as a space at either end or two in a row make it, is bad, and so is one
    /// with a character below the space.
    pub(crate) fn word(&mut self) -> Result<&'a str, LineFault> {
        let rest = self.rest.ok_or(LineFault::Bad)?;
        let word = match rest.split_once(' ') {
            Some((word, more)) => {
                self.rest = Some(more);
                word
            }
            None => {
                self.rest = None;
                rest
            }
        };
        if is_word(word.as_bytes()) {
            Ok(word)
        } else {
            Err(LineFault::Bad)
        }
    }

    /// The next word as a number below 2^32: decimal, without leading zeros.
    pub(crate) fn number(&mut self) -> Result<u32, LineFault> {
        let word = self.word()?;
        if !is_decimal(word.as_bytes()) {
            return Err(LineFault::Bad);
        }
        word.parse::<u32>().map_err(|_| LineFault::Bad)
    }

    /// The next word as a number between two others.
    pub(crate) fn number_within(&mut self, least: u32, most: u32) -> Result<u32, LineFault> {
        let number = self.number()?;
        if least <= number && number <= most {
            Ok(number)
        } else {
            Err(LineFault::Bad)
        }
    }

    /// The next word as a message's body: two lower-case hexadecimal digits a byte, at least one byte, and at
    /// most `MAX_BODY`.
    pub(crate) fn body(&mut self, alloc: Global) -> Result<Body, LineFault> {
        let word = self.word()?;
        if !word.as_bytes().iter().all(|digit| is_lower_digit(*digit)) {
            return Err(LineFault::Bad);
        }
        match hex::decode(alloc, word.as_bytes()) {
            Ok(bytes) if bytes.len() <= MAX_BODY as usize => Ok(Body::new(bytes)),
            Ok(_) => Err(LineFault::Bad),
            Err(FromHexError::OutOfMemory) => Err(LineFault::NoMemory),
            Err(_) => Err(LineFault::Bad),
        }
    }

    /// That no word is left.
    pub(crate) fn end(&self) -> Result<(), LineFault> {
        match self.rest {
            None => Ok(()),
            Some(_) => Err(LineFault::Bad),
        }
    }
}

/// Whether bytes are a word: there are some, and none is a space or a control character.
fn is_word(bytes: &[u8]) -> bool {
    !bytes.is_empty() && bytes.iter().all(|byte| b' ' < *byte && *byte != 0x7f)
}

/// Whether a word is a decimal number without leading zeros.
fn is_decimal(word: &[u8]) -> bool {
    let leads = word.len() > 1 && word[0] == b'0';
    !leads && word.iter().all(u8::is_ascii_digit)
}

/// Whether a byte is a lower-case hexadecimal digit.
fn is_lower_digit(byte: u8) -> bool {
    matches!(byte, b'0'..=b'9' | b'a'..=b'f')
}
