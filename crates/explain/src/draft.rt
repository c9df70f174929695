//! Texts that are being written.

use crate::text::{Text, is_printed};
use std::alloc::{AllocError, Global};

/// The digits of a byte.
static DIGITS: [u8; 16] = *b"0123456789abcdef";

/// A text that is being written. Once memory is refused nothing more is appended, and no text comes of it.
#[derive(Drop)]
pub struct Draft {
    text: Text,
    /// Whether memory was refused.
    is_refused: bool,
}

impl Draft {
    /// Nothing, where memory was refused already or wasn't.
    pub(crate) fn new(alloc: Global, is_refused: bool) -> Draft {
        Draft {
            text: Text::new(alloc),
            is_refused,
        }
    }

    /// The text. `AllocError` comes where a growth was refused.
    pub(crate) fn finish(self) -> Result<Text, AllocError> {
        if self.is_refused {
            return Err(AllocError);
        }
        Ok(self.text)
    }

    /// Appends a byte, or `?` where it is no printed character.
    fn put(&mut self, byte: u8) {
        self.is_refused = self.is_refused || self.text.put(byte).is_err();
    }

    /// Ends a line.
    pub(crate) fn end_line(&mut self) {
        self.is_refused = self.is_refused || self.text.end_line().is_err();
    }

    /// Appends bytes, `?` for each that is no printed character.
    fn all(&mut self, bytes: &[u8]) {
        for byte in bytes {
            self.put(*byte);
        }
    }

    /// Appends words of the program's own.
    pub fn words(&mut self, words: &str) {
        self.all(words.as_bytes());
    }

    /// Appends another text.
    pub(crate) fn text(&mut self, text: &Text) {
        self.all(text.as_bytes());
    }

    /// Appends a number in decimal digits.
    pub fn number(&mut self, number: u64) {
        let mut digits = [b'0'; 20];
        let mut rest = number;
        for at in (0..20).rev() {
            digits[at] = DIGITS[(rest % 10) as usize];
            rest /= 10;
        }
        self.digits(&digits);
    }

    /// Appends a number in octal digits after a 0, and says that they are.
    pub(crate) fn octal(&mut self, number: u32) {
        if number != 0 {
            self.put(b'0');
        }
        let mut digits = [b'0'; 11];
        let mut rest = number;
        for at in (0..11).rev() {
            digits[at] = DIGITS[(rest % 8) as usize];
            rest /= 8;
        }
        self.digits(&digits);
        self.words(" (octal)");
    }

    /// Appends digits without the zeros before the first other one; `0` where there is none.
    fn digits(&mut self, digits: &[u8]) {
        let mut has_begun = false;
        for digit in digits {
            has_begun = has_begun || *digit != b'0';
            if has_begun {
                self.put(*digit);
            }
        }
        if !has_begun {
            self.put(b'0');
        }
    }

    /// Begins a line so far in, with a dash where it is the first of an item.
    pub(crate) fn indent(&mut self, depth: u64, begins_item: bool) {
        for _ in 1..depth {
            self.words("  ");
        }
        if depth > 0 {
            self.words(if begins_item { "- " } else { "  " });
        }
    }

    /// Appends bytes as hexadecimal digits.
    pub fn hex(&mut self, bytes: &[u8]) {
        for byte in bytes {
            self.hex_byte(*byte);
        }
    }

    /// Appends a byte as two hexadecimal digits.
    fn hex_byte(&mut self, byte: u8) {
        self.put(DIGITS[(byte / 16) as usize]);
        self.put(DIGITS[(byte % 16) as usize]);
    }

    /// Appends bytes of somebody else's between quotes: a quote and a backslash after a backslash, and a byte
    /// that is no printed character as `\x` with two digits.
    pub fn quoted(&mut self, bytes: &[u8]) {
        self.put(b'"');
        for byte in bytes {
            self.escaped(*byte);
        }
        self.put(b'"');
    }

    fn escaped(&mut self, byte: u8) {
        if is_printed(byte) {
            self.put_in_quotes(byte);
        } else {
            self.words("\\x");
            self.hex_byte(byte);
        }
    }

    /// Appends a printed character, a quote and a backslash after a backslash.
    fn put_in_quotes(&mut self, byte: u8) {
        if byte == b'"' || byte == b'\\' {
            self.put(b'\\');
        }
        self.put(byte);
    }

    /// Appends another text as the inside of a string of JSON (RFC 8259, section 7).
    pub(crate) fn json(&mut self, text: &Text) {
        for byte in text.as_bytes() {
            self.put_in_quotes(*byte);
        }
    }

    /// Appends a name as a string of JSON, with `_` for each blank.
    pub(crate) fn json_name(&mut self, name: &str) {
        self.put(b'"');
        for byte in name.as_bytes() {
            self.put(if *byte == b' ' { b'_' } else { *byte });
        }
        self.put(b'"');
    }
}
