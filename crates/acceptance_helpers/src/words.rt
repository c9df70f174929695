//! Bytes as they are written down, in words of four bytes, the highest first.

use std::alloc::Global;

/// Appends the bytes of words; false where memory is refused.
pub fn push_words(out: &mut Vec<u8>, words: &[u32]) -> bool {
    for word in words {
        if out.extend_from_slice(&word.to_be_bytes()).is_err() {
            return false;
        }
    }
    true
}

/// Appends the bytes of a word, so many times.
fn push_times(out: &mut Vec<u8>, word: u32, times: u32) -> bool {
    for _ in 0..times {
        if out.extend_from_slice(&word.to_be_bytes()).is_err() {
            return false;
        }
    }
    true
}

/// Appends the bytes of `1f`, one word, or of `0*6`, six.
fn push_part(out: &mut Vec<u8>, part: &str) -> bool {
    let (word, times) = part.split_once('*').unwrap_or((part, "1"));
    match (u32::from_str_radix(word, 16), times.parse()) {
        (Ok(word), Ok(times)) => push_times(out, word, times),
        _ => false,
    }
}

/// Appends the bytes of a text of words in hexadecimal, without leading zeros: `1f` is one word, `0*6` six.
/// False where it is no such text, or memory is refused.
pub fn push_text(out: &mut Vec<u8>, text: &str) -> bool {
    for part in text.split_whitespace() {
        if !push_part(out, part) {
            return false;
        }
    }
    true
}

/// The bytes of words; none where memory is refused.
pub fn of_words(alloc: Global, words: &[u32]) -> Option<Vec<u8>> {
    let mut out = Vec::new(alloc);
    if push_words(&mut out, words) {
        Some(out)
    } else {
        None
    }
}

/// The bytes of a text of words; none where it is no such text, or memory is refused.
pub fn of_text(alloc: Global, text: &str) -> Option<Vec<u8>> {
    let mut out = Vec::new(alloc);
    if push_text(&mut out, text) {
        Some(out)
    } else {
        None
    }
}
