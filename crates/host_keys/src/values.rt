//! Words that stand for values.

ghost use Rattle.std.specs.Prelude.{◌≡◌, ◌↔◌, ◌≤◌, ◌<◌, ◌^◌, ℕ, List, IfSome, IsTrue, Some, decimal};
ghost use Rattle.hex.specs.Hex.{encode_lower};
ghost use Rattle.host_keys.specs.Lines.{IsDigest};

use itoa::Buffer;

/// The number from the one to the other whose decimal digits a word is, without leading zeros.
pub(crate) fn number_of(word: &str, least: u32, most: u32) -> Option<u32>
    ensures low { IfSome result (λ n. least ≤ n) }
    ensures high { IfSome result (λ n. n ≤ most) }
    ensures found { IfSome result (λ n. word.now ≡ decimal n) }
    ensures only { (n : ℕ) → least ≤ n → n ≤ most → word.now ≡ decimal n → result ≡ Some n }
{
    let number = parsed(word)?;
    if least <= number && number <= most && is_decimal(word, number) {
        Some(number)
    } else {
        None
    }
}

/// The number that a word is, if it is one.
fn parsed(word: &str) -> Option<u32>
    ensures { (n : ℕ) → n < 2 ^ 32 → word.now ≡ decimal n → result ≡ Some n }
{
    word.parse::<u32>().ok()
}

/// Whether a word is the decimal digits of a number.
fn is_decimal(word: &str, number: u32) -> bool
    ensures { IsTrue result ↔ (word.now ≡ decimal number) }
{
    let mut buffer = Buffer::new();
    buffer.format(number).as_bytes() == word.as_bytes()
}

/// The 32 bytes whose lower-case hexadecimal digits a word is.
pub(crate) fn digest_of(word: &str) -> Option<[u8; 32]>
    ensures is { IfSome result IsDigest }
    ensures found { IfSome result (λ digest. word.now ≡ encode_lower digest) }
    ensures only { (digest : List ℕ) → IsDigest digest → word.now ≡ encode_lower digest
        → result ≡ Some digest }
{
    let digest = decoded(word)?;
    if is_hex(word, &digest) {
        Some(digest)
    } else {
        None
    }
}

/// The 32 bytes whose hexadecimal digits a word is, of either case.
fn decoded(word: &str) -> Option<[u8; 32]>
    ensures is { IfSome result IsDigest }
    ensures only { (digest : List ℕ) → IsDigest digest → word.now ≡ encode_lower digest
        → result ≡ Some digest }
{
    let mut digest = [0; 32];
    match hex::decode_to_slice(word.as_bytes(), &mut digest) {
        Ok(()) => Some(digest),
        Err(_) => None,
    }
}

/// Whether a word is the lower-case hexadecimal digits of 32 bytes.
fn is_hex(word: &str, digest: &[u8; 32]) -> bool
    ensures { IsTrue result ↔ (word.now ≡ encode_lower digest.now) }
{
    let mut digits = [0; 64];
    if hex::encode_to_slice(digest.as_slice(), &mut digits).is_err() {
        return false;
    }
    digits.as_slice() == word.as_bytes()
}
