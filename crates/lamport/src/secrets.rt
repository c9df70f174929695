//! What secrets are made of.

ghost use Rattle.std.specs.Prelude.{◌≡◌, ◌+◌, ◌≤◌, ◌++◌, take, if◌then◌else◌};
ghost use Rattle.sha2.specs.Sha256.{sha256};
ghost use Rattle.lamport.specs.Lamport.{LeafKey, secret, word_bytes};

/// What the secret of a leaf's place and bit value is the digest of.
pub(crate) fn secret_text(master: &[u8; 32], leaf: u32, place: u32, bit: bool) -> [u8; 44]
    ensures { secret (record { master = master.now; leaf = leaf }) place bit ≡ sha256 result }
{
    let mut text = [0u8; 44];
    text[..32].copy_from_slice(master);
    put_word(&mut text, 32, leaf);
    put_word(&mut text, 36, place);
    put_word(&mut text, 40, word_of(bit));
    text
}

/// Sets the number after the first `at` bytes, high byte first.
fn put_word(text: &mut [u8; 44], at: usize, word: u32)
    requires { at + 4 ≤ 44 }
    ensures { take (at + 4) text.new ≡ take at text.old ++ word_bytes word }
{
    text[at..at + 4].copy_from_slice(&word.to_be_bytes());
}

fn word_of(bit: bool) -> u32
    ensures { result ≡ (if bit then 1 else 0) }
{
    u32::from(bit)
}
