//! Digests of short messages.

ghost use Rattle.std.specs.Prelude.{◌≡◌, ℕ, ◌+◌, ◌*◌, ◌/◌, ◌<◌, ◌≤◌, [], ◌∷◌, get_or, length, map};
ghost use Rattle.sha2.specs.Sha256.{sha256};
ghost use Rattle.sha256_lanes.specs.Rows.{HasDigests};

use crate::long_messages::FourMessages;
use sha2::{Digest, Sha256};

/// The SHA-256 digests of four messages of one length, each in the place of its message. A message has at
/// most 55 bytes. Takes no memory.
pub fn digest_4<const N: usize>(messages: &[[u8; N]; 4]) -> [[u8; 32]; 4]
    requires { N ≤ 55 }
    ensures { result ≡ map sha256 messages.now }
{
    FourMessages::new().finalize(messages)
}

/// Sets the SHA-256 digests of a row of messages of one length, each in the place of its message: by fours,
/// and of up to three that are left one by one. A message has at most 55 bytes. Takes no memory.
pub fn digest_row<const N: usize>(messages: &[[u8; N]], digests: &mut [[u8; 32]])
    requires short { N ≤ 55 }
    requires count { length digests.old ≡ length messages.now }
    ensures { digests.new ≡ map sha256 messages.now }
{
    set_fours(messages, digests);
    set_rest(messages, digests);
}

/// Sets the digests of all whole fours of a row.
fn set_fours<const N: usize>(messages: &[[u8; N]], digests: &mut [[u8; 32]])
    requires short { N ≤ 55 }
    requires count { length digests.old ≡ length messages.now }
    ensures { HasDigests messages.now digests.new (4 * (length messages.now / 4)) }
{
    for four in 0..messages.len() / 4 {
        set_four(messages, digests, 4 * four);
    }
}

/// Sets the digests of four messages of a row, those before which are set.
fn set_four<const N: usize>(messages: &[[u8; N]], digests: &mut [[u8; 32]], at: usize)
    requires short { N ≤ 55 }
    requires within { at + 4 ≤ length messages.now }
    requires before { HasDigests messages.now digests.old at }
    ensures { HasDigests messages.now digests.new (at + 4) }
{
    let [a, b, c, d] = digest_4(&[
        messages[at],
        messages[at + 1],
        messages[at + 2],
        messages[at + 3],
    ]);
    digests[at] = a;
    digests[at + 1] = b;
    digests[at + 2] = c;
    digests[at + 3] = d;
}

/// Sets the digests after the last whole four of a row.
fn set_rest<const N: usize>(messages: &[[u8; N]], digests: &mut [[u8; 32]])
    requires { HasDigests messages.now digests.old (4 * (length messages.now / 4)) }
    ensures { digests.new ≡ map sha256 messages.now }
{
    for place in messages.len() / 4 * 4..messages.len() {
        digests[place] = Sha256::digest(messages[place]);
    }
}
