//! The hash computation of one block (FIPS 180-4, 6.2.2), without a loop or a call left in it: so the loop
//! over lanes around it runs on vectors.

ghost use Rattle.std.specs.Prelude.{◌≡◌, ℕ, ◌+◌, ◌*◌, ◌<◌, ◌≤◌, List, slice_index, slice_set};
ghost use Rattle.sha2.specs.Sha256.{add32, add_state, big_sigma0, big_sigma1, ch, compress, maj};
ghost use Rattle.sha2.specs.Sha256.{next_word, round, round_constants, rounds, schedule, small_sigma0};
ghost use Rattle.sha2.specs.Sha256.{small_sigma1, temp1, temp2, word_at};
ghost use Rattle.sha256_lanes.specs.Lanes.{HasWords};

use crate::constants::ROUND_CONSTANTS;

/// Ch (4.1.2), in one operation less than there.
#[inline(always)]
fn ch(x: u32, y: u32, z: u32) -> u32
    ensures { result ≡ ch x y z }
{
    z ^ (x & (y ^ z))
}

/// Maj (4.1.2).
#[inline(always)]
fn maj(x: u32, y: u32, z: u32) -> u32
    ensures { result ≡ maj x y z }
{
    (x & y) ^ (x & z) ^ (y & z)
}

/// The upper case Σ 0 (4.1.2).
#[inline(always)]
fn big_sigma0(x: u32) -> u32
    ensures { result ≡ big_sigma0 x }
{
    x.rotate_right(2) ^ x.rotate_right(13) ^ x.rotate_right(22)
}

/// The upper case Σ 1 (4.1.2).
#[inline(always)]
fn big_sigma1(x: u32) -> u32
    ensures { result ≡ big_sigma1 x }
{
    x.rotate_right(6) ^ x.rotate_right(11) ^ x.rotate_right(25)
}

/// The lower case σ 0 (4.1.2).
#[inline(always)]
fn small_sigma0(x: u32) -> u32
    ensures { result ≡ small_sigma0 x }
{
    x.rotate_right(7) ^ x.rotate_right(18) ^ (x >> 3)
}

/// The lower case σ 1 (4.1.2).
#[inline(always)]
fn small_sigma1(x: u32) -> u32
    ensures { result ≡ small_sigma1 x }
{
    x.rotate_right(17) ^ x.rotate_right(19) ^ (x >> 10)
}

/// Sets W_t from the words before it (step 1).
#[inline(always)]
fn set_word(w: &mut [u32; 64], t: usize)
    requires low { 16 ≤ t }
    requires high { t < 64 }
    ensures { w.new ≡ slice_set w.old t (next_word w.old t) }
{
    w[t] = small_sigma1(w[t - 2])
        .wrapping_add(w[t - 7])
        .wrapping_add(small_sigma0(w[t - 15]))
        .wrapping_add(w[t - 16]);
}

/// Sets eight words from W_t on.
#[inline(always)]
pub(crate) fn set_eight_words(w: &mut [u32; 64], t: usize)
    requires low { 16 ≤ t }
    requires high { t + 8 ≤ 64 }
    ensures { (b : List ℕ) → HasWords b w.old t → HasWords b w.new (t + 8) }
{
    set_word(w, t);
    set_word(w, t + 1);
    set_word(w, t + 2);
    set_word(w, t + 3);
    set_word(w, t + 4);
    set_word(w, t + 5);
    set_word(w, t + 6);
    set_word(w, t + 7);
}

/// The message schedule of a block, whose words stand in the first sixteen places (step 1). Only one function
/// may call it: so it is inlined there.
#[inline(always)]
fn schedule(words: [u32; 64]) -> [u32; 64]
    ensures { (b : List ℕ) → ((k : ℕ) → k < 16 → slice_index words k ≡ word_at b (4 * k))
        → result ≡ schedule b 48 }
{
    let mut w = words;
    set_eight_words(&mut w, 16);
    set_eight_words(&mut w, 24);
    set_eight_words(&mut w, 32);
    set_eight_words(&mut w, 40);
    set_eight_words(&mut w, 48);
    set_eight_words(&mut w, 56);
    w
}

/// T_1 of a round (step 3).
#[inline(always)]
fn temp1(v: &[u32; 8], k: u32, word: u32) -> u32
    ensures { result ≡ temp1 v.now k word }
{
    v[7].wrapping_add(big_sigma1(v[4]))
        .wrapping_add(ch(v[4], v[5], v[6]))
        .wrapping_add(k)
        .wrapping_add(word)
}

/// T_2 of a round (step 3).
#[inline(always)]
fn temp2(v: &[u32; 8]) -> u32
    ensures { result ≡ temp2 v.now }
{
    big_sigma0(v[0]).wrapping_add(maj(v[0], v[1], v[2]))
}

/// The working variables a to h after a round, from T_1 of the round (step 3).
#[inline(always)]
fn round_from(v: [u32; 8], t1: u32) -> [u32; 8]
    ensures { (k word : ℕ) → t1 ≡ temp1 v k word → result ≡ round v k word }
{
    let t2 = temp2(&v);
    [
        t1.wrapping_add(t2),
        v[0],
        v[1],
        v[2],
        v[3].wrapping_add(t1),
        v[4],
        v[5],
        v[6],
    ]
}

/// Round t on the working variables.
#[inline(always)]
fn round(w: &[u32; 64], v: [u32; 8], t: usize) -> [u32; 8]
    requires { t < 64 }
    ensures { result ≡ round v (slice_index round_constants t) (slice_index w.now t) }
{
    round_from(v, temp1(&v, ROUND_CONSTANTS[t], w[t]))
}

/// A round with the sum of K_t and W_t.
#[inline(always)]
pub(crate) fn round_with_sum(v: [u32; 8], sum: u32) -> [u32; 8]
    ensures { (k word : ℕ) → sum ≡ add32 k word → result ≡ round v k word }
{
    let t1 = v[7]
        .wrapping_add(big_sigma1(v[4]))
        .wrapping_add(ch(v[4], v[5], v[6]))
        .wrapping_add(sum);
    round_from(v, t1)
}

/// Eight rounds from round t on, after which each working variable has been each of the eight.
#[inline(always)]
fn eight_rounds(w: &[u32; 64], v: [u32; 8], t: usize) -> [u32; 8]
    requires { t + 8 ≤ 64 }
    ensures { (h : List ℕ) → v ≡ rounds h w.now t → result ≡ rounds h w.now (t + 8) }
{
    let v = round(w, v, t);
    let v = round(w, v, t + 1);
    let v = round(w, v, t + 2);
    let v = round(w, v, t + 3);
    let v = round(w, v, t + 4);
    let v = round(w, v, t + 5);
    let v = round(w, v, t + 6);
    round(w, v, t + 7)
}

/// The working variables after the 64 rounds of a block from a hash value, with the words of the block's
/// schedule (steps 2 and 3).
#[inline(always)]
fn all_rounds(hash: [u32; 8], w: &[u32; 64]) -> [u32; 8]
    ensures { result ≡ rounds hash w.now 64 }
{
    let v = eight_rounds(w, hash, 0);
    let v = eight_rounds(w, v, 8);
    let v = eight_rounds(w, v, 16);
    let v = eight_rounds(w, v, 24);
    let v = eight_rounds(w, v, 32);
    let v = eight_rounds(w, v, 40);
    let v = eight_rounds(w, v, 48);
    eight_rounds(w, v, 56)
}

/// The sum of a hash value and the working variables (step 4).
#[inline(always)]
pub(crate) fn add_hash(hash: [u32; 8], v: [u32; 8]) -> [u32; 8]
    ensures { result ≡ add_state hash v }
{
    [
        hash[0].wrapping_add(v[0]),
        hash[1].wrapping_add(v[1]),
        hash[2].wrapping_add(v[2]),
        hash[3].wrapping_add(v[3]),
        hash[4].wrapping_add(v[4]),
        hash[5].wrapping_add(v[5]),
        hash[6].wrapping_add(v[6]),
        hash[7].wrapping_add(v[7]),
    ]
}

/// The hash value after a block, from the one before it. The block's words stand in the first sixteen places.
#[inline(always)]
pub(crate) fn hash_value(hash: [u32; 8], words: [u32; 64]) -> [u32; 8]
    ensures { (b : List ℕ) → ((k : ℕ) → k < 16 → slice_index words k ≡ word_at b (4 * k))
        → result ≡ compress hash b }
{
    let w = schedule(words);
    add_hash(hash, all_rounds(hash, &w))
}
