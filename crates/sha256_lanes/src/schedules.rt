//! Four blocks of one message: their message schedules are made side by side, and their rounds run one block
//! after the other, since each begins with the hash value before it.

ghost use Rattle.std.specs.Prelude.{◌≡◌, ℕ, ◌+◌, ◌*◌, ◌<◌, ◌≤◌, List, slice_index, take, drop};
ghost use Rattle.sha2.specs.Sha256.{compress, hash_after, round, round_constants, rounds, schedule};
ghost use Rattle.sha256_lanes.specs.Lanes.{HasSums, IsBlockOf, KeepsOthers};

use crate::blocks::words_of_blocks;
use crate::constants::ROUND_CONSTANTS;
use crate::lanes::block_words;
use crate::rounds::{add_hash, round_with_sum, set_eight_words};

/// Sets sixteen sums of a lane, from round `first` on.
#[inline(always)]
fn set_sixteen(sums: &mut [u32; 256], l: usize, w: &[u32; 64], first: usize)
    requires lane { l < 4 }
    requires within { first + 16 ≤ 64 }
    ensures set { HasSums w.now sums.old l first → HasSums w.now sums.new l (first + 16) }
    ensures others { KeepsOthers l sums.old sums.new }
{
    'words: for i in 0..16 {
        sums[4 * (first + i) + l] = ROUND_CONSTANTS[first + i].wrapping_add(w[first + i]);
    }
}

/// Sets the sums of a lane.
#[inline(always)]
fn set_lane(sums: &mut [u32; 256], l: usize, w: &[u32; 64])
    requires { l < 4 }
    ensures set { HasSums w.now sums.new l 64 }
    ensures others { KeepsOthers l sums.old sums.new }
{
    set_sixteen(sums, l, w, 0);
    set_sixteen(sums, l, w, 16);
    set_sixteen(sums, l, w, 32);
    set_sixteen(sums, l, w, 48);
}

/// The message schedule of the block in a lane. Only one function may call it: so it is inlined there.
#[inline(always)]
fn lane_schedule(words: &[u32; 64], l: usize) -> [u32; 64]
    requires { l < 4 }
    ensures { (b : List ℕ) → IsBlockOf b words.now l → result ≡ schedule b 48 }
{
    let mut w = block_words(words, l);
    set_eight_words(&mut w, 16);
    set_eight_words(&mut w, 24);
    set_eight_words(&mut w, 32);
    set_eight_words(&mut w, 40);
    set_eight_words(&mut w, 48);
    set_eight_words(&mut w, 56);
    w
}

/// What the rounds of four blocks add, each block's in its lane: K_t and the word W_t of its message
/// schedule. The loop is over the lanes, and what stands in it has no other: so it runs on vectors.
#[inline(never)]
fn schedules(words: &[u32; 64]) -> [u32; 256]
    ensures { (l : ℕ) (b : List ℕ) → l < 4 → IsBlockOf b words.now l → HasSums (schedule b 48) result l 64 }
{
    let mut all = [0u32; 256];
    'lanes: for l in 0..4 {
        set_lane(&mut all, l, &lane_schedule(words, l));
    }
    all
}

/// Round t of a lane on the working variables a to h.
#[inline(always)]
fn lane_round(sums: &[u32; 256], l: usize, v: [u32; 8], t: usize) -> [u32; 8]
    requires lane { l < 4 }
    requires round { t < 64 }
    ensures { (b : List ℕ) → HasSums (schedule b 48) sums.now l 64 →
        result ≡ round v (slice_index round_constants t) (slice_index (schedule b 48) t) }
{
    round_with_sum(v, sums[4 * t + l])
}

/// Eight rounds of a lane from round t on, after which each working variable has been each of the eight.
#[inline(always)]
fn eight_lane_rounds(sums: &[u32; 256], l: usize, v: [u32; 8], t: usize) -> [u32; 8]
    requires lane { l < 4 }
    requires rounds { t + 8 ≤ 64 }
    ensures { (h b : List ℕ) → HasSums (schedule b 48) sums.now l 64 → v ≡ rounds h (schedule b 48) t
        → result ≡ rounds h (schedule b 48) (t + 8) }
{
    let v = lane_round(sums, l, v, t);
    let v = lane_round(sums, l, v, t + 1);
    let v = lane_round(sums, l, v, t + 2);
    let v = lane_round(sums, l, v, t + 3);
    let v = lane_round(sums, l, v, t + 4);
    let v = lane_round(sums, l, v, t + 5);
    let v = lane_round(sums, l, v, t + 6);
    lane_round(sums, l, v, t + 7)
}

/// The hash value after the block of a lane, from the one before it.
#[inline(never)]
fn lane_hash_value(hash: [u32; 8], sums: &[u32; 256], l: usize) -> [u32; 8]
    requires { l < 4 }
    ensures { (b : List ℕ) → HasSums (schedule b 48) sums.now l 64 → result ≡ compress hash b }
{
    let mut v = hash;
    'turns: for turn in 0..8 {
        let next = eight_lane_rounds(sums, l, v, 8 * turn);
        v = next;
    }
    add_hash(hash, v)
}

/// The hash value after the first `count` of four blocks, from the one before them.
pub(crate) fn hash_value_after(hash: [u32; 8], blocks: &[u8; 256], count: usize) -> [u32; 8]
    requires { count ≤ 4 }
    ensures { result ≡ hash_after hash blocks.now count }
{
    let sums = schedules(&words_of_blocks(blocks));
    let mut hash = hash;
    'lanes: for l in 0..count {
        let next = lane_hash_value(hash, &sums, l);
        hash = next;
    }
    hash
}
