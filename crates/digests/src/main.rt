//! Compares digests by lanes with those of another program. Standard input has, for each length from 0 to 55,
//! rows of seven messages, one after the other, and after each row their digests. Then come four long
//! messages at a time, a block of each after a block of each, what is left of each, and their digests; then
//! single messages, each with its digest after it.
#![tactic(auto)]

ghost use Rattle.std.specs.Prelude.{◌≤◌};

use anyhow::{Result, ensure};
use sha256_lanes::{FourMessages, OneMessage, digest_4, digest_row};
use std::io::Read;

/// The rows of each length.
const ROWS: u32 = 16;

/// The most blocks of a long message, but for those with a leaf's length.
const BLOCKS: u32 = 5;

/// The blocks of a leaf's text, after which one byte is left.
const LEAF_BLOCKS: u32 = 256;

/// The most pieces of a single message, but for one of single bytes.
const PIECES: u32 = 18;

/// The pieces of the message whose pieces are single bytes.
const SINGLE_BYTES: u32 = 1000;

/// What was seen so far.
#[derive(Drop)]
struct Seen {
    /// Whether each row could be read, and each digest was right.
    all_right: bool,
}

/// The next bytes of the input.
fn next<const N: usize>(reader: &mut impl Read) -> Result<[u8; N]> {
    let mut bytes = [0u8; N];
    reader.read_exact(&mut bytes)?;
    Ok(bytes)
}

/// The next seven of the input.
fn seven<const N: usize>(reader: &mut impl Read) -> Result<[[u8; N]; 7]> {
    Ok([
        next(reader)?,
        next(reader)?,
        next(reader)?,
        next(reader)?,
        next(reader)?,
        next(reader)?,
        next(reader)?,
    ])
}

/// Whether the digests of a row are these, taken as a row and by fours.
fn is_right<const N: usize>(messages: &[[u8; N]; 7], wanted: &[[u8; 32]; 7]) -> bool
    requires { N ≤ 55 }
{
    let mut digests = [[0u8; 32]; 7];
    digest_row(messages, &mut digests);
    let [a, b, c, d, e, f, g] = *messages;
    let first = digest_4(&[a, b, c, d]);
    let last = digest_4(&[d, e, f, g]);
    digests.as_slice() == wanted.as_slice()
        && first.as_slice() == &wanted[..4]
        && last.as_slice() == &wanted[3..]
}

/// Whether the digests of the next row are those after it.
fn next_is_right<const N: usize>(reader: &mut impl Read) -> Result<bool>
    requires { N ≤ 55 }
{
    let messages = seven::<N>(reader)?;
    let wanted = seven::<32>(reader)?;
    Ok(is_right(&messages, &wanted))
}

/// Compares the rows of one length.
fn rows<const N: usize>(reader: &mut impl Read, seen: &mut Seen)
    requires { N ≤ 55 }
{
    for _ in 0..ROWS {
        if !matches!(next_is_right::<N>(reader), Ok(true)) {
            seen.all_right = false;
        }
    }
}

/// The next four of the input.
fn four<const N: usize>(reader: &mut impl Read) -> Result<[[u8; N]; 4]> {
    Ok([next(reader)?, next(reader)?, next(reader)?, next(reader)?])
}

/// Whether the digests of the next four long messages are those after them.
fn next_long_is_right<const N: usize>(reader: &mut impl Read, blocks: u32) -> Result<bool>
    requires { N ≤ 55 }
{
    let mut messages = FourMessages::new();
    for _ in 0..blocks {
        messages.update(&four::<64>(reader)?);
    }
    let digests = messages.finalize(&four::<N>(reader)?);
    let wanted = four::<32>(reader)?;
    Ok(digests.as_slice() == wanted.as_slice())
}

/// Compares four long messages.
fn long<const N: usize>(reader: &mut impl Read, blocks: u32, seen: &mut Seen)
    requires { N ≤ 55 }
{
    if !matches!(next_long_is_right::<N>(reader, blocks), Ok(true)) {
        seen.all_right = false;
    }
}

/// Long messages with no byte after their blocks, with one, with some, and with as many as may be.
fn long_messages(reader: &mut impl Read, seen: &mut Seen) {
    for blocks in 0..BLOCKS + 1 {
        long::<0>(reader, blocks, seen);
        long::<1>(reader, blocks, seen);
        long::<32>(reader, blocks, seen);
        long::<55>(reader, blocks, seen);
    }
    long::<1>(reader, LEAF_BLOCKS, seen);
}

/// Whether the digest of the next message, which is taken in by pieces of a length, is the one after it.
fn next_one_is_right<const N: usize>(reader: &mut impl Read, pieces: u32) -> Result<bool>
    requires { N ≤ 600 }
{
    let mut message = OneMessage::new();
    for _ in 0..pieces {
        message.update(next::<N>(reader)?.as_slice());
    }
    let digest = message.finalize();
    Ok(digest.as_slice() == next::<32>(reader)?.as_slice())
}

/// Compares a single message.
fn one<const N: usize>(reader: &mut impl Read, pieces: u32, seen: &mut Seen)
    requires { N ≤ 600 }
{
    if !matches!(next_one_is_right::<N>(reader, pieces), Ok(true)) {
        seen.all_right = false;
    }
}

/// Single messages of pieces that are shorter than what is taken in at once, as long, and longer.
fn single_messages(reader: &mut impl Read, seen: &mut Seen) {
    for pieces in 0..PIECES + 1 {
        one::<1>(reader, pieces, seen);
        one::<7>(reader, pieces, seen);
        one::<55>(reader, pieces, seen);
        one::<64>(reader, pieces, seen);
        one::<100>(reader, pieces, seen);
        one::<255>(reader, pieces, seen);
        one::<256>(reader, pieces, seen);
        one::<257>(reader, pieces, seen);
        one::<600>(reader, pieces, seen);
    }
    one::<1>(reader, SINGLE_BYTES, seen);
}

/// The lengths from 0 to 13.
fn lengths_from_0(reader: &mut impl Read, seen: &mut Seen) {
    rows::<0>(reader, seen);
    rows::<1>(reader, seen);
    rows::<2>(reader, seen);
    rows::<3>(reader, seen);
    rows::<4>(reader, seen);
    rows::<5>(reader, seen);
    rows::<6>(reader, seen);
    rows::<7>(reader, seen);
    rows::<8>(reader, seen);
    rows::<9>(reader, seen);
    rows::<10>(reader, seen);
    rows::<11>(reader, seen);
    rows::<12>(reader, seen);
    rows::<13>(reader, seen);
}

/// The lengths from 14 to 27.
fn lengths_from_14(reader: &mut impl Read, seen: &mut Seen) {
    rows::<14>(reader, seen);
    rows::<15>(reader, seen);
    rows::<16>(reader, seen);
    rows::<17>(reader, seen);
    rows::<18>(reader, seen);
    rows::<19>(reader, seen);
    rows::<20>(reader, seen);
    rows::<21>(reader, seen);
    rows::<22>(reader, seen);
    rows::<23>(reader, seen);
    rows::<24>(reader, seen);
    rows::<25>(reader, seen);
    rows::<26>(reader, seen);
    rows::<27>(reader, seen);
}

/// The lengths from 28 to 41.
fn lengths_from_28(reader: &mut impl Read, seen: &mut Seen) {
    rows::<28>(reader, seen);
    rows::<29>(reader, seen);
    rows::<30>(reader, seen);
    rows::<31>(reader, seen);
    rows::<32>(reader, seen);
    rows::<33>(reader, seen);
    rows::<34>(reader, seen);
    rows::<35>(reader, seen);
    rows::<36>(reader, seen);
    rows::<37>(reader, seen);
    rows::<38>(reader, seen);
    rows::<39>(reader, seen);
    rows::<40>(reader, seen);
    rows::<41>(reader, seen);
}

/// The lengths from 42 to 55.
fn lengths_from_42(reader: &mut impl Read, seen: &mut Seen) {
    rows::<42>(reader, seen);
    rows::<43>(reader, seen);
    rows::<44>(reader, seen);
    rows::<45>(reader, seen);
    rows::<46>(reader, seen);
    rows::<47>(reader, seen);
    rows::<48>(reader, seen);
    rows::<49>(reader, seen);
    rows::<50>(reader, seen);
    rows::<51>(reader, seen);
    rows::<52>(reader, seen);
    rows::<53>(reader, seen);
    rows::<54>(reader, seen);
    rows::<55>(reader, seen);
}

fn main(rt: HostRuntime) -> Result<()> {
    let mut reader = rt.reader();
    let mut seen = Seen { all_right: true };
    lengths_from_0(&mut reader, &mut seen);
    lengths_from_14(&mut reader, &mut seen);
    lengths_from_28(&mut reader, &mut seen);
    lengths_from_42(&mut reader, &mut seen);
    long_messages(&mut reader, &mut seen);
    single_messages(&mut reader, &mut seen);
    ensure!(
        seen.all_right,
        "a digest differs, or the input ends too early"
    );
    println!(rt;
        "digests of all lengths from 0 to 55, of long messages and of single ones are right"
    )?;
    Ok(())
}
