//! What the entries of a log have by their types: texts, and bodies of bytes.

ghost use Rattle.std.specs.Prelude.{◌<◌, ◌^◌, length, map};
ghost use Rattle.std.specs.List.{AllByRecursion};
ghost use Rattle.xdr.specs.Item.{Fits};
ghost use Rattle.merkle_keys.specs.Signing.{signature_item, signature_value};
ghost use Rattle.secure_log.specs.LogEntries.Entry.{entry_item, entry_value};
ghost use Rattle.node_logs.specs.replay_spec.Bodies.{HasBytes};

use authenticator::Word;
use secure_log::are_bytes;
use secure_log::log_entries::{Body, Entry, SignatureText};
use std::alloc::Global;

/// Entries each have a text and a body of bytes, if any, and are fewer than 2^64. Takes memory once for each
/// signature, and tells a caller's proof.
pub(crate) fn entries_have_texts(alloc: Global, entries: &[Entry])
    ensures each { AllByRecursion (Fits entry_item) (map entry_value entries.now) }
    ensures bytes { AllByRecursion HasBytes entries.now }
    ensures few { length entries.now < 2 ^ 64 }
{
    let _count = entries.len();
    bodies_are_bytes(entries);
    for entry in entries {
        has_text(alloc, entry);
    }
}

fn has_text(alloc: Global, entry: &Entry)
    ensures { Fits entry_item (entry_value entry.now) }
{
    match entry {
        Entry::Send { to, body } => send_has_text(*to, body),
        Entry::Recv {
            from,
            seq,
            prev,
            body,
            signature,
        } => recv_has_text(alloc, *from, *seq, prev, body, signature),
        Entry::Ack {
            to,
            seq,
            mine,
            number,
            prev,
            signature,
        } => ack_has_text(alloc, *to, *seq, mine, *number, prev, signature),
        Entry::Clock {
            seconds,
            microseconds,
        } => clock_has_text(*seconds, *microseconds),
        Entry::Check { digest } => check_has_text(digest),
    }
}

fn send_has_text(to: u32, body: &Body)
    ensures { Fits entry_item (1, (to, body.now)) }
{
    let _bytes = body.bytes();
}

fn recv_has_text(
    alloc: Global,
    from: u32,
    seq: Word,
    prev: &[u8; 32],
    body: &Body,
    signature: &SignatureText,
)
    ensures { Fits entry_item (2, (from, (seq, (prev.now, (body.now, signature_value signature.now))))) }
{
    let _seq = seq.get();
    let _prev = *prev;
    let _bytes = body.bytes();
    signature_has_text(alloc, signature);
}

fn ack_has_text(
    alloc: Global,
    to: u32,
    seq: Word,
    mine: &[u8; 32],
    number: Word,
    prev: &[u8; 32],
    signature: &SignatureText,
)
    ensures { Fits entry_item
        (3, (to, (seq, (mine.now, (number, (prev.now, signature_value signature.now)))))) }
{
    let _seq = seq.get();
    let _number = number.get();
    let _mine = *mine;
    let _prev = *prev;
    signature_has_text(alloc, signature);
}

fn clock_has_text(seconds: u32, microseconds: u32)
    ensures { Fits entry_item (4, (seconds, microseconds)) }
{}

fn check_has_text(digest: &[u8; 32])
    ensures { Fits entry_item (5, digest.now) }
{
    let _digest = *digest;
}

/// A signature has a text, as writing it tells, whether or not there is memory for it.
fn signature_has_text(alloc: Global, signature: &SignatureText)
    ensures { Fits signature_item (signature_value signature.now) }
{
    let mut text = Vec::new(alloc);
    let _written = signature.signature().write(&mut text);
}

/// The body of each SEND and each RECV is bytes.
fn bodies_are_bytes(entries: &[Entry])
    ensures { AllByRecursion HasBytes entries.now }
{
    for entry in entries {
        has_bytes(entry);
    }
}

fn has_bytes(entry: &Entry)
    ensures { HasBytes entry.now }
{
    match entry {
        Entry::Send { to: _, body } => are_bytes(body.bytes()),
        Entry::Recv {
            from: _,
            seq: _,
            prev: _,
            body,
            signature: _,
        } => are_bytes(body.bytes()),
        _ => {}
    }
}
