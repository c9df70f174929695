//! What witnesses are told of a client's log, as packets.

ghost use Rattle.std.specs.Prelude.{◌≡◌, drop};

use assurance::ShownOf;
use authenticator::{Authenticator, Word};
use envelopes::{Envelope, EnvelopeRef};
use nodes::ClientNode;
use packets::{write_ack, write_answer_text, write_challenge, write_learn};
use peer_calls::Numbers;
use secure_log::log_entries::{Entry, Receipt, SignatureText, message_hash, receipt_hash};
use secure_log::{SegmentFault, is_same_hash};
use std::alloc::{AllocError, Global};

/// How many of a log's entries are looked at at once for what its server signed.
const MOST_ENTRIES: usize = 96;

/// How many of a client's own signatures are told at once: there is one for each 4,096 numbers.
const MOST_OWN: u32 = 16;

/// How far a witness was told of a client's log.
#[derive(Clone, Copy)]
pub(crate) struct Progress {
    /// How many of its entries were looked at.
    pub(crate) entries: usize,
    /// The last number of what it signed, 0 where nothing was told.
    pub(crate) own: u64,
    /// How many of its unanswered calls were told.
    pub(crate) unanswered: usize,
}

/// What a node signed, as an entry of its client's log shows it.
#[derive(Drop)]
pub(crate) struct Shown {
    pub(crate) signed: Authenticator,
    pub(crate) of: ShownOf,
    /// How many entries stand before the one that shows it.
    pub(crate) before: usize,
}

/// Packets for a witness, and how far it is told once it has them.
#[derive(Drop)]
pub(crate) struct News {
    /// What the server signed, in the order of the client's log.
    pub(crate) shown: Vec<Shown>,
    pub(crate) packets: Vec<Vec<u8>>,
    pub(crate) progress: Progress,
    /// Whether nothing is new after these.
    pub(crate) is_all: bool,
}

/// What is new for a witness that was told so far: what the server signed, by the next entries; what the client
/// signed; and the calls for which nothing came back that counts. They have these numbers in the client's log.
pub(crate) fn news_since(
    alloc: Global,
    client: &ClientNode,
    unanswered: &[u64],
    progress: Progress,
) -> Result<News, AllocError> {
    let mut packets = Vec::new(alloc);
    let entries = client.node().log().entries().len();
    let end = entries.min(progress.entries.saturating_add(MOST_ENTRIES));
    let shown = shown_between(alloc, client, progress.entries, end)?;
    let own = add_own(alloc, client, progress.own, &mut packets)?;
    add_unanswered(
        alloc,
        client,
        rest_after(unanswered, progress.unanswered),
        &mut packets,
    )?;
    let progress = Progress {
        entries: end,
        own,
        unanswered: unanswered.len(),
    };
    Ok(News {
        shown,
        packets,
        progress,
        is_all: end == entries,
    })
}

/// What stands in a list after so many items.
fn rest_after<T>(items: &[T], count: usize) -> &[T]
    ensures { result.now ≡ drop count items.now }
{
    let first = count.min(items.len());
    &items[first..]
}

/// What the server signed, by the entries from the one place to the other.
fn shown_between(
    alloc: Global,
    client: &ClientNode,
    first: usize,
    end: usize,
) -> Result<Vec<Shown>, AllocError> {
    let mut shown = Vec::new(alloc);
    for before in first..end {
        if let Some(entry) = client.node().log().entries().get(before) {
            add_shown(alloc, client, before, entry, &mut shown)?;
        }
    }
    Ok(shown)
}

/// Adds what the server signed, as an entry shows it that has so many before it.
fn add_shown(
    alloc: Global,
    client: &ClientNode,
    before: usize,
    entry: &Entry,
    shown: &mut Vec<Shown>,
) -> Result<(), AllocError> {
    let Some(signed) = shown_by(alloc, client, entry)? else {
        return Ok(());
    };
    let number = number_of(client, signed.node, signed.word);
    let of = match entry {
        Entry::Recv { .. } => ShownOf::Reply { number },
        _ => ShownOf::Receipt { number },
    };
    shown.push(Shown { signed, of, before })?;
    Ok(())
}

/// The numbers that a server's messages have in its log, of those that a client received after so many entries of its
/// own.
pub(crate) fn replies_after(
    alloc: Global,
    client: &ClientNode,
    server: u32,
    looked_at: usize,
) -> Result<Vec<u64>, AllocError> {
    let mut numbers = Vec::new(alloc);
    for entry in rest_after(client.node().log().entries(), looked_at) {
        if let Entry::Recv { from, seq, .. } = entry {
            if *from == server {
                numbers.push(number_of(client, *from, *seq))?;
            }
        }
    }
    Ok(numbers)
}

/// The number in a word of a node's log; of a stranger's log the word.
fn number_of(client: &ClientNode, node: u32, word: Word) -> u64 {
    match client.node().roster().member(node) {
        Some(member) => word.number(member.log_version).get(),
        None => word.get(),
    }
}

/// Adds what the client signed after a number, the last of each 4,096 numbers. Gives the last number.
fn add_own(
    alloc: Global,
    client: &ClientNode,
    after: u64,
    packets: &mut Vec<Vec<u8>>,
) -> Result<u64, AllocError> {
    let mut last = after;
    for _ in 0..MOST_OWN {
        let Some(number) = client.signed_after(last) else {
            break;
        };
        if let Some(authenticator) = client.authenticator(alloc, number.get())? {
            add_learned(alloc, &authenticator, packets)?;
        }
        last = number.get();
    }
    Ok(last)
}

/// Adds the challenges with the client's messages of these numbers.
fn add_unanswered(
    alloc: Global,
    client: &ClientNode,
    numbers: &[u64],
    packets: &mut Vec<Vec<u8>>,
) -> Result<(), AllocError> {
    for number in numbers {
        if let Some(envelope) = client.envelope(*number) {
            let mut packet = Vec::new(alloc);
            write_challenge(&envelope, &mut packet)?;
            packets.push(packet)?;
        }
    }
    Ok(())
}

/// Adds the packet by which an authenticator is learned.
fn add_learned(
    alloc: Global,
    authenticator: &Authenticator,
    packets: &mut Vec<Vec<u8>>,
) -> Result<(), AllocError> {
    let mut packet = Vec::new(alloc);
    write_learn(authenticator, &mut packet)?;
    packets.push(packet)?;
    Ok(())
}

/// What another node signed, as an entry of a client's log shows it: of a RECV or an ACK.
pub(crate) fn shown_by(
    alloc: Global,
    client: &ClientNode,
    entry: &Entry,
) -> Result<Option<Authenticator>, AllocError> {
    match entry {
        Entry::Recv {
            from,
            seq,
            prev,
            body,
            signature,
        } => {
            let hash = message_hash(client.number(), *seq, prev, &body.digest());
            signed(alloc, *from, *seq, hash, signature).map(Some)
        }
        Entry::Ack {
            to,
            seq,
            mine,
            number,
            prev,
            signature,
        } => {
            let Some(envelope) = client.envelope(seq.number(client.log_version()).get()) else {
                return Ok(None);
            };
            let receipt = receipt_of(&envelope, *seq, *mine);
            let hash = receipt_hash(&receipt, *number, prev);
            signed(alloc, *to, *number, hash, signature).map(Some)
        }
        Entry::Send { .. } | Entry::Clock { .. } | Entry::Check { .. } => Ok(None),
    }
}

/// A message as its receiver logs it, with this word and this digest of its signature's text.
fn receipt_of(envelope: &EnvelopeRef<'_>, seq: Word, mine: [u8; 32]) -> Receipt {
    Receipt {
        from: envelope.from,
        seq,
        sender_prev: envelope.prev,
        body: envelope.body.digest(),
        signature: mine,
    }
}

/// The authenticator of these parts.
fn signed(
    alloc: Global,
    node: u32,
    word: Word,
    hash: [u8; 32],
    signature: &SignatureText,
) -> Result<Authenticator, AllocError> {
    let signature = signature.signature().try_clone(alloc)?;
    Ok(Authenticator {
        node,
        word,
        hash,
        signature,
    })
}

/// The packet with the segment of a client's log that is asked for, if the log has it.
pub(crate) fn segment_packet(
    alloc: Global,
    client: &ClientNode,
    numbers: Numbers,
) -> Result<Option<Vec<u8>>, AllocError> {
    let text = match client.answer_challenge(alloc, numbers.first, numbers.last) {
        Ok(text) => text,
        Err(SegmentFault::NoMemory) => return Err(AllocError),
        Err(_) => return Ok(None),
    };
    let mut packet = Vec::new(alloc);
    write_answer_text(client.log_version(), &text, &mut packet)?;
    Ok(Some(packet))
}

/// The packet with the acknowledgement of what a client received at a number, if it received something there.
pub(crate) fn ack_packet(
    alloc: Global,
    client: &ClientNode,
    number: u64,
) -> Result<Option<Vec<u8>>, AllocError> {
    let Some(ack) = client.ack(number) else {
        return Ok(None);
    };
    let mut packet = Vec::new(alloc);
    write_ack(&ack, &mut packet)?;
    Ok(Some(packet))
}

/// The packet with the acknowledgement of a message, if the client has received it.
pub(crate) fn receipt_packet(
    alloc: Global,
    client: &ClientNode,
    message: &Envelope,
) -> Result<Option<Vec<u8>>, AllocError> {
    match place_of(client, message) {
        Some(number) => ack_packet(alloc, client, number),
        None => Ok(None),
    }
}

/// The number at which a client has received a message, if it has.
fn place_of(client: &ClientNode, message: &Envelope) -> Option<u64> {
    let log = client.node().log();
    let mut number: u64 = 0;
    for (entry, skipped) in log.entries().iter().zip(log.skips()) {
        number = number.saturating_add(u64::from(*skipped)).saturating_add(1);
        if is_of(entry, message) {
            return Some(number);
        }
    }
    None
}

/// Whether an entry is a RECV of a message.
fn is_of(entry: &Entry, envelope: &Envelope) -> bool {
    match entry {
        Entry::Recv {
            from,
            seq,
            prev,
            body,
            ..
        } => {
            *from == envelope.from
                && *seq == envelope.seq
                && is_same_hash(prev, &envelope.prev)
                && body.is_same(&envelope.body)
        }
        _ => false,
    }
}
