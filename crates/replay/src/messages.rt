//! Whether messages, their acknowledgements and the digests of states are what they claim.

ghost use Rattle.std.specs.Prelude.{◌≡◌, IfOk};
ghost use Rattle.secure_log.specs.LogEntries.Messages.{receipt_hash};
ghost use Rattle.authenticator.specs.Signing.{is_signed_in};
ghost use Rattle.replay_spec.specs.Steps.{received_message};
ghost use Rattle.replay_spec.specs.Stepping.{is_bad_ack, is_bad_receive, is_repeated, is_wrong_checkpoint};

use crate::turns::is_same;
use authenticator::{Roster, Word, is_signed};
use checkpoint::{ReceivedMessage, SentMessage, State, state_digest};
use merkle_keys::Signature;
use replay_spec::laws::tests_as_it_is_signed;
use secure_log::log_entries::{Body, Entry, Receipt, message_hash, receipt_hash};
use std::alloc::{AllocError, Global};

/// A RECV's sender is the node itself or a stranger, or its signature isn't the sender's, of the hash that is
/// made from sender, word, hash before it and body.
pub(crate) fn is_bad_receive(roster: &Roster, state: &State, entry: &Entry) -> bool
    ensures { result ≡ is_bad_receive roster.now state.now.state entry.now }
{
    let Entry::Recv {
        from,
        seq,
        prev,
        body,
        signature,
    } = entry
    else {
        return false;
    };
    let hash = message_hash(state.node(), *seq, prev, &body.digest());
    *from == state.node() || !is_signed_in(roster, *from, *seq, &hash, signature.signature())
}

/// A RECV's sender, word and hash are among those received.
pub(crate) fn is_repeated(state: &State, entry: &Entry) -> bool
    ensures { result ≡ is_repeated state.now.state entry.now }
{
    let Entry::Recv {
        from,
        seq,
        prev,
        body,
        signature: _,
    } = entry
    else {
        return false;
    };
    state
        .received()
        .contains(&received_message(state.node(), *from, *seq, prev, body))
}

/// An ACK fits no message that was sent and has no ACK yet, or its signature isn't the receiver's.
pub(crate) fn is_bad_ack(roster: &Roster, state: &State, entry: &Entry) -> bool
    ensures { result ≡ is_bad_ack roster.now state.now.state entry.now }
{
    let Entry::Ack {
        to,
        seq,
        mine,
        number,
        prev,
        signature,
    } = entry
    else {
        return false;
    };
    let Some(message) = state.sends().get(seq.get()) else {
        return true;
    };
    let hash = acknowledged_hash(state.node(), *seq, &message, mine, *number, prev);
    message.to() != *to
        || !is_signed_in(roster, message.to(), *number, &hash, signature.signature())
}

/// A CHECK isn't the digest of the state.
pub(crate) fn is_wrong_checkpoint(
    alloc: Global,
    state: &State,
    entry: &Entry,
) -> Result<bool, AllocError>
    ensures { IfOk result (λ wrong. wrong ≡ is_wrong_checkpoint state.now.state entry.now) }
{
    let Entry::Check { digest } = entry else {
        return Ok(false);
    };
    Ok(!is_same(digest, &state_digest(alloc, state)?))
}

/// The message that a RECV in the log of a node takes in.
pub(crate) fn received_message(
    node: u32,
    from: u32,
    seq: Word,
    prev: &[u8; 32],
    body: &Body,
) -> ReceivedMessage
    ensures { result ≡ received_message node from seq prev.now body.now }
{
    ReceivedMessage::new(
        from,
        seq.get(),
        message_hash(node, seq, prev, &body.digest()),
    )
}

/// The hash in the receiver's log, at the RECV of a message that a node sent, that an ACK of it shows.
pub(crate) fn acknowledged_hash(
    node: u32,
    seq: Word,
    message: &SentMessage,
    mine: &[u8; 32],
    number: Word,
    prev: &[u8; 32],
) -> [u8; 32]
    ensures { result ≡ receipt_hash node seq message.now.prev message.now.body_hash mine.now number prev.now }
{
    let receipt = Receipt {
        from: node,
        seq,
        sender_prev: *message.prev(),
        body: *message.body_hash(),
        signature: *mine,
    };
    receipt_hash(&receipt, number, prev)
}

/// A node is a member that signed that its log has this hash at this word.
fn is_signed_in(
    roster: &Roster,
    node: u32,
    word: Word,
    hash: &[u8; 32],
    signature: &Signature,
) -> bool
    ensures { result ≡ is_signed_in roster.now (record {
      node = node;
      word = word;
      hash = hash.now;
      signature = signature.now;
    }) }
{
    tests_as_it_is_signed();
    match roster.member(node) {
        Some(member) => is_signed(&member, node, word, hash, signature),
        None => false,
    }
}
