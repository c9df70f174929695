//! What holds between nodes and witnesses.

ghost use Rattle.witness_node_laws.specs.Logs.{KeepsALog};
ghost use Rattle.witness_node_laws.specs.Laws.{IsNeverExposed, OwnWordsNeverExpose, OwnWordsCanBeAnswered};
ghost use Rattle.witness_node_laws.specs.Laws.{AskedCanBeAnswered, AnswersOfNodesAreAccepted};
ghost use Rattle.witness_node_laws.specs.Laws.{AcksOfNodesClose, BasesOfNodesAreGood};
ghost use Rattle.witness_node_laws.specs.Laws.{ReceivedCallsAreLogged, TakenRepliesAreLogged};
ghost use Rattle.witness_node_laws.specs.Laws.{ReceivedCallsClose, TakenRepliesClose};

use crate::texts::entries_have_texts;
use commitment::laws::{
    each_received_message_is_acknowledged, each_send_and_recv_is_signed,
    what_a_sender_shows_is_of_its_log,
};
use node_logs::NodeLog;
use packets::laws::packets_are_taken_as_meant;
use secure_log::laws::a_log_has_one_pair_for_each_place;
use std::alloc::Global;
use witness_laws::answers::laws::{acknowledgements_close, answers_are_accepted};
use witness_laws::trust::laws::honest_is_never_exposed;

/// A node's log is one that the laws on witnesses speak of: its entries have texts and bodies of bytes, and
/// numbers of its log's version; unless the node strayed it is honest from the state that a member like this
/// node begins with, and each authenticator that the node makes is of it. Takes memory once for each
/// signature in it, and tells a caller's proof.
pub fn a_node_keeps_a_log(alloc: Global, node: &NodeLog)
    ensures { KeepsALog node.now }
{
    node.is_honest();
    node.log().has_numbers();
    entries_have_texts(alloc, node.log().entries());
    what_a_sender_shows_is_of_its_log();
    a_log_has_one_pair_for_each_place();
}

/// A node that didn't stray is never exposed by a witness that begins under its roster, with whatever bases,
/// where none of its signatures is forged and no two texts have one digest.
pub fn a_node_is_never_exposed(alloc: Global, node: &NodeLog)
    ensures { IsNeverExposed node.now }
{
    a_node_keeps_a_log(alloc, node);
    honest_is_never_exposed();
}

/// Nor is it where the witness has no base of it, all that it was shown of the node's log is what the node
/// itself showed, and no two texts of that log have one digest. Nothing is supposed of signatures.
pub fn own_words_never_expose(alloc: Global, node: &NodeLog)
    ensures { OwnWordsNeverExpose node.now }
{
    a_node_is_never_exposed(alloc, node);
    what_a_sender_shows_is_of_its_log();
    a_log_has_one_pair_for_each_place();
}

/// Where an audit is open, a node that signed at the last number that it asks for, and in whose log a segment
/// may begin with the first, refuses the challenge with its numbers only where memory runs out: they are in
/// order, at most as many as a segment may have.
pub fn what_is_asked_can_be_answered()
    ensures { AskedCanBeAnswered }
{}

/// So it does where the roster gives its log the version that it has, the witness has no base of it and all
/// that it was shown of its log is what the node itself showed: an audit asks from after the last segment's end on, which is an
/// entry's number, up to a number that was learned, and there the node signed.
pub fn own_words_can_be_answered(node: &NodeLog)
    ensures { OwnWordsCanBeAnswered node.now }
{
    node.is_honest();
    each_send_and_recv_is_signed();
    what_a_sender_shows_is_of_its_log();
    a_log_has_one_pair_for_each_place();
    what_is_asked_can_be_answered();
}

/// What a node answers to the challenge with the numbers that an audit asked for is accepted, and closes the
/// audit, as a checked value and as a packet.
pub fn answers_of_nodes_are_accepted()
    ensures { AnswersOfNodesAreAccepted }
{
    answers_are_accepted();
    packets_are_taken_as_meant();
}

/// The acknowledgement of a message whose RECV stands in a node's log closes the challenge with that message,
/// as a checked value and as a packet.
pub fn acknowledgements_of_nodes_close()
    ensures { AcksOfNodesClose }
{
    acknowledgements_close();
    what_a_sender_shows_is_of_its_log();
    packets_are_taken_as_meant();
}

/// The base that a node gives is good under each roster in which the node stands, with its number, kind, key
/// and the version of its log, whether it strayed or not: what it shows is closed, and its state is of the
/// node and of its kind, and knows few messages.
pub fn bases_of_nodes_are_good(node: &NodeLog)
    ensures { BasesOfNodesAreGood node.now }
{
    node.is_honest();
}

/// The RECV of a message that a node received, now or before, stands in its log at the number that it gives.
pub fn what_is_received_is_logged()
    ensures calls { ReceivedCallsAreLogged }
    ensures replies { TakenRepliesAreLogged }
{
    each_received_message_is_acknowledged();
}

/// So the acknowledgement that a node gives of the envelope of an open challenge closes it, of a message that
/// is new to it and of one that it received before.
pub fn received_challenges_close()
    ensures calls { ReceivedCallsClose }
    ensures replies { TakenRepliesClose }
{
    what_is_received_is_logged();
    acknowledgements_of_nodes_close();
}
