//! A worked run: all that the laws suppose can hold at once, and what they then say.

ghost use Rattle.std.specs.Prelude.{ℕ, List, [], ◌∷◌, ◌++◌};
ghost use Rattle.xdr.specs.Item.{Fits};
ghost use Rattle.secure_log.specs.LogEntries.Chain.{NoCollision};
ghost use Rattle.envelopes.specs.Envelope.{envelope_item, envelope_shows, envelope_value};
ghost use Rattle.envelopes.specs.Acknowledgement.{ack_item, ack_shows, ack_value};
ghost use Rattle.commitment.specs.Senders.LookUps.{FitsEnvelope};
ghost use Rattle.witness_spec.specs.Starting.{from_the_first};
ghost use Rattle.witness_spec.specs.Standing.{audited};
ghost use Rattle.witness_spec.specs.Histories.{own_of};
ghost use Rattle.witness_laws.specs.Audits.{IsShown};
ghost use Rattle.witness_examples.specs.Signed.Served.{call, reply, server_and_caller, served_events};
ghost use Rattle.assured_replies.specs.Owed.{IsOwedIn, start_of};
ghost use Rattle.assured_replies.specs.Laws.{AnswersFor, audited_texts, message_texts, receipt_texts};
ghost use Rattle.assured_replies.specs.Example.{its_ack, its_call, its_reply, watched_server};

use crate::laws::audited_replies_answer_their_calls;
use replay_spec::laws::sound_exactly_if;
use replay_spec::log_laws::laws::honest_servers_replay;
use witness_examples::signed::answers::histories_of_answers_are_possible;

/// Of a server that was called once, answered and was audited, all premises of
/// `audited_replies_answer_their_calls` hold at once.
pub fn premises_are_possible()
    ensures audited { (secret : List ℕ) →
        AnswersFor (from_the_first (server_and_caller secret)) (watched_server secret) (served_events secret) 3 }
    ensures reply { (secret : List ℕ) → Fits envelope_item (envelope_value (its_reply secret)) }
    ensures reply_shown { (secret : List ℕ) →
        IsShown (watched_server secret) (own_of (watched_server secret) (served_events secret))
        (envelope_shows (its_reply secret)) }
    ensures ack { (secret : List ℕ) → Fits ack_item (ack_value (its_ack secret)) }
    ensures of_call { (secret : List ℕ) → FitsEnvelope (its_ack secret) its_call }
    ensures ack_shown { (secret : List ℕ) →
        IsShown (watched_server secret) (own_of (watched_server secret) (served_events secret))
        (ack_shows (its_ack secret)) }
    ensures unlike { (secret : List ℕ) → NoCollision
        (audited_texts (watched_server secret) (own_of (watched_server secret) (served_events secret))
        ++ (message_texts (its_reply secret) ++ (receipt_texts (its_ack secret) ++ call ∷ []))) }
{
    sound_exactly_if();
    honest_servers_replay();
    histories_of_answers_are_possible();
}

/// So its reply is the one that it owed to that call.
pub fn its_reply_was_owed()
    ensures { (secret : List ℕ) → IsOwedIn (start_of (watched_server secret))
        (audited (watched_server secret) (own_of (watched_server secret) (served_events secret))) 3 6 call reply }
{
    premises_are_possible();
    audited_replies_answer_their_calls();
}
