//! A history of a server that answered, of values that are really signed: what the law on honest nodes
//! supposes holds of it.

ghost use Rattle.std.specs.Prelude.{◌≡◌, ℕ, List, [], Some};
ghost use Rattle.authenticator.specs.declared.member.LogVersion.TheVariants.{One};
ghost use Rattle.authenticator.specs.Roster.{IsRoster, member_of};
ghost use Rattle.secure_log.specs.LogEntries.Chain.{without_gaps};
ghost use Rattle.state_spec.specs.State.{State};
ghost use Rattle.state_spec.specs.server_spec.Replies.{reply_owed};
ghost use Rattle.replay_spec.specs.Opening.{opening_of};
ghost use Rattle.replay_spec.specs.HonestLogs.{IsHonestLog};
ghost use Rattle.witness_spec.specs.evidence_spec.Proving.{IsLogOf};
ghost use Rattle.witness_spec.specs.Events.{ItsIndication};
ghost use Rattle.witness_spec.specs.Starting.{from_the_first};
ghost use Rattle.witness_spec.specs.Replies.{Noted, Asked, Accepted, Job, Filed, Forwarded, Told, Trusted};
ghost use Rattle.witness_spec.specs.Watched.{watched};
ghost use Rattle.witness_spec.specs.Steps.{Learn, Audit, Answer, Begin, File, Forward, Ask};
ghost use Rattle.witness_spec.specs.Owing.{Owes};
ghost use Rattle.witness_spec.specs.Histories.{IsHistory, own};
ghost use Rattle.witness_spec.specs.Premises.{NoCollisionWith, Unforged};
ghost use Rattle.witness_examples.specs.Reaching.{watched_in};
ghost use Rattle.witness_examples.specs.Signed.Served.{call, reply, call_time, world_before, caller_shown};
ghost use Rattle.witness_examples.specs.Signed.Served.{server};
ghost use Rattle.witness_examples.specs.Signed.Served.{server_and_caller, served, state_after, served_end};
ghost use Rattle.witness_examples.specs.Signed.Served.{served_closed, served_job, served_done};
ghost use Rattle.witness_examples.specs.Signed.Served.{learned_served, asked_served, answered_served};
ghost use Rattle.witness_examples.specs.Signed.Served.{begun_served, filed_served, served_steps};
ghost use Rattle.witness_examples.specs.Signed.Served.{served_events};

use replay_spec::laws::sound_exactly_if;
use replay_spec::log_laws::laws::honest_servers_replay;

/// The reply that a new server owes to the call.
pub fn the_call_is_owed_the_reply()
    ensures { reply_owed world_before call_time call ≡ Some reply }
{}

/// Whatever its secret, a server that received the call, read its clock and sent that reply is learned of,
/// audited, answers, and its log is filed sound; then it is Trusted, and what its log shows of the client's
/// is forwarded.
pub fn a_server_that_answered_is_audited()
    ensures learned { (secret : List ℕ) →
        Owes (watched_in (server_and_caller secret) (server secret)) [] (Learn (served_end secret)) Noted }
    ensures asked { (secret : List ℕ) →
        Owes (watched_in (server_and_caller secret) (server secret)) (learned_served secret) Audit (Asked 1 3) }
    ensures accepted { (secret : List ℕ) →
        Owes (watched_in (server_and_caller secret) (server secret)) (asked_served secret)
        (Answer (served_closed secret)) Accepted }
    ensures begun { (secret : List ℕ) →
        Owes (watched_in (server_and_caller secret) (server secret)) (answered_served secret) Begin
        (Job (served_job secret)) }
    ensures filed { (secret : List ℕ) →
        Owes (watched_in (server_and_caller secret) (server secret)) (begun_served secret)
        (File (served_done secret)) Filed }
    ensures trusted { (secret : List ℕ) →
        Owes (watched_in (server_and_caller secret) (server secret)) (filed_served secret) (Ask ItsIndication)
        (Told Trusted) }
    ensures forwarded { (secret : List ℕ) →
        Owes (watched_in (server_and_caller secret) (server secret)) (filed_served secret) Forward
        (Forwarded caller_shown) }
{
    the_call_is_owed_the_reply();
    sound_exactly_if();
    honest_servers_replay();
}

/// These events, each with a value that is signed under the server's key or closed under the roster, and
/// their replies are a history, and the server's own steps in it are these.
pub fn histories_of_answers_are_possible()
    ensures roster { (secret : List ℕ) → IsRoster (server_and_caller secret) }
    ensures member { (secret : List ℕ) → member_of (server_and_caller secret) 5 ≡ Some (server secret) }
    ensures history { (secret : List ℕ) →
        IsHistory (from_the_first (server_and_caller secret)) (served_events secret) }
    ensures own_steps { (secret : List ℕ) →
        own (server_and_caller secret) 5 (served_events secret) ≡ served_steps secret }
{
    the_call_is_owed_the_reply();
    sound_exactly_if();
    honest_servers_replay();
    a_server_that_answered_is_audited();
}

/// All that the law on honest nodes supposes holds of this history: the log is honest, no signature is
/// forged, and no two texts have one digest, as the digests are worked out.
pub fn premises_of_answers_are_possible()
    ensures log { IsLogOf One (without_gaps served) }
    ensures honest { (secret : List ℕ) →
        IsHonestLog (server_and_caller secret) (opening_of (server secret)) (without_gaps served)
        state_after }
    ensures unforged { (secret : List ℕ) →
        Unforged (watched_in (server_and_caller secret) (server secret)) (without_gaps served)
        (own (server_and_caller secret) 5 (served_events secret)) }
    ensures unlike { (secret : List ℕ) (states : List State) →
        NoCollisionWith (watched_in (server_and_caller secret) (server secret)) (without_gaps served) states
        (own (server_and_caller secret) 5 (served_events secret)) }
{
    the_call_is_owed_the_reply();
    honest_servers_replay();
    histories_of_answers_are_possible();
}
