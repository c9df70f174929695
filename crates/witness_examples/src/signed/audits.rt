//! A history of values that are really signed: what the laws on honest nodes suppose holds of it.

ghost use Rattle.std.specs.Prelude.{◌≡◌, ℕ, List, [], Some, Ok};
ghost use Rattle.std.specs.List.{AllByRecursion};
ghost use Rattle.authenticator.specs.declared.member.LogVersion.TheVariants.{One};
ghost use Rattle.authenticator.specs.Roster.{IsRoster, member_of};
ghost use Rattle.authenticator.specs.Signed.{IsSignedBy};
ghost use Rattle.secure_log.specs.LogEntries.Chain.{zeros, without_gaps};
ghost use Rattle.secure_log.specs.Log.{IsOfPlace};
ghost use Rattle.secure_log.specs.LogEntries.Words.{MaySkip};
ghost use Rattle.secure_log.specs.Part.{GivesPart, open_entries, open_links};
ghost use Rattle.secure_log.specs.declared.open.OpenSegment.{OpenSegment};
ghost use Rattle.state_spec.specs.State.{State};
ghost use Rattle.replay_spec.specs.Opening.{opening_of};
ghost use Rattle.replay_spec.specs.HonestLogs.{IsHonestLog};
ghost use Rattle.witness_spec.specs.evidence_spec.Proving.{IsLogOf};
ghost use Rattle.witness_spec.specs.Events.{ItsIndication};
ghost use Rattle.witness_spec.specs.Starting.{from_the_first};
ghost use Rattle.witness_spec.specs.Replies.{Noted, Asked, Accepted, Job, Filed, Told, Trusted};
ghost use Rattle.witness_spec.specs.Watched.{watched};
ghost use Rattle.witness_spec.specs.Steps.{Learn, Audit, Answer, Begin, File, Ask};
ghost use Rattle.witness_spec.specs.Owing.{Owes};
ghost use Rattle.witness_spec.specs.Standing.{Wanted, stage_of};
ghost use Rattle.witness_spec.specs.Histories.{IsHistory, own};
ghost use Rattle.witness_spec.specs.Premises.{NoCollisionWith, Unforged};
ghost use Rattle.witness_examples.specs.Reaching.{watched_in};
ghost use Rattle.witness_examples.specs.Signed.Audited.{readings, state_read};
ghost use Rattle.witness_examples.specs.Signed.Audited.{alone, client, signed_end, signed_closed, signed_job};
ghost use Rattle.witness_examples.specs.Signed.Audited.{signed_done};
ghost use Rattle.witness_examples.specs.Signed.Audited.{learned_step, asked_step, answered_step, begun_step};
ghost use Rattle.witness_examples.specs.Signed.Audited.{filed_step};
ghost use Rattle.witness_examples.specs.Signed.Audited.{audited_events, audited_steps, asked_event, its_log};

/// Whatever its secret, a client is learned of, audited, answers, and its log is filed sound; then it is
/// Trusted.
#[tactic(auto, unfolding(replay_spec::specs::Stepping::step))]
pub fn a_signed_log_is_audited()
    ensures learned { (secret : List ℕ) →
        Owes (watched_in (alone secret) (client secret)) [] (Learn (signed_end secret)) Noted }
    ensures asked { (secret : List ℕ) →
        Owes (watched_in (alone secret) (client secret)) (learned_step secret) Audit (Asked 1 1) }
    ensures accepted { (secret : List ℕ) →
        Owes (watched_in (alone secret) (client secret)) (asked_step secret)
        (Answer (signed_closed secret)) Accepted }
    ensures begun { (secret : List ℕ) →
        Owes (watched_in (alone secret) (client secret)) (answered_step secret) Begin (Job (signed_job secret)) }
    ensures filed { (secret : List ℕ) →
        Owes (watched_in (alone secret) (client secret)) (begun_step secret) (File (signed_done secret)) Filed }
    ensures trusted { (secret : List ℕ) →
        Owes (watched_in (alone secret) (client secret)) (filed_step secret) (Ask ItsIndication) (Told Trusted) }
{}

/// These events, each with a value that is signed under the client's key or closed under the roster, and
/// their replies are a history, and the client's own steps in it are these.
#[tactic(auto, unfolding(replay_spec::specs::Stepping::step))]
pub fn signed_histories_are_possible()
    ensures roster { (secret : List ℕ) → IsRoster (alone secret) }
    ensures member { (secret : List ℕ) → member_of (alone secret) 5 ≡ Some (client secret) }
    ensures history { (secret : List ℕ) → IsHistory (from_the_first (alone secret)) (audited_events secret) }
    ensures own_steps { (secret : List ℕ) →
        own (alone secret) 5 (audited_events secret) ≡ audited_steps secret }
{
    a_signed_log_is_audited();
}

/// All that the law on honest nodes supposes holds of this history: the log is honest, no signature is
/// forged, and no two texts have one digest, as the digests are worked out.
pub fn honest_premises_are_possible()
    ensures log { IsLogOf One (without_gaps readings) }
    ensures honest { (secret : List ℕ) →
        IsHonestLog (alone secret) (opening_of (client secret)) (without_gaps readings) state_read }
    ensures unforged { (secret : List ℕ) →
        Unforged (watched_in (alone secret) (client secret)) (without_gaps readings)
        (own (alone secret) 5 (audited_events secret)) }
    ensures unlike { (secret : List ℕ) (states : List State) →
        NoCollisionWith (watched_in (alone secret) (client secret)) (without_gaps readings) states
        (own (alone secret) 5 (audited_events secret)) }
{
    signed_histories_are_possible();
}

/// All that the law on answers supposes holds after the second of these events: the whole log was asked for,
/// the part that holds it is the log's and skips nothing, and what closes it is of the log's last place, and
/// signed.
pub fn answer_premises_are_possible()
    ensures history { (secret : List ℕ) → IsHistory (from_the_first (alone secret)) (asked_event secret) }
    ensures asked { (secret : List ℕ) →
        stage_of (own (alone secret) 5 (asked_event secret)) ≡ Wanted 1 1 }
    ensures part { (s : OpenSegment) →
        s.log_version ≡ One → s.node ≡ 5 → s.first ≡ 1 → s.opening ≡ zeros →
        open_entries s ≡ without_gaps readings → GivesPart its_log 1 1 (Ok s) }
    ensures skips { (s : OpenSegment) →
        s.log_version ≡ One → open_entries s ≡ without_gaps readings →
        AllByRecursion (MaySkip s.log_version) (open_links s) }
    ensures place { (secret : List ℕ) → IsOfPlace its_log 1 (signed_end secret) }
    ensures signed { (secret : List ℕ) → IsSignedBy (client secret) (signed_end secret) }
{
    signed_histories_are_possible();
}
