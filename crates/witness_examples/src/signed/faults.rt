//! A history of values that are really signed, in which a segment with a fault is filed: what the laws on who
//! differs in an audited log suppose holds of it.

ghost use Rattle.std.specs.Prelude.{◌≡◌, ℕ, List, []};
ghost use Rattle.witness_spec.specs.Events.{ItsIndication};
ghost use Rattle.witness_spec.specs.Starting.{from_the_first};
ghost use Rattle.witness_spec.specs.Replies.{Noted, Asked, Accepted, Job, Filed, Told, Exposed};
ghost use Rattle.witness_spec.specs.Watched.{watched};
ghost use Rattle.witness_spec.specs.Steps.{Learn, Audit, Answer, Begin, File, Ask};
ghost use Rattle.witness_spec.specs.Owing.{Owes};
ghost use Rattle.witness_spec.specs.Standing.{indication};
ghost use Rattle.witness_spec.specs.Histories.{IsHistory, own};
ghost use Rattle.witness_spec.specs.Laws.{HasFaultyFile};
ghost use Rattle.witness_examples.specs.Reaching.{watched_in};
ghost use Rattle.witness_examples.specs.Signed.Audited.{alone, client};
ghost use Rattle.witness_examples.specs.Signed.Faulty.{back_end, back_closed, back_job, back_done};
ghost use Rattle.witness_examples.specs.Signed.Faulty.{back_events};
ghost use Rattle.witness_examples.specs.Signed.Faulty.{back_steps, learned_back, asked_back, answered_back};
ghost use Rattle.witness_examples.specs.Signed.Faulty.{begun_back, filed_back};

/// Whatever its secret, a client whose clock goes back is learned of, audited, answers, and its log is filed
/// with that fault; then it is Exposed.
#[tactic(auto, unfolding(replay_spec::specs::Stepping::step))]
pub fn a_faulty_log_is_audited()
    ensures learned { (secret : List ℕ) →
        Owes (watched_in (alone secret) (client secret)) [] (Learn (back_end secret)) Noted }
    ensures asked { (secret : List ℕ) →
        Owes (watched_in (alone secret) (client secret)) (learned_back secret) Audit (Asked 1 2) }
    ensures accepted { (secret : List ℕ) →
        Owes (watched_in (alone secret) (client secret)) (asked_back secret)
        (Answer (back_closed secret)) Accepted }
    ensures begun { (secret : List ℕ) →
        Owes (watched_in (alone secret) (client secret)) (answered_back secret) Begin (Job (back_job secret)) }
    ensures filed { (secret : List ℕ) →
        Owes (watched_in (alone secret) (client secret)) (begun_back secret) (File (back_done secret)) Filed }
    ensures exposed { (secret : List ℕ) →
        Owes (watched_in (alone secret) (client secret)) (filed_back secret) (Ask ItsIndication) (Told Exposed) }
{}

/// These events and their replies are a history, the client's own steps in it are these, and one of them was
/// a File that was answered Filed for a segment that no list of states makes honest. Then it is Exposed.
#[tactic(auto, unfolding(replay_spec::specs::Stepping::step))]
pub fn faulty_histories_are_possible()
    ensures history { (secret : List ℕ) → IsHistory (from_the_first (alone secret)) (back_events secret) }
    ensures own_steps { (secret : List ℕ) → own (alone secret) 5 (back_events secret) ≡ back_steps secret }
    ensures faulty { (secret : List ℕ) →
        HasFaultyFile (watched_in (alone secret) (client secret)) (own (alone secret) 5 (back_events secret)) }
    ensures exposed { (secret : List ℕ) →
        indication (watched_in (alone secret) (client secret)) (own (alone secret) 5 (back_events secret))
        ≡ Exposed }
{
    a_faulty_log_is_audited();
}
