//! A history of values that are really signed, of a witness that begins at a base: what the law on honest
//! nodes supposes holds of it.

ghost use Rattle.std.specs.Prelude.{◌≡◌, ℕ, List, [], ◌∷◌, Some};
ghost use Rattle.authenticator.specs.declared.member.LogVersion.TheVariants.{One};
ghost use Rattle.witness_spec.specs.evidence_spec.Proving.{IsLogOf};
ghost use Rattle.witness_spec.specs.Events.{ItsIndication};
ghost use Rattle.secure_log.specs.LogEntries.Chain.{zeros};
ghost use Rattle.witness_spec.specs.Refusals.{BelowBase};
ghost use Rattle.witness_spec.specs.Replies.{Noted, Already, Refused, Asked, Accepted, Job, Filed, Told};
ghost use Rattle.witness_spec.specs.Replies.{Trusted, Exposed};
ghost use Rattle.witness_spec.specs.Starting.{IsBeginning};
ghost use Rattle.witness_spec.specs.Watched.{IsInRoster};
ghost use Rattle.witness_spec.specs.Steps.{Learn, Audit, Answer, Begin, File, Ask};
ghost use Rattle.witness_spec.specs.Standing.{indication};
ghost use Rattle.witness_spec.specs.Exposing.{evidence};
ghost use Rattle.witness_spec.specs.Owing.{Owes};
ghost use Rattle.witness_spec.specs.Histories.{IsHistory, Stands, own_of};
ghost use Rattle.witness_spec.specs.Contract.{starting_books};
ghost use Rattle.witness_spec.specs.Premises.{Unforged};
ghost use Rattle.replay_spec.specs.Placed.{places_in};
ghost use Rattle.replay_spec.specs.Replay.{Fault, verdict_of};
ghost use Rattle.replay_spec.specs.Stepping.{ClockBack};
ghost use Rattle.witness_examples.specs.Reaching.{Reaches};
ghost use Rattle.witness_examples.specs.Signed.Audited.{alone, signed, state_read};
ghost use Rattle.witness_examples.specs.Signed.Based.{back_begun, back_done, back_evidence, back_filed};
ghost use Rattle.witness_examples.specs.Signed.Based.{back_segment};
ghost use Rattle.witness_examples.specs.Signed.Based.{check_hash, other_check, forked_later, forked_evidence};
ghost use Rattle.witness_examples.specs.Signed.Based.{checked_log, from_base, watched_later, later_end};
ghost use Rattle.witness_examples.specs.Signed.Based.{later_closed, later_job, later_done, later_events};
ghost use Rattle.witness_examples.specs.Signed.Based.{learned_later, asked_later, answered_later};
ghost use Rattle.witness_examples.specs.Signed.Based.{begun_later, filed_later, later_steps, later_book};
ghost use Rattle.witness_examples.specs.Signed.Based.{IsHonestUnlike};

/// Whatever its secret, a client's base at its CHECK is one that a witness may begin with, and from which the
/// client is watched.
pub fn bases_are_possible()
    ensures beginning { (secret : List ℕ) → IsBeginning (from_base secret) }
    ensures member { (secret : List ℕ) → IsInRoster (watched_later secret) }
{}

/// From there a client is learned of, audited from the entry after the base on, answers, and the rest of its
/// log is filed sound; then it is Trusted.
#[tactic(auto, unfolding(replay_spec::specs::Stepping::step))]
pub fn a_log_is_audited_from_a_base()
    ensures learned { (secret : List ℕ) → Owes (watched_later secret) [] (Learn (later_end secret)) Noted }
    ensures asked { (secret : List ℕ) →
        Owes (watched_later secret) (learned_later secret) Audit (Asked 3 3) }
    ensures accepted { (secret : List ℕ) →
        Owes (watched_later secret) (asked_later secret) (Answer (later_closed secret)) Accepted }
    ensures begun { (secret : List ℕ) →
        Owes (watched_later secret) (answered_later secret) Begin (Job (later_job secret)) }
    ensures filed { (secret : List ℕ) →
        Owes (watched_later secret) (begun_later secret) (File (later_done secret)) Filed }
    ensures trusted { (secret : List ℕ) →
        Owes (watched_later secret) (filed_later secret) (Ask ItsIndication) (Told Trusted) }
{}

/// These events, each with a value that is signed under the client's key or closed under the roster, and
/// their replies are a history from that beginning, and the client's own steps in it are these.
#[tactic(auto, unfolding(replay_spec::specs::Stepping::step))]
pub fn histories_from_bases_are_possible()
    ensures history { (secret : List ℕ) → IsHistory (from_base secret) (later_events secret) }
    ensures own_steps { (secret : List ℕ) →
        own_of (watched_later secret) (later_events secret) ≡ later_steps secret }
{
    a_log_is_audited_from_a_base();
}

/// All that the law on honest nodes supposes holds of this history: the log is honest, no signature is
/// forged, and no two texts have one digest, as the digests are worked out, of the states too.
pub fn premises_with_a_base_are_possible()
    ensures log { IsLogOf One checked_log }
    ensures unforged { (secret : List ℕ) →
        Unforged (watched_later secret) checked_log (own_of (watched_later secret) (later_events secret)) }
    ensures honest { (secret : List ℕ) → IsHonestUnlike secret }
{
    histories_from_bases_are_possible();
}

/// The books of this beginning stand where nothing was handed in yet, and this book after the audit.
pub fn books_from_bases_stand()
    ensures first { (secret : List ℕ) → Stands (from_base secret) (starting_books (from_base secret)) [] }
    ensures later { (secret : List ℕ) →
        Stands (from_base secret) (later_book secret ∷ []) (later_events secret) }
{
    histories_from_bases_are_possible();
}

/// What a base shows counts as shown: its CHECK's hash is known already, and another hash there is a fork
/// with the base's showing. A number below all that it shows is refused, but of a client that is exposed.
#[tactic(auto, using(crate::proofs::OfSigned::BasedTexts::ones_apart))]
pub fn bases_show()
    ensures known { (secret : List ℕ) →
        Owes (watched_later secret) [] (Learn (signed secret 1 2 check_hash)) Already }
    ensures below { (secret : List ℕ) →
        Owes (watched_later secret) [] (Learn (signed secret 1 0 zeros)) (Refused BelowBase) }
    ensures noted { (secret : List ℕ) →
        Owes (watched_later secret) [] (Learn (other_check secret)) Noted }
    ensures exposed { (secret : List ℕ) → indication (watched_later secret) (forked_later secret) ≡ Exposed }
    ensures evidence { (secret : List ℕ) →
        evidence (watched_later secret) (forked_later secret) ≡ Some (forked_evidence secret) }
    ensures below_exposed { (secret : List ℕ) →
        Owes (watched_later secret) (forked_later secret) (Learn (signed secret 1 0 zeros)) Noted }
{}

/// A replay begins with the base's state: a clock that goes back from there is a fault, which the base and
/// the entries after it prove.
#[tactic(auto, unfolding(replay_spec::specs::Stepping::step))]
pub fn faults_after_a_base_expose()
    ensures verdict { (secret : List ℕ) →
        verdict_of (alone secret) state_read (places_in (back_segment secret)) ≡ Fault ClockBack 3 }
    ensures filed { (secret : List ℕ) →
        Reaches (watched_later secret) (back_begun secret) (File (back_done secret)) Filed }
    ensures exposed { (secret : List ℕ) →
        Reaches (watched_later secret) (back_filed secret) (Ask ItsIndication) (Told Exposed) }
    ensures evidence { (secret : List ℕ) →
        evidence (watched_later secret) (back_filed secret) ≡ Some (back_evidence secret) }
{}
