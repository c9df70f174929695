//! Each refusal of each event, with a history that reaches it. Those that an audit meets after long
//! histories stand in `limits`.

ghost use Rattle.std.specs.Prelude.{◌≡◌, ◌<◌, ℕ, suc, List, [], ◌∷◌, Ok};
ghost use Rattle.witness_spec.specs.Refusals.{UnknownNode, BadSignature, LearnedFull, ChallengesFull};
ghost use Rattle.witness_spec.specs.Refusals.{NothingToAudit, Busy, NotAsked, NoJob, WrongJob};
ghost use Rattle.witness_spec.specs.Refusals.{NoMemory, refusal_number};
ghost use Rattle.witness_spec.specs.Events.{ItsIndication, ItsChallenges, ItsEvidence, Event, IsEvent};
ghost use Rattle.witness_spec.specs.Events as events;
ghost use Rattle.witness_spec.specs.Replies.{Noted, Already, Refused, FileRefused, PutBackRefused, refused};
ghost use Rattle.witness_spec.specs.Starting.{Beginning};
ghost use Rattle.witness_spec.specs.Steps.{Learn, SendChallenge, Answer, AckIn, Audit, Begin, File, PutBack};
ghost use Rattle.witness_spec.specs.Whose.{whose};
ghost use Rattle.witness_spec.specs.Owing.{Owes};
ghost use Rattle.witness_spec.specs.Histories.{MayWant, IsHistory};
ghost use Rattle.envelopes.specs.declared.acknowledgement.Ack.{Ack};
ghost use Rattle.witness_examples.specs.Worked.{
  five,
  node_five,
  second,
  its_key,
  other_key,
  higher_key,
  learned,
};
ghost use Rattle.witness_examples.specs.Worked.{sent};
ghost use Rattle.witness_examples.specs.Worked.{one_hash};
ghost use Rattle.witness_examples.specs.Worked.{learned_two, closed, two_wanted, wanted, given, job, done};
ghost use Rattle.witness_examples.specs.Worked.{out_one};
ghost use Rattle.witness_examples.specs.Worked.{out_two, other_state, other_segment, filed_two};
ghost use Rattle.witness_examples.specs.Worked.{second_wanted};
ghost use Rattle.witness_examples.specs.Worked.{exposed_wanted, exposed_given, exposed_out, no_filed};
ghost use Rattle.witness_examples.specs.Worked.{challenged};
ghost use Rattle.witness_examples.specs.Worked.{learned_to};
ghost use Rattle.witness_examples.specs.Reaching.{Reaches, IsRefused};

/// By event and roster alone, after every history: a value of a stranger, an envelope of a stranger or to
/// one, and whatever is to be done about a stranger.
pub fn strangers_are_unknown()
    ensures learn { IsRefused [] (events.Learn (learned 3 one_hash) its_key) UnknownNode }
    ensures sender { IsRefused (five ∷ []) (events.SendChallenge (sent 1) other_key) UnknownNode }
    ensures receiver { IsRefused (second ∷ []) (events.SendChallenge (sent 1) other_key) UnknownNode }
    ensures answer { IsRefused [] (events.Answer closed) UnknownNode }
    ensures ack { (a : Ack) → IsRefused [] (events.AckIn a its_key) UnknownNode }
    ensures audit { IsRefused (five ∷ []) (events.Audit 6) UnknownNode }
    ensures begin { IsRefused (five ∷ []) (events.Begin 6) UnknownNode }
    ensures file { IsRefused [] (events.File (done 1)) UnknownNode }
    ensures put_back { IsRefused [] (events.PutBack (job 1)) UnknownNode }
    ensures forward { IsRefused (five ∷ []) (events.Forward 6) UnknownNode }
    ensures indication { IsRefused (five ∷ []) (events.Ask 6 ItsIndication) UnknownNode }
    ensures challenges { IsRefused (five ∷ []) (events.Ask 6 ItsChallenges) UnknownNode }
    ensures evidence { IsRefused (five ∷ []) (events.Ask 6 ItsEvidence) UnknownNode }
{}

/// By event and roster alone, after every history: a value that was checked under another root or height, or
/// under another roster; and for comparison one that was checked under this one.
pub fn other_keys_are_refused()
    ensures learn { IsRefused (five ∷ []) (events.Learn (learned 3 one_hash) other_key) BadSignature }
    ensures height { IsRefused (five ∷ []) (events.Learn (learned 3 one_hash) higher_key) BadSignature }
    ensures challenge { IsRefused (five ∷ second ∷ []) (events.SendChallenge (sent 1) its_key) BadSignature }
    ensures answer { IsRefused (five ∷ []) (events.Answer closed) BadSignature }
    ensures ack { (a : Ack) →
        IsRefused (five ∷ []) (events.AckIn (record a { by = 5 }) other_key) BadSignature }
    ensures its { whose (five ∷ []) (events.Learn (learned 3 one_hash) its_key)
        ≡ Ok (record { member = five; step = Learn (learned 3 one_hash) }) }
{}

/// Of authenticators with rising numbers 256 are noted, one after the other; the next is refused.
pub fn as_many_as_are_kept()
    ensures noted { (n : ℕ) → n < 256 →
        Owes node_five (learned_to n) (Learn (learned (suc n) one_hash)) Noted }
    ensures full { Reaches node_five (learned_to 256) (Learn (learned 257 one_hash)) (Refused LearnedFull) }
{}

/// Sixteen challenges are open: a seventeenth message is refused, one of the sixteen is there already.
pub fn as_many_as_are_open()
    ensures full { Reaches node_five (challenged 16) (SendChallenge (sent 17)) (Refused ChallengesFull) }
    ensures already { Reaches node_five (challenged 16) (SendChallenge (sent 3)) Already }
{}

/// A segment that wasn't asked for: none was; another last number, or another first one; one was given; a job
/// of it is out.
#[tactic(auto, unfolding(replay_spec::specs::Stepping::step))]
pub fn answers_not_asked()
    ensures none { Reaches node_five [] (Answer closed) (Refused NotAsked) }
    ensures last { Reaches node_five two_wanted (Answer closed) (Refused NotAsked) }
    ensures first { Reaches node_five second_wanted (Answer closed) (Refused NotAsked) }
    ensures given { Reaches node_five given (Answer closed) (Refused NotAsked) }
    ensures out { Reaches node_five out_one (Answer closed) (Refused NotAsked) }
{}

/// An acknowledgement of no open challenge: none is open; another message is.
pub fn acknowledgements_not_asked()
    ensures none { (a : Ack) → Reaches node_five [] (AckIn a) (Refused NotAsked) }
    ensures other { (a : Ack) →
        Reaches node_five (challenged 1) (AckIn (record a { seq = 2 })) (Refused NotAsked) }
{}

/// An audit, where one is under way: a segment is asked for, or given, or a job of it is out; the node may be
/// exposed. Where none is: nothing was learned, nothing above the end, or the node is exposed, by two hashes
/// or by a fault.
pub fn audits_refused()
    ensures wanted { Reaches node_five wanted Audit (Refused Busy) }
    ensures given { Reaches node_five given Audit (Refused Busy) }
    ensures out { Reaches node_five out_one Audit (Refused Busy) }
    ensures exposed_wanted { Reaches node_five exposed_wanted Audit (Refused Busy) }
    ensures exposed_given { Reaches node_five exposed_given Audit (Refused Busy) }
    ensures exposed_out { Reaches node_five exposed_out Audit (Refused Busy) }
    ensures nothing { Reaches node_five [] Audit (Refused NothingToAudit) }
    ensures audited { Reaches node_five filed_two Audit (Refused NothingToAudit) }
    ensures two_hashes { Reaches node_five learned_two Audit (Refused NothingToAudit) }
    ensures fault { Reaches node_five no_filed Audit (Refused NothingToAudit) }
{}

/// A job, where one is out, of an exposed node too. Where none is: no segment was asked for, or none given,
/// or the node is exposed.
pub fn begins_refused()
    ensures out { Reaches node_five out_one Begin (Refused Busy) }
    ensures exposed_out { Reaches node_five exposed_out Begin (Refused Busy) }
    ensures none { Reaches node_five [] Begin (Refused NothingToAudit) }
    ensures wanted { Reaches node_five wanted Begin (Refused NothingToAudit) }
    ensures exposed { Reaches node_five exposed_given Begin (Refused NothingToAudit) }
{}

/// A done value where no job is out; and where one is out, of another number, state or segment. It comes
/// back.
pub fn files_refused()
    ensures none { Reaches node_five [] (File (done 1)) (FileRefused NoJob (done 1)) }
    ensures given { Reaches node_five given (File (done 1)) (FileRefused NoJob (done 1)) }
    ensures number { Reaches node_five out_two (File (done 1)) (FileRefused WrongJob (done 1)) }
    ensures state { Reaches node_five out_one (File other_state) (FileRefused WrongJob other_state) }
    ensures segment { Reaches node_five out_one (File other_segment) (FileRefused WrongJob other_segment) }
{}

/// A job that is put back, likewise.
pub fn jobs_refused()
    ensures none { Reaches node_five [] (PutBack (job 1)) (PutBackRefused NoJob (job 1)) }
    ensures given { Reaches node_five given (PutBack (job 1)) (PutBackRefused NoJob (job 1)) }
    ensures number { Reaches node_five out_two (PutBack (job 1)) (PutBackRefused WrongJob (job 1)) }
    ensures state { Reaches node_five out_one (PutBack other_state.job)
        (PutBackRefused WrongJob other_state.job) }
    ensures segment { Reaches node_five out_one (PutBack other_segment.job)
        (PutBackRefused WrongJob other_segment.job) }
{}

/// Out of memory: this may come in place of any reply but what is told of an indication, and but the reply to
/// a job that is put back. A history may begin with it.
pub fn memory_may_be_wanting()
    ensures any { (g : Beginning) (event : Event) → IsEvent event → MayWant event →
        IsHistory g ((event, refused event NoMemory) ∷ []) }
    ensures its_number { refusal_number NoMemory ≡ 14 }
{}
