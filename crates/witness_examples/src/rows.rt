//! Worked histories of one node.

ghost use Rattle.std.specs.Prelude.{◌≡◌, ℕ, List, [], ◌∷◌, Some, None, Ok, Err};
ghost use Rattle.authenticator.specs.declared.authenticator.Authenticator.{Authenticator};
ghost use Rattle.envelopes.specs.Envelope.{envelope_message};
ghost use Rattle.envelopes.specs.Acknowledgement.{acked_message};
ghost use Rattle.envelopes.specs.declared.acknowledgement.Ack.{Ack};
ghost use Rattle.envelopes.specs.declared.envelope.Envelope.{Envelope};
ghost use Rattle.witness_spec.specs.Refusals.{WrongJob, NothingToAudit};
ghost use Rattle.witness_spec.specs.Events.{ItsIndication, ItsChallenges, ItsEvidence};
ghost use Rattle.witness_spec.specs.Starting.{from_the_first};
ghost use Rattle.witness_spec.specs.Replies.{Noted, Already, Opened, Accepted, Closed, Asked, Job, Filed};
ghost use Rattle.witness_spec.specs.Replies.{Returned};
ghost use Rattle.witness_spec.specs.Replies.{Forwarded, Empty, Told, OpenList, EvidenceIs, Refused};
ghost use Rattle.witness_spec.specs.Replies.{FileRefused, AuditOf, SendOf};
ghost use Rattle.witness_spec.specs.Replies.{Trusted, Suspected, Exposed};
ghost use Rattle.witness_spec.specs.Watched.{Watched};
ghost use Rattle.witness_spec.specs.Steps.{Learn, SendChallenge, Answer, AckIn, Audit, Begin, File, PutBack};
ghost use Rattle.witness_spec.specs.Steps.{Forward, Ask, Past};
ghost use Rattle.state_spec.specs.State.{opening_client};
ghost use Rattle.witness_spec.specs.Standing.{end_of, outbox};
ghost use Rattle.witness_spec.specs.Owing.{Owes};
ghost use Rattle.witness_spec.specs.Histories.{IsHistory};
ghost use Rattle.witness_examples.specs.Worked.{five, node_five, learned, sent, one_hash, other_hash};
ghost use Rattle.witness_examples.specs.Worked.{learned_one};
ghost use Rattle.witness_examples.specs.Worked.{learned_two, fork_at_three, read_hash, closed, known, wanted};
ghost use Rattle.witness_examples.specs.Worked.{given, job, done, out_one, put_back, out_two, filed_two};
ghost use Rattle.witness_examples.specs.Worked.{state_read, no_out, no_done, no_filed, fault_at_one};
ghost use Rattle.witness_examples.specs.Worked.{some_events};
ghost use Rattle.witness_examples.specs.Answered.{received_closed, both_wanted, one_answered};
ghost use Rattle.witness_examples.specs.Reaching.{Reaches};

/// An authenticator is learned twice: Noted, Already. Another hash at its number: Noted, and the node is
/// Exposed, by a fork of the two; from then on every one is Noted.
pub fn two_hashes_expose()
    ensures first { Reaches node_five [] (Learn (learned 3 one_hash)) Noted }
    ensures again { Reaches node_five learned_one (Learn (learned 3 one_hash)) Already }
    ensures trusted { Reaches node_five learned_one (Ask ItsIndication) (Told Trusted) }
    ensures other { Reaches node_five learned_one (Learn (learned 3 other_hash)) Noted }
    ensures exposed { Reaches node_five learned_two (Ask ItsIndication) (Told Exposed) }
    ensures evidence { Reaches node_five learned_two (Ask ItsEvidence) (EvidenceIs (Some fork_at_three)) }
    ensures later { Reaches node_five learned_two (Learn (learned 3 one_hash)) Noted }
{}

/// A node is challenged with a message: it is Suspected until its acknowledgement comes. A second challenge
/// with the message changes nothing.
pub fn acknowledgements_close()
    ensures opened { (e : Envelope) → Reaches node_five [] (SendChallenge e) Opened }
    ensures suspected { (e : Envelope) →
        Reaches node_five ((SendChallenge e, Opened) ∷ []) (Ask ItsIndication) (Told Suspected) }
    ensures list { (e : Envelope) →
        Reaches node_five ((SendChallenge e, Opened) ∷ []) (Ask ItsChallenges) (OpenList (SendOf e ∷ [])) }
    ensures again { (e : Envelope) →
        Reaches node_five ((SendChallenge e, Opened) ∷ []) (SendChallenge e) Already }
    ensures closed { (e : Envelope) (a : Ack) → acked_message a ≡ envelope_message e →
        Reaches node_five ((SendChallenge e, Opened) ∷ []) (AckIn a) Closed }
    ensures trusted { (e : Envelope) (a : Ack) → acked_message a ≡ envelope_message e →
        Reaches node_five ((AckIn a, Closed) ∷ (SendChallenge e, Opened) ∷ [])
        (Ask ItsIndication) (Told Trusted) }
{}

/// A node is challenged with two messages, and its log is asked for. The segment that it gives has the RECV
/// of the first: that closes the audit and the challenge with the first message. The second stays open.
pub fn answers_close_challenges()
    ensures opened { Reaches node_five both_wanted (Ask ItsChallenges)
        (OpenList (SendOf (sent 1) ∷ SendOf (sent 2) ∷ AuditOf 1 1 ∷ [])) }
    ensures accepted { Reaches node_five both_wanted (Answer received_closed) Accepted }
    ensures left { Reaches node_five one_answered (Ask ItsChallenges) (OpenList (SendOf (sent 2) ∷ [])) }
    ensures suspected { Reaches node_five one_answered (Ask ItsIndication) (Told Suspected) }
{}

/// An audit asks up to what was learned, and the segment is accepted: the node is Suspected in between.
pub fn an_audit_is_answered()
    ensures asked { Reaches node_five known Audit (Asked 1 1) }
    ensures suspected { Reaches node_five wanted (Ask ItsIndication) (Told Suspected) }
    ensures accepted { Reaches node_five wanted (Answer closed) Accepted }
    ensures begun { Reaches node_five given Begin (Job (job 1)) }
{}

/// Two witnesses are given one segment of a node, and both begin job 1. The first takes it back and begins
/// job 2: the other's done job 1 is refused there and comes back, its own job 2 is filed; and the other files
/// its own job 1.
pub fn jobs_have_numbers()
    ensures back { Reaches node_five out_one (PutBack (job 1)) Returned }
    ensures again { Reaches node_five put_back Begin (Job (job 2)) }
    ensures wrong { Reaches node_five out_two (File (done 1)) (FileRefused WrongJob (done 1)) }
    ensures right { Reaches node_five out_two (File (done 2)) Filed }
    ensures other { Reaches node_five out_one (File (done 1)) Filed }
{}

/// Forward gives the oldest of the outbox, which is taken out; Empty where there is none.
pub fn the_oldest_is_forwarded()
    ensures oldest { (w : Watched) (past : Past) (a : Authenticator)
        (rest : List Authenticator) → outbox w past ≡ a ∷ rest → Owes w past Forward (Forwarded a) }
    ensures taken { (w : Watched) (past : Past) (a : Authenticator)
        (rest : List Authenticator) → outbox w past ≡ a ∷ rest →
        outbox w ((Forward, Forwarded a) ∷ past) ≡ rest }
    ensures empty { Reaches node_five [] Forward Empty }
{}

/// A segment that is filed Sound moves the end to its last number, with the state there, and the node is
/// Trusted; what was learned up to there is kept no more.
#[tactic(auto, unfolding(replay_spec::specs::Stepping::step))]
pub fn sound_segments_move_the_end()
    ensures end { end_of node_five filed_two ≡ record { number = 1; state = state_read } }
    ensures trusted { Reaches node_five filed_two (Ask ItsIndication) (Told Trusted) }
    ensures nothing { Reaches node_five filed_two Audit (Refused NothingToAudit) }
{}

/// A segment that isn't honest exposes the node when it is filed, by a replay from the first entry on.
#[tactic(auto, unfolding(replay_spec::specs::Stepping::step))]
pub fn faults_expose()
    ensures filed { Reaches node_five no_out (File no_done) Filed }
    ensures exposed { Reaches node_five no_filed (Ask ItsIndication) (Told Exposed) }
    ensures evidence { Reaches node_five no_filed (Ask ItsEvidence) (EvidenceIs (Some fault_at_one)) }
    ensures end { end_of node_five no_filed ≡ record { number = 0; state = opening_client 5 } }
    ensures nothing { Reaches node_five no_filed Audit (Refused NothingToAudit) }
{}

/// Events of a roster with the replies that are owed to them are a history: what is nobody's step among them.
pub fn histories_are_possible()
    ensures { IsHistory (from_the_first (five ∷ [])) (some_events) }
{}
