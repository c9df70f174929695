//! What a witness still does of a node that is exposed.

ghost use Rattle.std.specs.Prelude.{◌≡◌, [], ◌∷◌, Some};
ghost use Rattle.state_spec.specs.State.{opening_client};
ghost use Rattle.witness_spec.specs.Refusals.{NotAsked, NothingToAudit};
ghost use Rattle.witness_spec.specs.Events.{ItsIndication, ItsChallenges, ItsEvidence};
ghost use Rattle.witness_spec.specs.Replies.{Opened, Accepted, Filed, Told, OpenList, EvidenceIs, Refused};
ghost use Rattle.witness_spec.specs.Replies.{AuditOf, SendOf, Exposed};
ghost use Rattle.witness_spec.specs.Steps.{SendChallenge, Answer, Audit, File, Ask};
ghost use Rattle.witness_spec.specs.Standing.{end_of};
ghost use Rattle.witness_examples.specs.Worked.{node_five, sent, closed, done, no_done, state_read};
ghost use Rattle.witness_examples.specs.Worked.{fork_at_three};
ghost use Rattle.witness_examples.specs.Worked.{exposed_wanted, exposed_out};
ghost use Rattle.witness_examples.specs.Exposed.{exposed_challenged, exposed_answered, exposed_filed};
ghost use Rattle.witness_examples.specs.Exposed.{no_exposed_out, no_exposed_filed};
ghost use Rattle.witness_examples.specs.Reaching.{Reaches};

/// An exposed node is challenged with a message, and the segment that was asked for before is accepted and
/// closes the audit; then it is given. The first evidence stays.
pub fn challenges_and_answers_go_on()
    ensures opened { Reaches node_five exposed_wanted (SendChallenge (sent 1)) Opened }
    ensures both { Reaches node_five exposed_challenged (Ask ItsChallenges)
        (OpenList (AuditOf 1 1 ∷ SendOf (sent 1) ∷ [])) }
    ensures accepted { Reaches node_five exposed_challenged (Answer closed) Accepted }
    ensures one { Reaches node_five exposed_answered (Ask ItsChallenges) (OpenList (SendOf (sent 1) ∷ [])) }
    ensures given { Reaches node_five exposed_answered (Answer closed) (Refused NotAsked) }
    ensures exposed { Reaches node_five exposed_answered (Ask ItsIndication) (Told Exposed) }
    ensures evidence { Reaches node_five exposed_answered (Ask ItsEvidence)
        (EvidenceIs (Some fork_at_three)) }
{}

/// A job that was out of an exposed node is filed. Sound, it moves the end; with a fault, it doesn't. Either
/// way the first evidence stays.
#[tactic(auto, unfolding(replay_spec::specs::Stepping::step))]
pub fn the_first_evidence_stays()
    ensures sound { Reaches node_five exposed_out (File (done 1)) Filed }
    ensures end { end_of node_five exposed_filed ≡ record { number = 1; state = state_read } }
    ensures evidence { Reaches node_five exposed_filed (Ask ItsEvidence) (EvidenceIs (Some fork_at_three)) }
    ensures fault { Reaches node_five no_exposed_out (File no_done) Filed }
    ensures no_end { end_of node_five no_exposed_filed ≡ record { number = 0; state = opening_client 5 } }
    ensures first { Reaches node_five no_exposed_filed (Ask ItsEvidence) (EvidenceIs (Some fork_at_three)) }
    ensures nothing { Reaches node_five no_exposed_filed Audit (Refused NothingToAudit) }
{}
