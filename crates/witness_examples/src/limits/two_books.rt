//! What one node's log shows of another.

ghost use Rattle.std.specs.Prelude.{◌≡◌, ◌≢◌, [], ◌∷◌};
ghost use Rattle.witness_spec.specs.Events.{ItsIndication};
ghost use Rattle.witness_spec.specs.Starting.{from_the_first};
ghost use Rattle.witness_spec.specs.Replies.{Noted, Forwarded, Empty, Told, Trusted, Exposed};
ghost use Rattle.witness_spec.specs.Watched.{watched};
ghost use Rattle.witness_spec.specs.Standing.{outbox};
ghost use Rattle.witness_spec.specs.Steps.{Learn, Forward, Ask};
ghost use Rattle.witness_examples.specs.Reaching.{watched_in};
ghost use Rattle.witness_examples.specs.Worked.{five};
ghost use Rattle.witness_examples.specs.Limits.Audits.{six, clients, sent_hash, sender};
ghost use Rattle.witness_examples.specs.Limits.Forwarding.{other_sent_hash, other_sender, both_audited};
ghost use Rattle.witness_examples.specs.Limits.Forwarding.{one_forwarded};
ghost use Rattle.witness_examples.specs.Limits.Forwarding.{both_forwarded, one_arrived, both_arrived};
ghost use Rattle.witness_examples.specs.Reaching.{Reaches};

/// A client signed two messages of one number. The one that received both is audited, Sound, and what the
/// messages show joins the outbox, in order; each is forwarded once, and it stays Trusted. In the sender's
/// book the two are Noted, and it is Exposed. The two digests are worked out.
#[tactic(auto, using(crate::proofs::OfLimits::Digests::unlike))]
pub fn forks_are_forwarded()
    ensures two { other_sent_hash ≢ sent_hash }
    ensures found { outbox (watched_in clients five) both_audited ≡ sender ∷ other_sender ∷ [] }
    ensures first { Reaches (watched_in clients five) both_audited Forward (Forwarded sender) }
    ensures noted { Reaches (watched_in clients six) [] (Learn sender) Noted }
    ensures second { Reaches (watched_in clients five) one_forwarded Forward (Forwarded other_sender) }
    ensures noted_too { Reaches (watched_in clients six) one_arrived (Learn other_sender) Noted }
    ensures empty { Reaches (watched_in clients five) both_forwarded Forward Empty }
    ensures exposed { Reaches (watched_in clients six) both_arrived (Ask ItsIndication) (Told Exposed) }
    ensures trusted { Reaches (watched_in clients five) both_forwarded (Ask ItsIndication) (Told Trusted) }
{}
