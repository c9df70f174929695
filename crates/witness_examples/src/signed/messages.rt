//! Histories of signed values: of a client that is exposed, and of one that acknowledges a message that it is
//! challenged with.

ghost use Rattle.std.specs.Prelude.{◌≡◌, ℕ, List, []};
ghost use Rattle.witness_spec.specs.Starting.{from_the_first};
ghost use Rattle.witness_spec.specs.Replies.{Noted, Opened, Closed, Exposed};
ghost use Rattle.witness_spec.specs.Watched.{watched};
ghost use Rattle.witness_spec.specs.Steps.{Learn, SendChallenge, AckIn};
ghost use Rattle.witness_spec.specs.Standing.{indication};
ghost use Rattle.witness_spec.specs.Owing.{Owes};
ghost use Rattle.witness_spec.specs.Histories.{IsHistory, own};
ghost use Rattle.witness_examples.specs.Reaching.{watched_in};
ghost use Rattle.witness_examples.specs.Signed.Audited.{alone, client, signed};
ghost use Rattle.witness_examples.specs.Signed.Shown.{ones, twos, one_step, forked_steps, forked_events};
ghost use Rattle.witness_examples.specs.Signed.Shown.{both, message, acknowledged, challenged_step};
ghost use Rattle.witness_examples.specs.Signed.Shown.{acknowledged_steps, acknowledged_events};

/// Two hashes at one number, each signed by the client, are noted, and the client is Exposed.
pub fn signed_forks_expose()
    ensures first { (secret : List ℕ) →
        Owes (watched_in (alone secret) (client secret)) [] (Learn (signed secret 0 1 ones)) Noted }
    ensures second { (secret : List ℕ) →
        Owes (watched_in (alone secret) (client secret)) (one_step secret)
        (Learn (signed secret 1 1 twos)) Noted }
    ensures exposed { (secret : List ℕ) →
        indication (watched_in (alone secret) (client secret)) (forked_steps secret) ≡ Exposed }
{}

/// These events, signed under the client's key, and their replies are a history.
pub fn signed_forks_are_possible()
    ensures history { (secret : List ℕ) → IsHistory (from_the_first (alone secret)) (forked_events secret) }
    ensures own_steps { (secret : List ℕ) →
        own (alone secret) 5 (forked_events secret) ≡ forked_steps secret }
{
    signed_forks_expose();
}

/// A message that another client signed challenges the client, and its acknowledgement, which the client
/// signed, closes the challenge.
pub fn signed_acknowledgements_close()
    ensures opened { (secret other : List ℕ) →
        Owes (watched_in (both secret other) (client secret)) [] (SendChallenge (message other)) Opened }
    ensures closed { (secret other : List ℕ) →
        Owes (watched_in (both secret other) (client secret)) (challenged_step other)
        (AckIn (acknowledged secret other)) Closed }
{}

/// These events, signed under the keys of both clients, and their replies are a history.
pub fn signed_acknowledgements_are_possible()
    ensures history { (secret other : List ℕ) →
        IsHistory (from_the_first (both secret other)) (acknowledged_events secret other) }
    ensures own_steps { (secret other : List ℕ) →
        own (both secret other) 5 (acknowledged_events secret other) ≡ acknowledged_steps secret other }
{
    signed_acknowledgements_close();
}
