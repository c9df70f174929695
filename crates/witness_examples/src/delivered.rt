//! Bytes that are refused by themselves.

ghost use Rattle.std.specs.Prelude.{[], ◌∷◌};
ghost use Rattle.witness_spec.specs.Refusals.{UnknownNode, Garbage, BadSignature};
ghost use Rattle.witness_spec.specs.Events as events;
ghost use Rattle.witness_examples.specs.Worked.{five};
ghost use Rattle.witness_examples.specs.Bytes.{forged_packet};
ghost use Rattle.witness_examples.specs.Reaching.{IsRefused};

/// By bytes and roster alone, after every history: no bytes; a packet of a kind that there isn't; one of a
/// segment of a log of version 2 that ends after its kind; an authenticator of a stranger; one of a member
/// with a signature that isn't its own.
pub fn bytes_are_refused()
    ensures none { IsRefused (five ∷ []) (events.Deliver []) Garbage }
    ensures kind { IsRefused (five ∷ []) (events.Deliver (0 ∷ 0 ∷ 0 ∷ 6 ∷ [])) Garbage }
    ensures short { IsRefused (five ∷ []) (events.Deliver (0 ∷ 0 ∷ 0 ∷ 5 ∷ [])) Garbage }
    ensures stranger { IsRefused (five ∷ []) (events.Deliver (forged_packet 6)) UnknownNode }
    ensures forged { IsRefused (five ∷ []) (events.Deliver (forged_packet 5)) BadSignature }
{}
