//! Long histories, and what the limits refuse after them.

ghost use Rattle.std.specs.Prelude.{◌≡◌, [], ◌∷◌};
ghost use Rattle.witness_spec.specs.Refusals.{OutboxFull, TooFar, BookFull};
ghost use Rattle.witness_spec.specs.Starting.{from_the_first};
ghost use Rattle.witness_spec.specs.Replies.{Asked, Refused, Forwarded, Empty};
ghost use Rattle.state_spec.specs.State.{opening_client};
ghost use Rattle.witness_spec.specs.Watched.{watched};
ghost use Rattle.witness_spec.specs.Steps.{Audit, Forward};
ghost use Rattle.witness_spec.specs.Standing.{end_of, audited, outbox};
ghost use Rattle.witness_spec.specs.Histories.{AreOwed};
ghost use Rattle.witness_examples.specs.Reaching.{watched_in};
ghost use Rattle.witness_examples.specs.Worked.{five, node_five};
ghost use Rattle.witness_examples.specs.Limits.Audits.{clients, rounds, sender, heard, with_learned};
ghost use Rattle.witness_examples.specs.Limits.Audits.{forwarded_one};
ghost use Rattle.witness_examples.specs.Limits.Audits.{second_state, filed_second};
ghost use Rattle.secure_log.specs.LogEntries.Chain.{without_gaps};
ghost use Rattle.secure_log.specs.declared.log_entries.entry.Entry.TheVariants.{Clock};
ghost use Rattle.witness_examples.specs.Reaching.{Reaches};

/// At first 4,096 entries are asked for at most; an authenticator of a number further on is too far away.
pub fn the_first_audit()
    ensures most { Reaches (watched_in clients five) (with_learned 4_096 []) Audit (Asked 1 4_096) }
    ensures far { Reaches (watched_in clients five) (with_learned 4_097 []) Audit (Refused TooFar) }
    ensures both { Reaches (watched_in clients five) (with_learned 4_096 (with_learned 4_097 [])) Audit
        (Asked 1 4_096) }
{}

/// A second audit is of the entries after the first, from the state where that ended; its job has the next
/// number.
pub fn the_second_audit()
    ensures own { AreOwed node_five filed_second }
    ensures end { end_of node_five filed_second ≡ record { number = 2; state = second_state } }
    ensures audited { audited node_five filed_second ≡ without_gaps (Clock 1 0 ∷ Clock 2 0 ∷ []) }
{}

/// Sixteen audits of 4,096 readings of the clock each, all sound, end at 65,536. What is learned further on
/// can't be asked for: BookFull where it is near, else TooFar.
pub fn sixteen_audits()
    ensures own { AreOwed (watched_in clients five) (rounds 16) }
    ensures end { end_of (watched_in clients five) (rounds 16)
        ≡ record { number = 65_536; state = opening_client 5 } }
    ensures full { Reaches (watched_in clients five) (with_learned 65_537 (rounds 16)) Audit (Refused BookFull) }
    ensures near { Reaches (watched_in clients five) (with_learned 69_632 (rounds 16)) Audit (Refused BookFull) }
    ensures far { Reaches (watched_in clients five) (with_learned 69_633 (rounds 16)) Audit (Refused TooFar) }
{}

/// After fifteen such audits, and one of a message that was received, of which one authenticator waits in
/// the outbox: an audit up to 65,536 is asked for, with 4,095 entries; one up to 65,537 would have no room in
/// the outbox either, and is refused for the book.
pub fn the_last_number()
    ensures end { (end_of (watched_in clients five) (heard 15)).number ≡ 61_441 }
    ensures waits { outbox (watched_in clients five) (heard 15) ≡ sender ∷ [] }
    ensures last { Reaches (watched_in clients five) (with_learned 65_536 (heard 15)) Audit
        (Asked 61_442 65_536) }
    ensures full { Reaches (watched_in clients five) (with_learned 65_537 (heard 15)) Audit (Refused BookFull) }
{}

/// A message that the node received was audited, Sound: its sender's authenticator joins the outbox. While it
/// waits there, 4,095 entries may be asked for and not 4,096; it is forwarded once, and then there is room.
pub fn findings_wait()
    ensures waits { outbox (watched_in clients five) (heard 0) ≡ sender ∷ [] }
    ensures room { Reaches (watched_in clients five) (with_learned 4_096 (heard 0)) Audit (Asked 2 4_096) }
    ensures no_room { Reaches (watched_in clients five) (with_learned 4_097 (heard 0)) Audit
        (Refused OutboxFull) }
    ensures forwarded { Reaches (watched_in clients five) (heard 0) Forward (Forwarded sender) }
    ensures empty { Reaches (watched_in clients five) forwarded_one Forward Empty }
    ensures room_again { Reaches (watched_in clients five) (with_learned 4_097 forwarded_one) Audit
        (Asked 2 4_097) }
{}
