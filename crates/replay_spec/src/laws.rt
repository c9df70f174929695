//! What holds of replays, and of how honest logs grow.

ghost use Rattle.std.specs.Prelude.{◌≡◌, ◌≢◌, ℕ, List, [], ◌∷◌};
ghost use Rattle.merkle_keys.specs.Signing.{SignatureParts};
ghost use Rattle.secure_log.specs.declared.log_entries.entry.Entry.TheVariants.{Send, Recv, Ack, Clock};
ghost use Rattle.secure_log.specs.declared.log_entries.entry.Entry.TheVariants.{Check};
ghost use Rattle.state_spec.specs.State.{Heard, Owes, opening_client};
ghost use Rattle.replay_spec.specs.Stepping.{BadForm, BadReceive, WrongReply, ClockBack, BadAck};
ghost use Rattle.replay_spec.specs.Stepping.{WrongCheckpoint};
ghost use Rattle.replay_spec.specs.Replay.{Sound, Fault};
ghost use Rattle.replay_spec.specs.Examples.{server_verdict, client_verdict, client_digest, verdict_at};
ghost use Rattle.replay_spec.specs.Examples.{owed_sent};
ghost use Rattle.replay_spec.specs.Laws.{StepsAsItTakes, OneRun, SoundExactlyIf, FaultExactlyIf};
ghost use Rattle.replay_spec.specs.Laws.{PartsAreHonest, PlacesAreJoined, PlacesHavePairs};
ghost use Rattle.replay_spec.specs.Laws.{OpeningsHaveNoMessages, NoEntries, OneEntryMore, EntriesMore};
ghost use Rattle.replay_spec.specs.Laws.{OneLastState, NodeStays};

pub use secure_log::tests_as_it_is_signed;

/// The step that computes is the one that the rules say: it gives a state exactly where an entry leads to it.
pub fn steps_as_it_takes()
    ensures { StepsAsItTakes }
{}

/// Entries have one list of states at most.
pub fn one_run()
    ensures { OneRun }
{}

/// A replay is Sound exactly where some list of states is honest, with its last state and what entries show.
pub fn sound_exactly_if()
    ensures { SoundExactlyIf }
{}

/// A replay is Fault exactly where an entry is the first that has one, with its kind and its number.
pub fn fault_exactly_if()
    ensures { FaultExactlyIf }
{}

/// Entries in two parts are honest where the first part is and the second is after it.
pub fn parts_are_honest()
    ensures { PartsAreHonest }
{}

/// Places are joined as entries are, and have the pairs of the chain.
pub fn places_are_joined()
    ensures joined { PlacesAreJoined }
    ensures pairs { PlacesHavePairs }
{}

/// A member of a roster begins without messages.
pub fn openings_have_no_messages()
    ensures { OpeningsHaveNoMessages }
{}

/// A log without entries is honest, and an honest log stays so by entries that may stand after its last
/// state.
pub fn logs_grow()
    ensures none { NoEntries }
    ensures one { OneEntryMore }
    ensures more { EntriesMore }
{}

/// An honest log has one last state, which is of the node that it began with.
pub fn one_last_state()
    ensures one { OneLastState }
    ensures node { NodeStays }
{}

/// A server's faults, as they are worked out: of its first entry, and of an entry where it heard a message,
/// with number 2, or owes a reply, with number 3.
pub fn servers_have_faults()
    ensures send { server_verdict (Send 2 [] ∷ []) ≡ Fault WrongReply 1 }
    ensures clock { server_verdict (Clock 1 0 ∷ []) ≡ Fault BadForm 1 }
    ensures stranger { (seq : ℕ) (prev body : List ℕ) (signature : SignatureParts) →
        server_verdict (Recv 2 seq prev body signature ∷ []) ≡ Fault BadReceive 1 }
    ensures ack { (seq number : ℕ) (mine prev : List ℕ) (signature : SignatureParts) →
        server_verdict (Ack 2 seq mine number prev signature ∷ []) ≡ Fault BadAck 1 }
    ensures send_before_clock { verdict_at (Heard 2 []) 2 (Send 2 []) ≡ Fault BadForm 2 }
    ensures second_clock { verdict_at (Owes 2 (7 ∷ [])) 3 (Clock 1 0) ≡ Fault BadForm 3 }
    ensures check_before_reply { (digest : List ℕ) →
        verdict_at (Owes 2 (7 ∷ [])) 3 (Check digest) ≡ Fault WrongReply 3 }
    ensures other_reply { verdict_at (Owes 2 (7 ∷ [])) 3 (Send 2 (8 ∷ [])) ≡ Fault WrongReply 3 }
    ensures other_receiver { verdict_at (Owes 2 (7 ∷ [])) 3 (Send 3 (7 ∷ [])) ≡ Fault WrongReply 3 }
    ensures reply { verdict_at (Owes 2 (7 ∷ [])) 3 (Send 2 (7 ∷ [])) ≡ Sound (owed_sent 2 (7 ∷ []) 3) [] }
    ensures recv_before_clock { (seq : ℕ) (prev body : List ℕ) (signature : SignatureParts) →
        verdict_at (Heard 2 []) 2 (Recv 3 seq prev body signature) ≡ Fault BadForm 2 }
    ensures recv_before_reply { (seq : ℕ) (prev body : List ℕ) (signature : SignatureParts) →
        verdict_at (Owes 2 (7 ∷ [])) 3 (Recv 3 seq prev body signature) ≡ Fault WrongReply 3 }
    ensures ack_before_reply { (seq number : ℕ) (mine prev : List ℕ) (signature : SignatureParts) →
        verdict_at (Owes 2 (7 ∷ [])) 3 (Ack 2 seq mine number prev signature) ≡ Fault WrongReply 3 }
{}

/// A client's faults, as they are worked out. It may send and read its clock at any time.
pub fn clients_have_faults()
    ensures back { client_verdict (Clock 1 0 ∷ Clock 0 999_999 ∷ []) ≡ Fault ClockBack 2 }
    ensures microseconds { client_verdict (Clock 0 1_000_000 ∷ []) ≡ Fault BadForm 1 }
    ensures form_before_time { client_verdict (Clock 1 0 ∷ Clock 0 1_000_000 ∷ []) ≡ Fault BadForm 2 }
    ensures stranger { (seq : ℕ) (prev body : List ℕ) (signature : SignatureParts) →
        client_verdict (Clock 0 5 ∷ Recv 1 seq prev body signature ∷ []) ≡ Fault BadReceive 2 }
    ensures checkpoint { (digest : List ℕ) → digest ≢ client_digest →
        client_verdict (Check digest ∷ []) ≡ Fault WrongCheckpoint 1 }
    ensures right_checkpoint { client_verdict (Check client_digest ∷ []) ≡ Sound (opening_client 2) [] }
{}
