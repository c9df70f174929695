//! What holds of all calls of the two programs.

ghost use Rattle.std.specs.Prelude.{◌≡◌, ◌<◌, ◌^◌, ◌++◌, Bool, List, ℕ, Ok, Option, Some};
ghost use Rattle.xdr.specs.Item.{IsBytes};
ghost use Rattle.rpc.specs.Call.{message_at};
ghost use Rattle.peer_calls.specs.Answers.{IsBaseAnswer, IsCase, NodeCase, base_at, base_results, case_at, case_text};
ghost use Rattle.peer_calls.specs.Answers.{stands_at, stands_text};
ghost use Rattle.peer_calls.specs.Calls.{call_text, judged};
ghost use Rattle.peer_calls.specs.NodeRequests.{IsNodeAsk, NodeAsk, node_arguments, node_ask_at, node_procedure};
ghost use Rattle.peer_calls.specs.WitnessRequests.{IsWitnessAsk, WitnessAsk, witness_arguments, witness_ask_at};
ghost use Rattle.peer_calls.specs.WitnessRequests.{witness_procedure};

/// A call that is written asks of its program what it says.
pub fn calls_ask_what_they_say()
    ensures { (xid program procedure : ℕ) (arguments : List ℕ) → xid < 2 ^ 32 → program < 2 ^ 32 →
        procedure < 2 ^ 32 →
        judged program (message_at (call_text xid program procedure ++ arguments))
        ≡ Ok (record { xid = xid; procedure = procedure; arguments = arguments }) }
{}

/// What is asked of a node is read of its arguments, and of no others: each request has one text.
pub fn node_requests_have_one_text()
    ensures read { (a : NodeAsk) → IsNodeAsk a → node_ask_at (node_procedure a) (node_arguments a) ≡ Ok a }
    ensures only { (procedure : ℕ) (bytes : List ℕ) (a : NodeAsk) → IsBytes bytes →
        node_ask_at procedure bytes ≡ Ok a →
        (procedure ≡ node_procedure a) × (bytes ≡ node_arguments a) × IsNodeAsk a }
{}

/// What is asked of a witness is read of its arguments, and of no others.
pub fn witness_requests_have_one_text()
    ensures read { (a : WitnessAsk) → IsWitnessAsk a →
        witness_ask_at (witness_procedure a) (witness_arguments a) ≡ Ok a }
    ensures only { (procedure : ℕ) (bytes : List ℕ) (a : WitnessAsk) → IsBytes bytes →
        witness_ask_at procedure bytes ≡ Ok a →
        (procedure ≡ witness_procedure a) × (bytes ≡ witness_arguments a) × IsWitnessAsk a }
{}

/// What is answered to STANDS, to CASE and to BASE is read as what it is.
pub fn answers_are_read_as_written()
    ensures stands { (b : Bool) → stands_at (stands_text b) ≡ Some b }
    ensures case { (c : NodeCase) → IsCase c → case_at (case_text c) ≡ Some c }
    ensures base { (b : Option (List ℕ)) → IsBaseAnswer b → base_at (base_results b) ≡ Some b }
{}
