//! A witness, closed.

ghost use Rattle.std.specs.Prelude.{◌≡◌, IfErr, IfOk};
ghost use Rattle.witness_service.specs.Claims.{claims_of};
ghost use Rattle.witness_service.specs.Closing.{IsClosed, IsFault};
ghost use Rattle.witness_calls.specs.Closing.{IsFaulty, IsOneRun, passes_in};

use witness_service::{Closed, Pass, ReceiptFault, WitnessService};

/// Closes a witness with all its passes. `Ok` has its journal and these passes: what each of them was
/// answered stands there once, in its order, and no other step does; so all steps make one history, from the
/// roster and the bases with which the witness was opened. Else it is a fault, with all of these:
/// `NotInJournal` where the passes don't fit. Takes no memory.
pub fn close(service: WitnessService, passes: Vec<Pass>) -> Result<Closed, ReceiptFault>
    ensures closed { IfOk result (IsClosed service passes.items) }
    ensures run { IfOk result IsOneRun }
    ensures fault { IfErr result (IsFault service passes.items) }
    ensures faulty { IfErr result IsFaulty }
    ensures kept { IfOk result (λ c. claims_of c.passes.items ≡ claims_of passes.items) }
    ensures back { IfErr result (λ f. claims_of (passes_in f) ≡ claims_of passes.items) }
{
    match service.close(passes) {
        Ok(closed) => Ok(closed),
        Err(fault) => Err(fault),
    }
}
