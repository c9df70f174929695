//! A call that was begun is carried to the server until its answer comes, three times at most.

ghost use Rattle.std.specs.Prelude.{◌≡◌, ◌≤◌, ◌↔◌, ℕ, List, IfErr, IfOk, IfSome, IsTrue, length};
ghost use Rattle.std.specs.Option.{option_map};
ghost use Rattle.secure_log.specs.declared.log_entries.entry.TheConstants.{MAX_BODY};
ghost use Rattle.remote.specs.Links.{MayBeSentAgain};
ghost use Rattle.remote_sharing.specs.Shared.{IsBegunUnderLock, IsExchangedUnderLock, IsUnaccepted};
ghost use Rattle.remote_sharing.specs.Rounds.{Ends, FitsReply, StopsCarrying};

use crate::caller::{Caller, Texts};
use crate::client::InFlight;
use remote::{AcceptFault, CallFault, Courier, CourierFault};
use std::alloc::Global;
use std::sync::Wait;

/// How often the envelope of a call is sent.
const ROUNDS: u32 = 3;

/// What came of one round.
#[derive(Drop)]
pub(crate) enum Round {
    /// The call is answered, with this reply, if one is owed.
    Answered(Option<Vec<u8>>),
    /// What came was refused, and the same envelope may be sent again.
    Again(AcceptFault),
}

/// Carries a call that was begun until its answer comes, and begins no other. The acknowledgement of a reply that was
/// logged is handed to the courier, also where the reply is another call's.
pub(crate) fn carry<R: Wait, C: Courier>(
    caller: &mut Caller<'_, R>,
    courier: &mut C,
    texts: &mut Texts,
    alloc: Global,
    call: &InFlight,
    bytes: &[u8],
) -> Result<Option<Vec<u8>>, CallFault>
    requires { IsBegunUnderLock bytes.now call.now.pending.number }
    ensures exchanged { IfOk result (λ r. IsExchangedUnderLock bytes.now (option_map (λ v. v.items) r)) }
    ensures stops { IfErr result (λ f. StopsCarrying bytes.now f) }
    ensures begun { caller.new.begun ≡ caller.old.begun }
    ensures size { IfOk result (λ r. IfSome r (λ v. length v.items ≤ MAX_BODY)) }
{
    for _round in 1..ROUNDS {
        match make_round(caller, courier, texts, alloc, call, bytes) {
            Ok(Round::Answered(reply)) => return Ok(reply),
            Ok(Round::Again(_)) => {}
            Err(fault) => return Err(fault),
        }
    }
    match make_round(caller, courier, texts, alloc, call, bytes) {
        Ok(Round::Answered(reply)) => Ok(reply),
        Ok(Round::Again(why)) => Err(CallFault::Refused(why)),
        Err(fault) => Err(fault),
    }
}

/// Carries a call to the server once, and takes what comes back.
fn make_round<R: Wait, C: Courier>(
    caller: &mut Caller<'_, R>,
    courier: &mut C,
    texts: &mut Texts,
    alloc: Global,
    call: &InFlight,
    bytes: &[u8],
) -> Result<Round, CallFault>
    requires { IsBegunUnderLock bytes.now call.now.pending.number }
    ensures ends { IfOk result (λ r. Ends bytes.now r) }
    ensures stops { IfErr result (λ f. StopsCarrying bytes.now f) }
    ensures begun { caller.new.begun ≡ caller.old.begun }
    ensures size { IfOk result FitsReply }
{
    let carried = match courier.carry(
        alloc,
        call.pending(),
        bytes,
        &texts.call,
        &mut texts.ack,
        &mut texts.reply,
    ) {
        Ok(carried) => carried,
        Err(fault) => return Err(CallFault::Uncarried(fault)),
    };
    match caller.take(alloc, call, bytes, carried, texts) {
        Some(Ok(reply)) => {
            acknowledge(courier, texts, alloc, reply.is_some());
            Ok(Round::Answered(reply))
        }
        Some(Err(why)) => {
            let is_received = write_other(caller, texts, &why);
            acknowledge(courier, texts, alloc, is_received);
            refused(why)
        }
        None => Err(CallFault::Uncarried(CourierFault::Lost)),
    }
}

/// What came back for a call was refused.
fn refused(why: AcceptFault) -> Result<Round, CallFault>
    ensures ends { (body : List ℕ) → IsUnaccepted body why → IfOk result (λ r. Ends body r) }
    ensures stops { (body : List ℕ) → IsUnaccepted body why → IfErr result (λ f. StopsCarrying body f) }
    ensures size { IfOk result FitsReply }
{
    if may_be_sent_again(&why) {
        Ok(Round::Again(why))
    } else {
        Err(CallFault::Refused(why))
    }
}

/// Hands the acknowledgement of a reply over, if one was received. Where memory is refused for that the server doesn't
/// get it.
fn acknowledge<C: Courier>(courier: &mut C, texts: &Texts, alloc: Global, is_received: bool) {
    if is_received {
        let _ = courier.acknowledge(alloc, &texts.receipt);
    }
}

/// Writes the acknowledgement of the reply that is another call's, if one was received.
fn write_other<R: Wait>(caller: &Caller<'_, R>, texts: &mut Texts, why: &AcceptFault) -> bool {
    match why {
        AcceptFault::AnotherCall(place) => caller.write_receipt(*place, &mut texts.receipt),
        _ => false,
    }
}

/// Whether the same envelope is sent again after a fault.
fn may_be_sent_again(why: &AcceptFault) -> bool
    ensures { IsTrue result ↔ MayBeSentAgain why.now }
{
    matches!(why, AcceptFault::NotAcknowledged | AcceptFault::Unanswered)
}
