//! One of those who call by a client under a lock. The lock is held for a step of the client alone: where a call is begun,
//! where what came back for it is taken, and where it is ended.

ghost use Rattle.std.specs.Prelude.{◌≡◌, ◌≤◌, IfErr, IfOk, IfSome, OnErr, OnOk, length};
ghost use Rattle.std.specs.Option.{option_map};
ghost use Rattle.secure_log.specs.declared.log_entries.entry.TheConstants.{MAX_BODY};
ghost use Rattle.remote_sharing.specs.Shared.{IsBegunUnderLock, IsExchangedUnderLock, IsUnaccepted, IsUnbegun};
ghost use Rattle.remote_sharing.specs.Shared.{one_more};

use crate::client::{InFlight, SharedClient};
use authenticator::Number;
use nodes::LinkFault;
use remote::{AcceptFault, Carried};
use std::alloc::Global;
use std::sync::{Mutex, Wait};

/// What goes to the server and back.
#[derive(Drop)]
pub(crate) struct Texts {
    /// The call's envelope.
    pub(crate) call: Vec<u8>,
    /// What came for its acknowledgement.
    pub(crate) ack: Vec<u8>,
    /// What came for the reply's envelope.
    pub(crate) reply: Vec<u8>,
    /// The acknowledgement of the reply.
    pub(crate) receipt: Vec<u8>,
}

impl Texts {
    /// None yet.
    pub(crate) fn new(alloc: Global) -> Texts {
        Texts {
            call: Vec::new(alloc),
            ack: Vec::new(alloc),
            reply: Vec::new(alloc),
            receipt: Vec::new(alloc),
        }
    }
}

/// Who calls by a client that lies under a lock: nobody else in this crate reaches the client. It knows how many calls
/// were begun for it, counted to 2^64.
#[derive(Drop)]
pub(crate) struct Caller<'c, R> {
    rt: &'c R,
    client: &'c Mutex<SharedClient>,
    begun: u64,
}

impl<'c, R> Caller<'c, R> {
    /// One for whom no call was begun. Takes no lock.
    pub(crate) fn new(rt: &'c R, client: &'c Mutex<SharedClient>) -> Caller<'c, R>
        ensures { result.begun ≡ 0 }
    {
        Caller {
            rt,
            client,
            begun: 0,
        }
    }
}

impl<'c, R: Wait> Caller<'c, R> {
    /// Begins a call, and writes the text of its envelope, in place of what the bytes were.
    pub(crate) fn begin(
        &mut self,
        alloc: Global,
        bytes: &[u8],
        text: &mut Vec<u8>,
    ) -> Result<InFlight, LinkFault>
        requires { length bytes.now ≤ MAX_BODY }
        ensures begun { IfOk result (λ call. IsBegunUnderLock bytes.now call.pending.number) }
        ensures stops { IfErr result (λ f. IsUnbegun bytes.now f) }
        ensures counted { OnOk result (self.new.begun ≡ one_more self.old.begun) }
        ensures uncounted { OnErr result (self.new.begun ≡ self.old.begun) }
    {
        let mut client = self.client.lock(self.rt);
        match client.begin(alloc, bytes, text) {
            Ok(call) => {
                self.begun = self.begun.wrapping_add(1);
                Ok(call)
            }
            Err(fault) => Err(fault),
        }
    }

    /// Has the client take what came back for a call: none where that isn't in flight, or isn't one of these bytes.
    pub(crate) fn take(
        &self,
        alloc: Global,
        call: &InFlight,
        bytes: &[u8],
        carried: Carried,
        texts: &mut Texts,
    ) -> Option<Result<Option<Vec<u8>>, AcceptFault>>
        requires { IsBegunUnderLock bytes.now call.now.pending.number }
        ensures exchanged { IfSome result (λ t. IfOk t (λ r.
            IsExchangedUnderLock bytes.now (option_map (λ v. v.items) r))) }
        ensures refused { IfSome result (λ t. IfErr t (λ why. IsUnaccepted bytes.now why)) }
        ensures size { IfSome result (λ t. IfOk t (λ r. IfSome r (λ v. length v.items ≤ MAX_BODY))) }
    {
        let mut client = self.client.lock(self.rt);
        take(&mut client, alloc, call, bytes, carried, texts)
    }

    /// A call is no longer in flight.
    pub(crate) fn end(&self, call: InFlight) {
        self.client.lock(self.rt).end(call);
    }

    /// Writes the text of the acknowledgement of what was received at a number, in place of what the bytes were. Whether
    /// it could.
    pub(crate) fn write_receipt(&self, place: Number, text: &mut Vec<u8>) -> bool {
        text.clear();
        let client = self.client.lock(self.rt);
        match client.client().client().ack(place.get()) {
            Some(ack) => ack.write(text).is_ok(),
            None => false,
        }
    }
}

/// Has a client take what came back for a call: none where that isn't in flight, or isn't one of these bytes.
fn take(
    client: &mut SharedClient,
    alloc: Global,
    call: &InFlight,
    bytes: &[u8],
    carried: Carried,
    texts: &mut Texts,
) -> Option<Result<Option<Vec<u8>>, AcceptFault>>
    requires { IsBegunUnderLock bytes.now call.now.pending.number }
    ensures exchanged { IfSome result (λ t. IfOk t (λ r.
        IsExchangedUnderLock bytes.now (option_map (λ v. v.items) r))) }
    ensures refused { IfSome result (λ t. IfErr t (λ why. IsUnaccepted bytes.now why)) }
    ensures size { IfSome result (λ t. IfOk t (λ r. IfSome r (λ v. length v.items ≤ MAX_BODY))) }
{
    if !client.is_in_flight(call, bytes) {
        return None;
    }
    let came = reply_in(carried, &texts.reply);
    Some(client.accept(alloc, call, &texts.ack, came, &mut texts.receipt))
}

/// What came for the reply, if anything did.
fn reply_in(carried: Carried, text: &[u8]) -> Option<&[u8]> {
    match carried {
        Carried::Acknowledged => None,
        Carried::Answered => Some(text),
    }
}
