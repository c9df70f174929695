//! A client that has several calls in flight.

ghost use Rattle.std.specs.Prelude.{◌≡◌, ◌≤◌, ◌↔◌, [], Contains, IfErr, IfOk, IfSome, IsOk, IsTrue, length};
ghost use Rattle.std.specs.Option.{option_map};
ghost use Rattle.secure_log.specs.declared.log_entries.entry.TheConstants.{MAX_BODY};
ghost use Rattle.nodes.specs.Shareds.{HasNotStrayed};
ghost use Rattle.remote.specs.Answers.{Accepts, Refuses};
ghost use Rattle.remote_sharing.specs.Clients.{BeginsBeside, HasGrown, IsInFlight, ReceivesBeside, RefusesBeside};
ghost use Rattle.remote_sharing.specs.Clients.{StopsBeside, without};

use authenticator::Number;
use commitment::Received;
use nodes::LinkFault;
use remote::{AcceptFault, Pending, RemoteClient};
use std::alloc::Global;
use std::marker::Model;

/// A client of one server that has several calls in flight. Its log was empty, and has nothing but what its calls
/// logged: the SEND of each, and the ACK and the RECV of what came back; and the RECVs of messages for which no call
/// waited. A clause sees the client, and the numbers of its calls in flight.
#[derive(Drop)]
pub struct SharedClient {
    client: RemoteClient,
    /// The numbers of the calls in flight: a key is left for the reply to each.
    waiting: Vec<Number>,
}

/// A call that a shared client has begun, and that is in flight. It isn't dropped: the client ends it.
pub struct InFlight {
    pending: Pending,
}

impl InFlight {
    /// What names the call.
    pub fn pending(&self) -> &Pending
        ensures { result.now ≡ self.now.pending }
    {
        &self.pending
    }
}

impl Model for SharedClient {
    ghost use Rattle.remote_sharing.specs.Clients.{ClientParts, HasGrown, client_code};

    ghost Value = { ClientParts };

    ghost coded = { client_code };

    ghost view = { λ c. record { remote = c.client; waiting = c.waiting.items } };

    ghost invariant = { λ c. HasGrown c.client };
}

impl SharedClient {
    /// A client without calls in flight. It comes back, as it was handed in, exactly where its log isn't empty.
    pub fn new(alloc: Global, client: RemoteClient) -> Result<SharedClient, RemoteClient>
        ensures shared { IfOk result (λ c. c ≡ record { remote = client; waiting = [] }) }
        ensures handed_back { IfErr result (λ c. c ≡ client) }
        ensures exact { IsOk result ↔ (client.client.entries ≡ []) }
    {
        if !is_empty(&client) {
            return Err(client);
        }
        Ok(SharedClient {
            client,
            waiting: Vec::new(alloc),
        })
    }

    /// The client.
    pub fn client(&self) -> &RemoteClient
        ensures client { result.now ≡ self.now.remote }
        ensures honest { HasNotStrayed self.now.remote.client }
        ensures grown { HasGrown self.now.remote }
    {
        let _node = self.client.client();
        &self.client
    }

    /// Whether no call is in flight.
    pub fn is_idle(&self) -> bool
        ensures { IsTrue result ↔ (self.now.waiting ≡ []) }
    {
        self.waiting.is_empty()
    }

    /// Begins a call, as `RemoteClient::begin`: it is in flight until it is ended. `KeysUsedUp` comes exactly where
    /// fewer keys are left than one for the call, one for its reply and one for the reply to each call in flight.
    pub fn begin(
        &mut self,
        alloc: Global,
        bytes: &[u8],
        text: &mut Vec<u8>,
    ) -> Result<InFlight, LinkFault>
        requires size { length bytes.now ≤ MAX_BODY }
        ensures begun { IfOk result (λ call.
            BeginsBeside self.old bytes.now call.pending.number text.new.items self.new) }
        ensures stops { IfErr result (λ f. StopsBeside self.old bytes.now f self.new) }
        ensures honest { HasNotStrayed self.new.remote.client }
    {
        let left = u64::from(self.client.client().node().left());
        if left < self.waiting.len() as u64 + 2 {
            return Err(LinkFault::KeysUsedUp);
        }
        match self.waiting.reserve(1) {
            Ok(()) => {}
            Err(_) => return Err(LinkFault::NoMemory),
        }
        match self.client.begin(alloc, bytes, text) {
            Ok(pending) => {
                self.waiting.push_reserved(pending.number);
                Ok(InFlight { pending })
            }
            Err(fault) => Err(fault),
        }
    }

    /// Whether a call is in flight, and stands in the client's log: as a SEND to the server, with these bytes.
    pub fn is_in_flight(&self, call: &InFlight, bytes: &[u8]) -> bool
        ensures { IsTrue result ↔ IsInFlight self.now call.now.pending.number bytes.now }
    {
        self.waits_for(call.pending.number) && self.client.has_call(&call.pending, bytes)
    }

    /// Whether the call with a number is in flight.
    fn waits_for(&self, number: Number) -> bool
        ensures { IsTrue result ↔ Contains self.now.waiting number }
    {
        self.waiting.contains(&number)
    }

    /// Takes what came back for a call in flight, as `RemoteClient::accept`. It is in flight until it is ended.
    pub fn accept(
        &mut self,
        alloc: Global,
        call: &InFlight,
        ack: &[u8],
        reply: Option<&[u8]>,
        receipt: &mut Vec<u8>,
    ) -> Result<Option<Vec<u8>>, AcceptFault>
        requires { Contains self.old.waiting call.now.pending.number }
        ensures accepted { IfOk result (λ r. Accepts self.old.remote call.now.pending.number ack.now
            (option_map (λ b. b.now) reply.entry) (option_map (λ v. v.items) r) receipt.new.items
            self.new.remote) }
        ensures refused { IfErr result (λ f. Refuses self.old.remote call.now.pending.number ack.now
            (option_map (λ b. b.now) reply.entry) f self.new.remote) }
        ensures waiting { self.new.waiting ≡ self.old.waiting }
        ensures honest { HasNotStrayed self.new.remote.client }
        ensures size { IfOk result (λ r. IfSome r (λ v. length v.items ≤ MAX_BODY)) }
    {
        self.client
            .accept(alloc, &call.pending, ack, reply, receipt)
    }

    /// Ends a call: it is no longer in flight.
    pub fn end(&mut self, call: InFlight)
        ensures client { self.new.remote ≡ self.old.remote }
        ensures ended { self.new.waiting ≡ without call.pending.number self.old.waiting }
    {
        let InFlight { pending } = call;
        let ended = pending.number;
        self.waiting.retain(|number| *number != ended);
    }

    /// Receives an envelope from the server for which no call waits, as `RemoteClient::receive`. `KeysUsedUp` comes
    /// exactly where no key is left beside one for the reply to each call in flight, also for a `Repeat`; nothing has
    /// changed after a fault.
    pub fn receive(&mut self, alloc: Global, bytes: &[u8]) -> Result<Received<Number>, AcceptFault>
        ensures received { IfOk result (λ r. ReceivesBeside self.old bytes.now r self.new) }
        ensures refused { IfErr result (λ f. RefusesBeside self.old bytes.now f self.new) }
        ensures honest { HasNotStrayed self.new.remote.client }
    {
        let left = self.client.client().node().left() as usize;
        if left <= self.waiting.len() {
            return Err(AcceptFault::KeysUsedUp);
        }
        self.client.receive(alloc, bytes)
    }
}

/// Whether a client's log is empty.
fn is_empty(client: &RemoteClient) -> bool
    ensures { IsTrue result ↔ (client.now.client.entries ≡ []) }
{
    client.client().node().log().entries().is_empty()
}
