//! How a gateway is.

ghost use Rattle.std.specs.Prelude.{◌≡◌, ◌++◌, IfOk, codes, string_bytes};
ghost use Rattle.assurance.specs.Assured.{assured_words};

use crate::desk::{Assured, Desk};
use assurance::AssuredTo;
use peer_connections::Teller;
use remote_sharing::SharedClient;
use secure_log::log_entries::Entry;
use std::alloc::{AllocError, Global};
use std::sync::{Mutex, Wait};

/// Who knows how a gateway is.
#[derive(Drop)]
pub(crate) struct GatewayTeller<'a, R> {
    pub(crate) rt: &'a R,
    /// The client, with its calls in flight.
    pub(crate) client: &'a Mutex<SharedClient>,
    /// Which replies witnesses answer for, among other things.
    pub(crate) desk: &'a Mutex<Desk>,
    /// The number of its node.
    pub(crate) node: u32,
    /// The epoch of its keys.
    pub(crate) epoch: u32,
}

impl<R: Wait> Teller for GatewayTeller<'_, R> {
    fn tell(&self, alloc: Global) -> Result<String, AllocError> {
        let (node, epoch, (left, calls)) = (self.node, self.epoch, self.counts());
        let mut text = format!(in alloc;
            "kind: gateway\nnode: {node}\nepoch: {epoch}\nkeys left: {left}\ncalls: {calls}\n"
        )?;
        for assured in self.desk.lock(self.rt).assured() {
            text.push_str(&assured_line(alloc, assured)?)?;
        }
        Ok(text)
    }
}

impl<R: Wait> GatewayTeller<'_, R> {
    /// How many keys are left, and how many replies were received.
    fn counts(&self) -> (u32, u64) {
        let client = self.client.lock(self.rt);
        let node = client.client().client().node();
        (node.left(), count_received(node.log().entries()))
    }
}

/// The line that says up to which number a witness answers for the replies, as its last report brought it.
fn assured_line(alloc: Global, assured: &Assured) -> Result<String, AllocError>
    ensures { IfOk result (λ line. string_bytes line ≡ codes "witness: "
        ++ (string_bytes assured.now.address ++ (codes " " ++ (assured_words assured.now.to ++ codes "\n")))) }
{
    let words = assured.to.words(alloc)?;
    format!(in alloc; "witness: {} {words}\n", assured.address)
}

/// The line that says it as progress.
pub(crate) fn progress_line(
    alloc: Global,
    address: &str,
    assured: AssuredTo,
) -> Result<String, AllocError>
    ensures { IfOk result (λ line. string_bytes line ≡ codes "nfsacc: witness "
        ++ (address.now ++ (codes ": " ++ (assured_words assured ++ codes "\n")))) }
{
    let words = assured.words(alloc)?;
    format!(in alloc; "nfsacc: witness {address}: {words}\n")
}

/// How many replies were received, by the entries of a log.
fn count_received(entries: &[Entry]) -> u64 {
    let mut count = 0_u64;
    for entry in entries {
        if let Entry::Recv { .. } = entry {
            count = count.saturating_add(1);
        }
    }
    count
}
