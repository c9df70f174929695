//! The bases by which a witness that comes late begins its books.

ghost use Rattle.std.specs.Prelude.{◌≡◌, IfOk};
ghost use Rattle.challenge.specs.KnownBases.{IsGoodText, parts_of};
ghost use Rattle.replay_spec.specs.Steps.{OwesNothing};

use crate::causes::{Cause, server_line};
use crate::idle::owes_nothing;
use crate::orders::WatchedServer;
use authenticator::{Checked, Refusal, Roster};
use challenge::{Base, check_base};
use peer_calls::{BaseAfter, Greeted, Greeting, NodeRequest, read_base, read_greeted};
use peer_connections::{Output, PeerCaller};
use std::alloc::{AllocError, Global};
use std::io::Write;
use std::net::{Net, TcpListener, TcpStream};
use std::sync::{Mutex, Wait};

/// The most bytes of the answers to GREET and BASE.
const MOST_GREETED: u32 = 60;

pub(crate) const MOST_BASE: u32 = 67_306_132;

/// Who asks servers for bases.
#[derive(Drop)]
pub(crate) struct Joining<'a, R, W, E> {
    pub(crate) rt: &'a R,
    pub(crate) alloc: Global,
    pub(crate) roster: &'a Roster,
    pub(crate) digest: [u8; 32],
    pub(crate) output: &'a Mutex<Output<W, E>>,
}

impl<'a, R, W, E> Joining<'a, R, W, E>
where
    R: Wait + Net<Listener = TcpListener, Stream = TcpStream>,
    W: Write,
    E: Write,
{
    /// The bases of servers, one of each at most: none of a server that gives none, and of one that can't be asked or
    /// gives what is no good base of it none either, which is said. Each server has as long as any call.
    pub(crate) fn bases(
        &self,
        servers: &[WatchedServer<'_>],
    ) -> Result<Vec<Checked<Base>>, AllocError> {
        let mut bases = Vec::new(self.alloc);
        for server in servers {
            if has_node(&bases, server.node) {
                continue;
            }
            if let Some(base) = self.base_or_say(server) {
                bases.push(base)?;
            }
        }
        Ok(bases)
    }

    /// The base that a server gives, if it gives a good one; where it can't be asked, or gives another, that is said.
    fn base_or_say(&self, server: &WatchedServer<'_>) -> Option<Checked<Base>> {
        match self.base(server) {
            Ok(base) => base,
            Err(cause) => {
                let line = server_line(self.alloc, server.node, server.address, &cause);
                self.output.lock(self.rt).say(line);
                None
            }
        }
    }

    /// The base that a server gives, if it gives one and goes by the same roster.
    fn base(&self, server: &WatchedServer<'_>) -> Result<Option<Checked<Base>>, Cause> {
        let mut caller = match PeerCaller::connect(self.rt, self.alloc, server.address) {
            Ok(caller) => caller,
            Err(error) => return Err(Cause::NoConnection(error)),
        };
        if !is_same_roster(self.alloc, self.digest, &mut caller)? {
            return Ok(None);
        }
        let asked = BaseAfter {
            node: server.node,
            after: 0,
        };
        let answer = caller.ask_node(&NodeRequest::Base(asked), MOST_BASE)?;
        match read_base(self.alloc, answer.results())? {
            Some(bytes) => {
                let base = good_base(self.alloc, self.roster, server.node, bytes)?;
                Ok(Some(base))
            }
            None => Ok(None),
        }
    }
}

/// Whether a server goes by the roster with this digest.
fn is_same_roster(alloc: Global, digest: [u8; 32], caller: &mut PeerCaller) -> Result<bool, Cause> {
    let greeting = Greeting { digest, node: 0 };
    let answer = caller.ask_node(&NodeRequest::Greet(greeting), MOST_GREETED)?;
    let greeted = read_greeted(alloc, answer.results())?;
    Ok(matches!(greeted, Greeted::Same))
}

/// Whether a base of a node is among these.
fn has_node(bases: &[Checked<Base>], node: u32) -> bool {
    for base in bases {
        if base.value().showing().node() == node {
            return true;
        }
    }
    false
}

/// The base that these bytes are, where it is good under the roster, of this very node, and owes nothing; else `Refused`.
/// What a server owes at a base is its own word alone, so a reply that it sends then would be, too. `NoMemory` comes only
/// where a growth was refused.
pub(crate) fn good_base(
    alloc: Global,
    roster: &Roster,
    node: u32,
    bytes: &[u8],
) -> Result<Checked<Base>, Cause>
    ensures good { IfOk result (λ c. IsGoodText roster.now bytes.now (parts_of c.value) c.member c.value.state) }
    ensures node { IfOk result (λ c. c.value.showing.node ≡ node) }
    ensures idle { IfOk result (λ c. OwesNothing c.value.state.machine) }
{
    let base = match check_base(alloc, roster, bytes) {
        Ok(base) => base,
        Err(Refusal::NoMemory) => return Err(Cause::NoMemory),
        Err(_) => return Err(Cause::Refused),
    };
    if base.value().showing().node() != node || !owes_nothing(alloc, base.value())? {
        return Err(Cause::Refused);
    }
    Ok(base)
}
