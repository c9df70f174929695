//! The nodes of a script.

ghost use Rattle.std.specs.Prelude.{◌≡◌, ◌<◌, ◌≤◌, false, HoldsAt, IfNone, IfSome, IsTrue, length};
ghost use Rattle.scripts.specs.Nodes.{HasNone, IsNodeOf, IsToLie, LetsSkip, LogsCheck};

use crate::line::{NodeLine, Pair};
use crate::stop::Stop;
use authenticator::{Kind, Member, Number, Roster};
use commitment::Refusal;
use node_keys::{KeyedNode, Masters};
use nodes::{ClientNode, Node, NodeLog, Role, ServerNode};
use std::alloc::{AllocError, Global};
use std::marker::Model;
use std::thread::Threads;

/// A node that isn't made yet. Its keys are made of its number alone, so anybody can sign for it.
#[derive(Drop)]
struct ListedNode {
    keyed: KeyedNode,
}

impl Model for ListedNode {
    ghost use Rattle.std.specs.Prelude.{◌≡◌};
    ghost use Rattle.node_keys.specs.KeyedNode.{KeyedParts};
    ghost use Rattle.node_keys.specs.declared.masters.Masters.TheVariants.{Known};

    ghost Value = { KeyedParts };

    ghost view = { λ n. n.keyed };

    ghost invariant = { λ n. n.keyed.masters ≡ Known };
}

/// The nodes that a script has so far, by rising numbers. None has sent anything.
#[derive(Drop)]
pub(crate) struct ListedNodes {
    nodes: Vec<ListedNode>,
}

impl ListedNodes {
    /// No node.
    pub(crate) fn new(alloc: Global) -> ListedNodes {
        ListedNodes {
            nodes: Vec::new(alloc),
        }
    }

    /// A node more, with new keys. The line is bad where a node has its number.
    pub(crate) fn add<R: Threads + Sync>(
        &mut self,
        rt: &R,
        alloc: Global,
        line: &NodeLine,
    ) -> Result<(), Stop> {
        let place = self.place_of(line.number);
        if self.has(place, line.number) {
            return Err(Stop::Bad);
        }
        let height = line.height.get();
        let keyed = KeyedNode::make(
            rt,
            alloc,
            Masters::Known,
            line.number,
            line.kind,
            line.log_version,
            height,
        )?;
        match self.nodes.insert(place, ListedNode { keyed }) {
            Ok(()) => Ok(()),
            Err(_) => Err(Stop::NoMemory),
        }
    }

    /// How many nodes have lower numbers.
    fn place_of(&self, number: u32) -> usize
        ensures { result ≤ length self.now.nodes.items }
    {
        for place in 0..self.nodes.len() {
            if number <= self.nodes[place].keyed.number() {
                return place;
            }
        }
        self.nodes.len()
    }

    /// Whether the node at a place, if there is one, has a number.
    fn has(&self, place: usize, number: u32) -> bool {
        match self.nodes.get(place) {
            Some(listed) => listed.keyed.number() == number,
            None => false,
        }
    }

    /// The members, by rising numbers.
    pub(crate) fn members(&self, alloc: Global) -> Result<Vec<Member>, AllocError> {
        let mut members = Vec::with_capacity(alloc, self.nodes.len())?;
        for listed in &self.nodes {
            members.push(listed.keyed.member())?;
        }
        Ok(members)
    }

    /// The nodes, made with a roster.
    pub(crate) fn make(self, alloc: Global, roster: &Roster) -> Result<Parties, AllocError> {
        let mut parties = Parties {
            clients: Vec::new(alloc),
            servers: Vec::new(alloc),
        };
        for listed in self.nodes {
            parties.add(alloc, roster, listed.keyed)?;
        }
        Ok(parties)
    }
}

/// The nodes of a script: its clients and its servers, each by rising numbers.
#[derive(Drop)]
pub(crate) struct Parties {
    clients: Vec<ClientNode>,
    servers: Vec<ServerNode>,
}

impl Parties {
    /// One node more.
    fn add(&mut self, alloc: Global, roster: &Roster, keyed: KeyedNode) -> Result<(), AllocError> {
        let roster = roster.try_clone(alloc)?;
        match keyed.kind() {
            Kind::Client => self.clients.push(keyed.make_node(alloc, roster)?)?,
            Kind::Server => self.servers.push(keyed.make_node(alloc, roster)?)?,
        }
        Ok(())
    }

    /// The node with a number.
    pub(crate) fn node(&self, number: u32) -> Option<&NodeLog>
        ensures { IfSome result (λ node. IsNodeOf self.now number node.now) }
    {
        if let Some(place) = place_in(&self.clients, number) {
            return Some(self.clients[place].node());
        }
        let place = place_in(&self.servers, number)?;
        Some(self.servers[place].node())
    }

    /// The client with a number.
    pub(crate) fn client(&self, number: u32) -> Option<&ClientNode> {
        let place = place_in(&self.clients, number)?;
        Some(&self.clients[place])
    }

    /// The server with a number.
    pub(crate) fn server(&mut self, number: u32) -> Option<&mut ServerNode> {
        let place = place_in(&self.servers, number)?;
        Some(&mut self.servers[place])
    }

    /// Whether there are a client and a server with these numbers.
    pub(crate) fn has(&self, pair: Pair) -> bool {
        place_in(&self.clients, pair.client).is_some()
            && place_in(&self.servers, pair.server).is_some()
    }

    /// Tells the server with a number to lie, if there is one.
    pub(crate) fn lie(&mut self, number: u32) -> bool
        ensures lies { IsTrue result → IsToLie self.old number self.new }
        ensures none { result ≡ false → (self.new ≡ self.old) × HasNone self.old.servers.items number }
    {
        match place_in(&self.servers, number) {
            Some(place) => {
                self.servers[place].lie();
                true
            }
            None => false,
        }
    }

    /// Lets the server with a number log a CHECK, if there is one.
    pub(crate) fn checkpoint(
        &mut self,
        alloc: Global,
        number: u32,
    ) -> Option<Result<Number, Refusal>>
        ensures some { IfSome result (λ answer. LogsCheck self.old number answer self.new) }
        ensures none { IfNone result ((self.new ≡ self.old) × HasNone self.old.servers.items number) }
    {
        let place = place_in(&self.servers, number)?;
        Some(self.servers[place].checkpoint(alloc))
    }

    /// Lets the next entry of the log of the node with a number skip so many numbers, if there is such a node.
    pub(crate) fn skip(&mut self, number: u32, by: u32) -> Option<Result<(), Refusal>>
        ensures some { IfSome result (λ answer. LetsSkip self.old number by answer self.new) }
        ensures none { IfNone result ((self.new ≡ self.old)
            × HasNone self.old.clients.items number × HasNone self.old.servers.items number) }
    {
        if let Some(place) = place_in(&self.clients, number) {
            return Some(self.clients[place].skip(by));
        }
        let place = place_in(&self.servers, number)?;
        Some(self.servers[place].skip(by))
    }

    /// A client and a server.
    pub(crate) fn pair(&mut self, pair: Pair) -> Option<(&mut ClientNode, &mut ServerNode)> {
        let client = place_in(&self.clients, pair.client)?;
        let server = place_in(&self.servers, pair.server)?;
        Some((&mut self.clients[client], &mut self.servers[server]))
    }
}

/// The place of the node with a number.
fn place_in<R: Role>(nodes: &[Node<R>], number: u32) -> Option<usize>
    ensures some { IfSome result (λ place. place < length nodes.now) }
    ensures node { IfSome result (λ place. HoldsAt (λ n. n.node ≡ number) nodes.now place) }
    ensures none { IfNone result (HasNone nodes.now number) }
{
    nodes.iter().position(|node| node.number() == number)
}
