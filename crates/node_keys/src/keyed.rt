//! Nodes that have their keys and aren't made yet: a roster needs the roots of all of them first.

ghost use Rattle.std.specs.Prelude.{◌≡◌, ◌≤◌, IfOk};
ghost use Rattle.merkle_keys.specs.Tree.{root};
ghost use Rattle.node_keys.specs.Masters.{master_of};
ghost use Rattle.node_logs.specs.Steps.Nodes.{new_node};
ghost use Rattle.node_logs.specs.replay_spec.Opening.{opening_by};

use crate::masters::Masters;
use authenticator::{Kind, LogVersion, Member, Roster};
use merkle_keys::Signer;
use nodes::{Node, Role};
use std::alloc::{AllocError, Global};
use std::marker::Model;
use std::thread::Threads;

/// A node that has its keys, of which none is used, and isn't made yet.
#[derive(Drop)]
pub struct KeyedNode {
    number: u32,
    kind: Kind,
    log_version: LogVersion,
    height: u32,
    masters: Masters,
    signer: Signer,
}

impl Model for KeyedNode {
    ghost use Rattle.std.specs.Prelude.{◌≡◌};
    ghost use Rattle.node_keys.specs.KeyedNode.{HasNewKeys, KeyedParts};

    ghost Value = { KeyedParts };

    ghost view = { λ k. record {
      number = k.number;
      kind = k.kind;
      log_version = k.log_version;
      masters = k.masters;
      signer = k.signer;
    } };

    ghost invariant = { λ k. (k.signer.height ≡ k.height)
        × HasNewKeys (record {
          number = k.number;
          kind = k.kind;
          log_version = k.log_version;
          masters = k.masters;
          signer = k.signer;
        }) };
}

impl KeyedNode {
    /// A node of this number and kind, which keeps a log of this version, with new keys of its master secret:
    /// so many as 2 to the height. Threads make them, as many as there are processors, up to four. Takes
    /// memory for the hashes of the keys and what threads take.
    pub fn make<R: Threads + Sync>(
        rt: &R,
        alloc: Global,
        masters: Masters,
        number: u32,
        kind: Kind,
        log_version: LogVersion,
        height: u32,
    ) -> Result<KeyedNode, AllocError>
        requires some { 1 ≤ height }
        requires low { height ≤ 16 }
        ensures { IfOk result (λ k. k ≡ record {
          number = number;
          kind = kind;
          log_version = log_version;
          masters = masters;
          signer = record { master = master_of masters number; height = height; used = 0 };
        }) }
    {
        let signer = Signer::new_by(rt, alloc, masters.of(number), height)?;
        Ok(KeyedNode {
            number,
            kind,
            log_version,
            height,
            masters,
            signer,
        })
    }

    /// The number of the node.
    pub fn number(&self) -> u32
        ensures { result ≡ self.now.number }
    {
        self.number
    }

    /// The kind of the node.
    pub fn kind(&self) -> Kind
        ensures { result ≡ self.now.kind }
    {
        self.kind
    }

    /// The node as a roster lists it.
    pub fn member(&self) -> Member
        ensures { result ≡ record {
          node = self.now.number;
          kind = self.now.kind;
          root = root self.now.signer.master self.now.signer.height;
          height = self.now.signer.height;
          log_version = self.now.log_version;
        } }
    {
        Member {
            node: self.number,
            kind: self.kind,
            root: self.signer.root(),
            height: self.height,
            log_version: self.log_version,
        }
    }

    /// The node, made with a roster in the role that its type says. Its log is empty. A server's opening
    /// files take memory.
    pub fn make_node<R: Role>(self, alloc: Global, roster: Roster) -> Result<Node<R>, AllocError>
        ensures { IfOk result (λ n. n ≡ new_node self.number roster self.log_version self.signer
            (opening_by R.kind self.number)) }
    {
        let KeyedNode {
            number,
            kind: _,
            log_version,
            height,
            masters: _,
            signer,
        } = self;
        Node::with_signer(alloc, roster, number, log_version, signer, height)
    }
}
