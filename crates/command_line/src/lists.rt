//! Lists in words, with commas between their items, and the parties that they name.

ghost use Rattle.std.specs.Prelude.{◌≡◌, ◌∷◌, ◌≤◌, [], IfOk, IfSome, MatchOption, map};
ghost use Rattle.command_line.specs.Lists.{ArePeers, IsPeer, items_of, left_of};

use crate::serve_numbers::number_within;
use authenticator::MAX_NODE;
use std::alloc::Global;

/// A party on a host of its own.
#[derive(Clone, Copy)]
pub struct Peer<'a> {
    /// Its number, from 1 to 64.
    pub node: u32,
    /// Where it listens: a host's name or address, `:` and a port from 1 to 65535.
    pub host: &'a str,
}

/// Why a word is no list.
#[derive(Clone, Copy)]
pub(crate) enum ListFault {
    /// One of its items isn't what it must be.
    Bad,
    /// Memory was refused.
    NoMemory,
}

/// What is left of a list.
#[derive(Drop)]
struct Items<'a> {
    rest: Option<&'a str>,
}

impl<'a> Items<'a> {
    /// All items of a list.
    fn new(list: &'a str) -> Items<'a>
        ensures { left_of result ≡ items_of list.now }
    {
        Items { rest: Some(list) }
    }

    /// The next item, if one is left.
    fn next(&mut self) -> Option<&'a str>
        ensures { MatchOption result (left_of self.old ≡ []) (λ item. left_of self.old
            ≡ item.now ∷ left_of self.new) }
    {
        let rest = self.rest?;
        match rest.split_once(',') {
            Some((item, more)) => {
                self.rest = Some(more);
                Some(item)
            }
            None => {
                self.rest = None;
                Some(rest)
            }
        }
    }
}

/// The items of a list, each of which must say where somebody listens: a host's name or address, `:` and a
/// port from 1 to 65535.
pub(crate) fn hosts_of<'a>(alloc: Global, list: &'a str) -> Result<Vec<&'a str>, ListFault>
    ensures { IfOk result (λ v. map (λ s. s.now) v.items ≡ items_of list.now) }
{
    let mut items = Items::new(list);
    let mut hosts = Vec::new(alloc);
    while let Some(item) = items.next() {
        if !is_host(item) {
            return Err(ListFault::Bad);
        }
        if hosts.push(item).is_err() {
            return Err(ListFault::NoMemory);
        }
    }
    Ok(hosts)
}

/// The parties of a list, each of which must be a number from 1 to 64, `=`, and where it listens.
pub(crate) fn peers_of<'a>(alloc: Global, list: &'a str) -> Result<Vec<Peer<'a>>, ListFault>
    ensures { IfOk result (λ v. ArePeers (items_of list.now) v.items) }
{
    let mut items = Items::new(list);
    let mut peers = Vec::new(alloc);
    while let Some(item) = items.next() {
        let Some(peer) = peer_of(item) else {
            return Err(ListFault::Bad);
        };
        match peers.push(peer) {
            Ok(()) => {}
            Err(_) => return Err(ListFault::NoMemory),
        }
    }
    Ok(peers)
}

/// The party that a word names: a number from 1 to 64, `=`, and where it listens.
pub(crate) fn peer_of(word: &str) -> Option<Peer<'_>>
    ensures is { IfSome result (IsPeer word.now) }
    ensures node { IfSome result (λ p. (1 ≤ p.node) × (p.node ≤ 64)) }
{
    let (node, host) = word.split_once('=')?;
    let node = number_within(node, 1, MAX_NODE)?;
    if is_host(host) {
        Some(Peer { node, host })
    } else {
        None
    }
}

/// Whether a word says where somebody listens: some bytes, `:` after them, and a port from 1 to 65535.
fn is_host(word: &str) -> bool {
    match word.rsplit_once(':') {
        Some((host, port)) => !host.is_empty() && number_within(port, 1, 65535).is_some(),
        None => false,
    }
}
