//! What is begun with a secret.

ghost use Rattle.std.specs.Prelude.{◌≡◌, ◌∷◌, ◌++◌, [], IfOk, IfSome, Some, codes, decimal, string_bytes};
ghost use Rattle.host_keys.specs.Lines.{IsDigest, Takes, TakesOnly, left_in, line_of};
ghost use Rattle.host_keys.specs.Beginnings.{IsBegun, begun_text, begun_words, digest_word, may_follow};
ghost use Rattle.host_keys.specs.Beginnings.{IsBegunNode, begun_node_words, number_begun};

use crate::values::digest_of;
use crate::words::Words;
use authenticator::MAX_NODE;
use std::alloc::{AllocError, Global};

/// What is begun with a secret: from then on keys of it are made and used. Epochs and runs are numbered
/// together, since the keys of a run are made as those of the epoch of its number.
#[derive(Clone, Copy, Debug, PartialEq, Eq)]
pub enum Begun {
    /// A node in an epoch.
    Node {
        /// The epoch, from 1 on.
        epoch: u32,
        /// The node's number, from 1 to `MAX_NODE`.
        node: u32,
        /// The digest of the roster's text under which it was begun.
        roster: [u8; 32],
    },
    /// All nodes of a run of `serve`, by the number of the run, from 1 on.
    Run(u32),
}

impl Begun {
    /// What a line says was begun, without its line feed. `None` comes exactly where it isn't the text of
    /// something begun. Takes no memory.
    pub fn read(line: &str) -> Option<Begun>
        ensures is { IfSome result IsBegun }
        ensures found { IfSome result (λ b. line.now ≡ begun_text b) }
        ensures only { (b : Begun) → IsBegun b → line.now ≡ begun_text b → result ≡ Some b }
    {
        let mut words = Words::new(line);
        read_words(&mut words)
    }

    /// The line, without a line feed: `epoch 1 node 2 roster sha256:` and 64 hexadecimal digits, or `run 1`.
    pub fn text(&self, alloc: Global) -> Result<String, AllocError>
        ensures { IfOk result (λ text. string_bytes text ≡ begun_text self.now) }
    {
        match self {
            Begun::Node {
                epoch,
                node,
                roster,
            } => {
                let roster = hex::encode(alloc, roster.as_slice())?;
                node_text(alloc, *epoch, *node, &roster)
            }
            Begun::Run(run) => {
                let run = *run;
                format!(in alloc; "run {run}")
            }
        }
    }

    /// The number of the epoch or of the run.
    pub fn number(&self) -> u32
        ensures { result ≡ number_begun self.now }
    {
        match self {
            Begun::Node { epoch, .. } => *epoch,
            Begun::Run(run) => *run,
        }
    }

    /// Whether another may be begun after this one: of a greater number; or another node of the same epoch,
    /// under the same roster.
    pub(crate) fn may_follow(&self, later: &Begun) -> bool
        ensures { result ≡ may_follow self.now later.now }
    {
        if self.number() < later.number() {
            return true;
        }
        match (self, later) {
            (
                Begun::Node {
                    epoch,
                    node,
                    roster,
                },
                Begun::Node {
                    epoch: later_epoch,
                    node: later_node,
                    roster: later_roster,
                },
            ) => {
                *epoch == *later_epoch
                    && *node != *later_node
                    && roster.as_slice() == later_roster.as_slice()
            }
            _ => false,
        }
    }
}

/// The line of a node, with these digits of the roster's digest.
fn node_text(alloc: Global, epoch: u32, node: u32, roster: &str) -> Result<String, AllocError>
    ensures { IfOk result (λ text. string_bytes text ≡ line_of (codes "epoch" ∷ decimal epoch
        ∷ codes "node" ∷ decimal node ∷ codes "roster" ∷ (codes "sha256:" ++ roster.now) ∷ [])) }
{
    format!(in alloc; "epoch {epoch} node {node} roster sha256:{roster}")
}

/// What the words of a line say was begun.
fn read_words(words: &mut Words<'_>) -> Option<Begun>
    ensures is { IfSome result IsBegun }
    ensures found { IfSome result (λ b. left_in words.old ≡ begun_words b) }
    ensures only { (b : Begun) → IsBegun b → left_in words.old ≡ begun_words b → result ≡ Some b }
{
    let begun = read_begun(words)?;
    if words.is_at_end() { Some(begun) } else { None }
}

/// What the first words of a line say was begun.
fn read_begun(words: &mut Words<'_>) -> Option<Begun>
    ensures found { Takes IsBegun begun_words (left_in words.old) result (left_in words.new) }
    ensures only { TakesOnly IsBegun begun_words (left_in words.old) result (left_in words.new) }
{
    let word = words.next()?;
    if word == "epoch" {
        let (epoch, node, roster) = read_node(words)?;
        return Some(Begun::Node {
            epoch,
            node,
            roster,
        });
    }
    if word == "run" {
        let run = words.number(1, u32::MAX)?;
        return Some(Begun::Run(run));
    }
    None
}

/// The words after `epoch`: its number, that of the node, and the digest of the roster.
fn read_node(words: &mut Words<'_>) -> Option<(u32, u32, [u8; 32])>
    ensures found { Takes IsBegunNode begun_node_words (left_in words.old) result (left_in words.new) }
    ensures only { TakesOnly IsBegunNode begun_node_words (left_in words.old) result (left_in words.new) }
{
    let epoch = words.number(1, u32::MAX)?;
    words.literal("node")?;
    let node = words.number(1, MAX_NODE)?;
    words.literal("roster")?;
    let roster = read_roster(words)?;
    Some((epoch, node, roster))
}

/// The word of a roster's digest: `sha256:` and its hexadecimal digits.
fn read_roster(words: &mut Words<'_>) -> Option<[u8; 32]>
    ensures found { Takes IsDigest (λ d. digest_word d ∷ []) (left_in words.old) result (left_in words.new) }
    ensures only { TakesOnly IsDigest (λ d. digest_word d ∷ []) (left_in words.old) result
        (left_in words.new) }
{
    let word = words.next()?;
    digest_of(word.strip_prefix("sha256:")?)
}
