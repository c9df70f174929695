//! The master secrets of the nodes.

ghost use Rattle.std.specs.Prelude.{◌≡◌, ◌++◌, replicate};
ghost use Rattle.std.specs.Int.{w32, to_be_bytes};
ghost use Rattle.sha2.specs.Sha256.{sha256};
ghost use Rattle.node_keys.specs.Masters.{master_of};

use sha2::{Digest, Sha256};

/// What the nodes' master secrets are made of.
#[derive(Clone, Copy, Debug)]
pub enum Masters {
    /// Of nothing but the node's number: anybody can sign for such a node.
    Known,
    /// Of 32 secret bytes and the number of an epoch: two runs with the same of both would sign twice by one
    /// key.
    OfEpoch {
        /// The secret bytes.
        secret: [u8; 32],
        /// The number of the epoch, or of a run of `serve`.
        epoch: u32,
    },
}

impl Masters {
    /// The master secret of a node: 28 zero bytes and the number in four; or the digest of the secret
    /// bytes, the number in four and the epoch's in four.
    pub fn of(&self, node: u32) -> [u8; 32]
        ensures { result ≡ master_of self.now node }
    {
        match self {
            Masters::Known => known_master(node),
            Masters::OfEpoch { secret, epoch } => secret_master(secret, node, *epoch),
        }
    }
}

/// 28 zero bytes, and the number in four.
fn known_master(node: u32) -> [u8; 32]
    ensures { result ≡ replicate 28 0 ++ to_be_bytes w32 node }
{
    let mut master = [0; 32];
    master[28..].copy_from_slice(&node.to_be_bytes());
    master
}

/// The digest of the secret bytes, the node's number in four and the epoch's in four.
fn secret_master(secret: &[u8; 32], node: u32, epoch: u32) -> [u8; 32]
    ensures { result ≡ sha256 (secret.now ++ to_be_bytes w32 node ++ to_be_bytes w32 epoch) }
{
    let mut text = Sha256::new();
    text.update(secret);
    text.update(node.to_be_bytes());
    text.update(epoch.to_be_bytes());
    text.finalize()
}
