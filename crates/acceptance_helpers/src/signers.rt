//! Who signs, and what is signed. Each function gives none where memory is refused.

use authenticator::{Authenticator, Kind, LogVersion, Member, Number, Roster, signed_digest};
use merkle_keys::Signer;
use std::alloc::Global;

/// The master secret from which other programs worked out keys: 31 zero bytes and a one.
pub const MASTER: [u8; 32] = [
    0, 0, 0, 0, 0, 0, 0, 0, 0, 0, 0, 0, 0, 0, 0, 0, 0, 0, 0, 0, 0, 0, 0, 0, 0, 0, 0, 0, 0, 0, 0, 1,
];

/// Node 1, a server.
pub fn server(root: [u8; 32], height: u32) -> Member {
    Member {
        node: 1,
        kind: Kind::Server,
        root,
        height,
        log_version: LogVersion::One,
    }
}

/// Node 2, a client.
pub fn client(root: [u8; 32], height: u32) -> Member {
    Member {
        node: 2,
        kind: Kind::Client,
        root,
        height,
        log_version: LogVersion::One,
    }
}

/// The roster of these members, if they are one.
pub fn roster_of(alloc: Global, members: &[Member]) -> Option<Roster> {
    match Vec::from_slice(alloc, members) {
        Ok(members) => Roster::new(members).ok(),
        Err(_) => None,
    }
}

/// What a node signs for a hash of its log at a number, before which none is skipped.
pub fn signed(
    signer: &mut Signer,
    node: u32,
    number: Number,
    hash: [u8; 32],
) -> Option<Authenticator> {
    let word = number.word();
    match signer.sign(&signed_digest(node, word, &hash)) {
        Ok(signature) => Some(Authenticator {
            node,
            word,
            hash,
            signature,
        }),
        Err(_) => None,
    }
}
