//! Keys for one signature, against an independent program's.

use acceptance_helpers::MASTER;
use lamport::{LeafKeys, OneTimeSignature, shown_key};
use std::alloc::Global;

const SECRET_OF_LEAF_0: [u8; 32] = [
    0x24, 0x5e, 0x70, 0x26, 0x02, 0x18, 0xb8, 0x84, 0xa6, 0x25, 0x7f, 0x98, 0x6e, 0x19, 0x90, 0x04,
    0x43, 0x95, 0x46, 0x03, 0x70, 0x19, 0x00, 0x54, 0xa9, 0x27, 0xc3, 0x75, 0x55, 0xd7, 0xf9, 0x8f,
];

const PUBLIC_HASH_OF_LEAF_0: [u8; 32] = [
    0xf4, 0xa1, 0x9c, 0xe8, 0xfe, 0x38, 0xd3, 0x9d, 0xac, 0xbb, 0x1f, 0xfe, 0xd7, 0xea, 0x47, 0x57,
    0x0b, 0xf8, 0x2a, 0x81, 0x7d, 0x2c, 0xcd, 0xd6, 0x50, 0x22, 0xf0, 0x00, 0xc9, 0x83, 0xe5, 0x97,
];

const PUBLIC_HASH_OF_LEAF_1: [u8; 32] = [
    0xaf, 0xe1, 0xe3, 0x28, 0xd1, 0x6a, 0xe5, 0xc2, 0xa4, 0x36, 0x7e, 0x09, 0x50, 0xac, 0x2a, 0xb9,
    0x7e, 0xa3, 0x1f, 0x27, 0x7d, 0xf0, 0x06, 0x19, 0x21, 0x47, 0x37, 0x22, 0x94, 0xab, 0x37, 0xb4,
];

const LEAF_HASH_0: [u8; 32] = [
    0xf1, 0xd4, 0x25, 0x0b, 0x11, 0x10, 0xa0, 0x35, 0xfa, 0xdd, 0x64, 0x4a, 0x85, 0x0c, 0x2f, 0x0f,
    0xf7, 0x57, 0x76, 0xe5, 0x25, 0xa4, 0xd1, 0x50, 0xf6, 0xd7, 0x33, 0xce, 0x3e, 0x19, 0x66, 0xac,
];

/// A hash of the key that comes next, which signs nothing.
fn next_public_hash(keys: &mut LeafKeys, place: u8, bit: bool) -> Option<[u8; 32]> {
    if keys.next() > 1 {
        return None;
    }
    let key = keys.take();
    let hash = key.public_hash(place, bit);
    key.discard();
    Some(hash)
}

/// The first that isn't another program's of the hash of leaf 0, and a hash of each of the first two keys;
/// empty where all are.
fn wrong_of(keys: &mut LeafKeys) -> &'static str {
    if keys.leaf_hash(0) != LEAF_HASH_0 {
        "the leaf's hash"
    } else if next_public_hash(keys, 0, false) != Some(PUBLIC_HASH_OF_LEAF_0) {
        "a hash of the first key"
    } else if next_public_hash(keys, 255, true) != Some(PUBLIC_HASH_OF_LEAF_1) {
        "a hash of the second key"
    } else {
        ""
    }
}

#[test]
fn public_parts_are_another_programs(rt: HostRuntime) {
    let wrong = wrong_of(&mut LeafKeys::new(MASTER));
    assert!(rt; wrong.is_empty(), "{wrong}");
}

/// Whether a signature of zeros has the length and the secret of leaf 0, and shows its key.
fn is_of_leaf_0(signature: &OneTimeSignature) -> bool {
    signature.shown.len() == 8192
        && signature.other.len() == 8192
        && signature.shown.starts_with(&SECRET_OF_LEAF_0)
        && shown_key(&[0; 32], &signature.shown, &signature.other) == LEAF_HASH_0
}

/// Whether the first key signs so.
fn signs_by_leaf_0(alloc: Global) -> bool {
    match LeafKeys::new(MASTER).take().sign(alloc, &[0; 32]) {
        Ok(signature) => is_of_leaf_0(&signature),
        Err(refused) => {
            refused.value.discard();
            false
        }
    }
}

#[test]
fn a_signature_shows_its_key(rt: HostRuntime) {
    assert!(rt; signs_by_leaf_0(rt.alloc()));
}
