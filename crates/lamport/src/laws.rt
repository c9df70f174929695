//! What holds of what a signature shows.

ghost use Rattle.std.specs.Prelude.{◌≡◌, ℕ, Bool, List, length};
ghost use Rattle.lamport.specs.Lamport.{LeafKey, Shows, public_hash, leaf_hash, shown_hash, shown_secrets};
ghost use Rattle.lamport.specs.Lamport.{other_hashes};
ghost use Rattle.lamport.specs.declared.key.TheConstants.{TEXT_SIZE};

/// What a key shows of itself for a digest shows its public hashes.
pub fn a_key_shows_itself()
    ensures { (key : LeafKey) (digest : List ℕ) →
        Shows digest (shown_secrets key digest) (other_hashes key digest) (public_hash key) }
{}

/// Whatever a signature holds, it shows the public hashes that it gives, and of one leaf alone: all keys
/// that one signature shows have one leaf hash.
pub fn a_signature_shows_one_key()
    ensures shown { (digest shown other : List ℕ) →
        Shows digest shown other (shown_hash digest shown other) }
    ensures one { (digest shown other : List ℕ) (hash : ℕ → Bool → List ℕ) →
        Shows digest shown other hash → leaf_hash hash ≡ leaf_hash (shown_hash digest shown other) }
{}

/// Each of the two texts of a signature has 32 bytes for each place.
pub fn texts_have_their_size()
    ensures shown { (key : LeafKey) (digest : List ℕ) → length (shown_secrets key digest) ≡ TEXT_SIZE }
    ensures other { (key : LeafKey) (digest : List ℕ) → length (other_hashes key digest) ≡ TEXT_SIZE }
{}
