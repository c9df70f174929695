//! What it means that a digest is signed.

ghost use Rattle.std.specs.Prelude.{◌≡◌, ◌↔◌, ℕ, Bool, List, ◌≤◌, ◌<◌, ◌^◌};
ghost use Rattle.lamport.specs.Lamport.{Shows, leaf_hash};
ghost use Rattle.merkle_keys.specs.Tree.{root};
ghost use Rattle.merkle_keys.specs.declared.signature.TheConstants.{MAX_HEIGHT};
ghost use Rattle.merkle_keys.specs.Signing.{SignatureParts, Signed, LeadsFrom, signature_of};

/// Take any public hashes that a signature of a digest shows: a secret with the public hash of each bit's
/// place and value, and beside it the public hash of the other value. The digest is signed exactly where
/// the path leads from the hash of the leaf with these public hashes to the root.
pub fn signed_under_the_key_shown()
    ensures { (root : List ℕ) (height : ℕ) (digest : List ℕ) (signature : SignatureParts)
        (hash : ℕ → Bool → List ℕ) →
        Shows digest signature.shown signature.other hash →
        (Signed root height digest signature ↔ LeadsFrom (leaf_hash hash) root height signature) }
{}

/// What the key of a leaf makes of a digest is signed under the root.
pub fn each_leaf_signs_under_the_root()
    ensures { (master : List ℕ) (height leaf : ℕ) (digest : List ℕ) →
        height ≤ MAX_HEIGHT → leaf < 2 ^ height →
        Signed (root master height) height digest (signature_of master height leaf digest) }
{}
