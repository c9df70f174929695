//! Where a program's files go.

ghost use Rattle.std.specs.Prelude.{◌≡◌, ℕ, List, Option, None, OnErr, OnOk};
ghost use Rattle.witness_calls.specs.Shelves.{Puts};

use std::io;

/// Where files are put by their names.
pub trait Shelf {
    /// What was put there, the newest first, each file by its name and bytes, where that is known.
    ghost files: { Self → Option (List (List ℕ × List ℕ)) } = { λ _. None };

    /// Puts a file with these bytes in place of one that is there. After an error that one stands as it was.
    fn put(&mut self, name: &str, bytes: &[u8]) -> io::Result<()>
        ensures put { OnOk result (Puts (files self.old) name.now bytes.now (files self.new)) }
        ensures stays { OnErr result (files self.new ≡ files self.old) };
}
