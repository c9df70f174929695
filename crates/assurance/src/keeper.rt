//! Who keeps what no witness that began late takes.

ghost use Rattle.std.specs.Prelude.{◌≡◌, List, None, Option};
ghost use Rattle.assurance.specs.Exchanges.{Adds, Kept};

use authenticator::Authenticator;
use std::io;

/// Who keeps a server's signatures that a witness never takes, since all that it knows of the server comes after them.
pub trait Keeper {
    /// What was handed over, the newest first, where that is known.
    ghost handed: { Self → Option (List Kept) } = { λ _. None };

    /// Takes over what a server signed, with its number in the server's log. An error says why it isn't kept.
    fn keep(&mut self, number: u64, signed: &Authenticator) -> io::Result<()>
        ensures { Adds (handed self.old) (record { number = number; signed = signed.now }) (handed self.new) };
}
