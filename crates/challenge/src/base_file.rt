//! Files of bases.

ghost use Rattle.std.specs.Prelude.{◌≡◌, ◌≤◌, ◌-◌, drop, IfOk, IfNone, IfSome, length};
ghost use Rattle.challenge.specs.BaseFiles.{ChecksFile, HasNoRoster, HasRoster};

use crate::good_base::{Base, check_base};
use crate::items::front;
use authenticator::{Checked, ListedRoster, Refusal, Roster};
use secure_log::are_bytes;
use std::alloc::{AllocError, Global};
use xdr::ReadFault;

/// The roster whose text is in front of some bytes, and how many are left after it; None where none is there.
/// `AllocError` comes only where a growth was refused.
fn roster_in_front(alloc: Global, bytes: &[u8]) -> Result<Option<(Roster, usize)>, AllocError>
    ensures some { IfOk result (λ o. IfSome o (λ x.
        (x.1 ≤ length bytes.now) × HasRoster bytes.now x.0 (drop (length bytes.now - x.1) bytes.now))) }
    ensures none { IfOk result (λ o. IfNone o (HasNoRoster bytes.now)) }
{
    are_bytes(bytes);
    let front: Result<(ListedRoster, usize), ReadFault> = front(alloc, bytes);
    match front {
        Ok((listed, left)) => match listed.into_roster() {
            Some(roster) => Ok(Some((roster, left))),
            None => Ok(None),
        },
        Err(ReadFault::NoMemory) => Err(AllocError),
        Err(ReadFault::Fault(_)) => Ok(None),
    }
}

/// Checks the base in a file of a roster's text with that of a base after it, under that roster: `Garbage`
/// where it begins with no roster, else as `check_base` answers of what is left. `NoMemory` comes only where a
/// growth was refused.
pub fn check_base_file(alloc: Global, bytes: &[u8]) -> Result<Checked<Base>, Refusal>
    ensures { ChecksFile bytes.now (λ c. c.value) (λ c. c.member) result }
{
    let Ok(found) = roster_in_front(alloc, bytes) else {
        return Err(Refusal::NoMemory);
    };
    let Some((roster, left)) = found else {
        return Err(Refusal::Garbage);
    };
    check_base(alloc, &roster, &bytes[bytes.len() - left..])
}
