//! What holds of arguments in bytes.

ghost use Rattle.std.specs.Prelude.{◌≡◌, ◌↔◌, ◌<◌, ℕ, None};
ghost use Rattle.nfs_items.specs.Programs.{ReadsWhatIsSaid, HasFaultsOfItems, SaysOneCall, SaysOwnCalls};
ghost use Rattle.nfs_items.specs.Programs.{KeepsBounds};
ghost use Rattle.nfs_types.specs.Bounds.{HasBounds};
ghost use Rattle.nfs_types.specs.Texts.{nfs_program, procedure_at};

use crate::limits::{MAXDATA, MAXNAMLEN, MAXPATHLEN};

/// A procedure's arguments are read exactly where their spelling stands at the front, whatever stands after
/// it; the fault is that of reading their item; the numbers of procedures are 0 to 17; and bytes say one call
/// at most, which is of that procedure.
pub fn arguments_are_read_as_spelled()
    ensures exact { ReadsWhatIsSaid nfs_program }
    ensures faults { HasFaultsOfItems nfs_program }
    ensures none { (n : ℕ) → ((procedure_at n ≡ None) ↔ (17 < n)) }
    ensures one_call { SaysOneCall nfs_program }
    ensures own { SaysOwnCalls nfs_program }
{}

/// A call that is read from bytes is within the bounds of its items: names have at most 255 bytes, a target
/// 1,024, data 8,192; offsets, counts, cookies and attributes are words (RFC 1094, sections 2.2 and 2.3).
pub fn calls_are_bounded()
    ensures { KeepsBounds nfs_program HasBounds }
{}

/// The limits that the definitions cite (RFC 1094, sections 2.2, 2.3.7 and 2.3.8), in bytes.
pub fn limits_are_as_documented()
    ensures name { MAXNAMLEN ≡ 255 }
    ensures target { MAXPATHLEN ≡ 1024 }
    ensures data { MAXDATA ≡ 8192 }
{}
