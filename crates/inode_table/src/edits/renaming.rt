//! The steps of a move of an entry, by the inodes.

ghost use Rattle.std.specs.Prelude.{◌≡◌, ◌≢◌, ◌<◌, ◌-◌, ◌^◌, ℕ, None, Some, true};
ghost use Rattle.fs_spec.specs.nfs_items.Terms.{FileNumber};
ghost use Rattle.fs_spec.specs.Files.{File};
ghost use Rattle.inode_table.specs.Edits.Slots.{MayUnname};
ghost use Rattle.tree_rules.specs.inodes.Inodes.{links_at, stored_at};
ghost use Rattle.inode_table.specs.Edits.Moves.{DropsTarget, GainsLink, LosesLink, LosesName};

use crate::edits::slots;
use fs_spec::Time;
use std::collections::BTreeMap;
use tree_rules::Inode;

/// One link less of a directory, if it lost a subdirectory.
fn drop_subdirectory(inodes: &mut BTreeMap<u32, Inode>, dir: u32, of_directory: bool)
    requires { of_directory ≡ true → 0 < links_at inodes.old.entries dir }
    ensures { LosesLink dir of_directory inodes.old.entries inodes.new.entries }
{
    if of_directory {
        slots::drop_link(inodes, dir);
    }
}

/// One link more of a directory, if it gained a subdirectory.
pub fn add_subdirectory(inodes: &mut BTreeMap<u32, Inode>, dir: u32, of_directory: bool)
    requires there { 0 < links_at inodes.old.entries dir }
    requires bound { links_at inodes.old.entries dir < 2 ^ 32 - 1 }
    ensures { GainsLink dir of_directory inodes.old.entries inodes.new.entries }
{
    if of_directory {
        slots::add_link(inodes, dir);
    }
}

/// Takes a link off a file whose name in a directory is another's already, as `slots::unlink`; the blocks
/// that are free then.
fn drop_replaced(inodes: &mut BTreeMap<u32, Inode>, now: Time, dir: u32, number: u32) -> u32
    requires { (f : File) × MayUnname inodes.old.entries dir number f }
    ensures { (f : File) → stored_at inodes.old.entries number ≡ Some f →
        LosesName now dir number f result inodes.old.entries inodes.new.entries }
{
    let named = slots::named(inodes, number);
    drop_subdirectory(inodes, dir, named.is_directory);
    slots::drop_name(inodes, now, number, named.goes)
}

/// The same of what stood under the name, if anything did.
pub fn drop_target(
    inodes: &mut BTreeMap<u32, Inode>,
    now: Time,
    dir: u32,
    target: Option<u32>,
) -> u32
    requires { (t : FileNumber) → target ≡ Some t → (f : File) × MayUnname inodes.old.entries dir t f }
    ensures { DropsTarget now dir target result inodes.old.entries inodes.new.entries }
{
    match target {
        Some(number) => drop_replaced(inodes, now, dir, number),
        None => 0,
    }
}

/// How many entries go with what stood under a name.
pub fn replaced_count(target: Option<u32>) -> u32
    ensures none { target ≡ None → result ≡ 0 }
    ensures some { (t : FileNumber) → target ≡ Some t → result ≡ 1 }
{
    match target {
        Some(_) => 1,
        None => 0,
    }
}
