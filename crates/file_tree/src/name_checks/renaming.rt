//! What RENAME refuses.

ghost use Rattle.std.specs.Prelude.{◌≡◌, ◌≤◌, IfOk, IfSome, None, length, option_map};
ghost use Rattle.std.specs.Result.{result_map_both};
ghost use Rattle.nfs_spec.specs.nfs_items.Terms.{Cookie};
ghost use Rattle.nfs_spec.specs.nfs_items.Timeval.{Timeval};
ghost use Rattle.nfs_spec.specs.nfs_items.CallerOf.{caller_of};
ghost use Rattle.nfs_spec.specs.fs_spec.Maxima.{max_name};
ghost use Rattle.nfs_spec.specs.fs_spec.Files.{File, IsDirectory};
ghost use Rattle.nfs_spec.specs.Procedures.{check_target, rename};
ghost use Rattle.inode_table.specs.nfs_laws.Steps.Granted.{IsSameFile};
ghost use Rattle.inode_table.specs.nfs_count_laws.CountChanges.{MayMove};
ghost use Rattle.inode_table.specs.inodes.Inodes.{file_in};
ghost use Rattle.file_tree.specs.NameChecks.Moves.{names_to_edit, ends_found, move_of, move_checked, moved};

use crate::name_checks::above::is_above;
use crate::name_checks::found::{find_directory, find_number};
use crate::name_checks::removing::check_empty;
use inode_table::{Directory, Inode, InodeTable};
use nfs_spec::{Stat, Who};

/// The greatest cookie that is given.
const MAX_COOKIE: u32 = 4_294_967_294;

/// An entry that moves.
#[derive(Clone, Copy)]
pub struct Move {
    /// What it stands for.
    pub number: u32,
    /// What stands at the new name, and goes.
    pub target: Option<u32>,
}

/// The ends of a move.
#[derive(Clone, Copy)]
struct Ends<'a> {
    /// What the old name stands for.
    number: u32,
    /// What the directory of the new name lists.
    listing: &'a Directory,
}

/// The ends of a move that a caller may make. Of each directory Stale and NotDir, then Acces of each; NoEnt.
fn find_ends<'a>(
    table: &'a InodeTable,
    who: &Who,
    from: u32,
    from_name: &[u8],
    to: u32,
    to_name: &[u8],
) -> Result<Ends<'a>, Stat>
    ensures { result_map_both ends_found (λ e. e) result
        ≡ names_to_edit table.now (caller_of who.now) from from_name.now to to_name.now }
{
    let source = find_directory(table, from)?;
    let destination = find_directory(table, to)?;
    source.inode.check_edit(who, from_name)?;
    destination.inode.check_edit(who, to_name)?;
    Ok(Ends {
        number: find_number(source.listing, from_name)?,
        listing: destination.listing,
    })
}

/// Whether a file may take the place of what stands at a name. A directory over another file is NotDir,
/// another file over a directory IsDir, and a directory that isn't empty NotEmpty.
fn check_target(table: &InodeTable, inode: &Inode, target: Option<u32>) -> Result<(), Stat>
    ensures { result ≡ check_target table.now (file_in inode.now) target }
{
    let Some(number) = target else {
        return Ok(());
    };
    let Some(other) = table.get(number) else {
        return Err(Stat::Stale);
    };
    if inode.body.is_directory() {
        check_empty(other)
    } else if other.body.is_directory() {
        Err(Stat::IsDir)
    } else {
        Ok(())
    }
}

/// What becomes of a number that goes to a directory's name, None where it has that name already. Acces where
/// a directory would come into itself; NotDir, IsDir and NotEmpty of what stands at the name; NoSpc.
fn check_move(
    table: &InodeTable,
    number: u32,
    to: u32,
    listing: &Directory,
    to_name: &[u8],
) -> Result<Option<Move>, Stat>
    requires { IsDirectory table.now to }
    ensures { result_map_both (option_map move_of) (λ e. e) result
        ≡ move_checked table.now number to listing.now to_name.now }
{
    let Some(inode) = table.get(number) else {
        return Err(Stat::Stale);
    };
    let target = listing.find(to_name).map(|entry| entry.number);
    if target == Some(number) {
        return Ok(None);
    }
    if inode.body.is_directory() && is_above(table, number, to) {
        return Err(Stat::Acces);
    }
    check_target(table, inode, target)?;
    if listing.next() > MAX_COOKIE {
        return Err(Stat::NoSpc);
    }
    Ok(Some(Move { number, target }))
}

/// RENAME (RFC 1094, section 2.2.12): of each directory Stale and NotDir, then Acces of each; NoEnt; Acces
/// where a directory would come into itself; NotDir, IsDir and NotEmpty of what stands at the new name;
/// NoSpc. Gives what moves, None where both names are of one file.
pub fn check_rename(
    table: &InodeTable,
    who: &Who,
    from: u32,
    from_name: &[u8],
    to: u32,
    to_name: &[u8],
) -> Result<Option<Move>, Stat>
    requires { length to_name.now ≤ max_name }
    ensures effect { (now : Timeval) →
        result_map_both (moved now table.now from from_name.now to to_name.now) (λ e. e) result
        ≡ rename table.now (caller_of who.now) now from from_name.now to to_name.now }
    ensures granted { IfOk result (λ o. IfSome o (λ m. (f : File) × (cookie : Cookie)
        × MayMove table.now m.number from from_name.now to to_name.now f cookie m.target)) }
    ensures same { IfOk result (λ o. o ≡ None → IsSameFile table.now from from_name.now to to_name.now) }
{
    let ends = find_ends(table, who, from, from_name, to, to_name)?;
    check_move(table, ends.number, to, ends.listing, to_name)
}
