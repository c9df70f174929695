//! The procedures of NFS version 2 over a tree of files (RFC 1094, section 2.2).
#![tactic(auto)]

ghost use Rattle.std.specs.Prelude.{◌≡◌, OnOk, OnErr, false};
ghost use Rattle.xdr.specs.Writing.{Appends};
ghost use Rattle.nfs_items.specs.CallerOf.{caller_of};
ghost use Rattle.file_tree.specs.nfs_types.Bounds.{HasBounds};
ghost use Rattle.file_tree.specs.nfs_types.Texts.{answer_text};
ghost use Rattle.file_tree.specs.nfs_types.Arguments.{call_of};
ghost use Rattle.nfs_laws.specs.nfs_spec.NfsCalls.{call_does};
ghost use Rattle.nfs_laws.specs.Steps.Answers.{only_reads};

mod changing;
mod handles;
mod reading;

use changing::change;
use file_tree::{NfsArgs, SHORT_ANSWER, Tree, write_result};
pub use nfs_items::{Time, Who, read_credential};
use reading::answer_read;
use std::alloc::{AllocError, Global};

/// Whether a call reads alone.
fn only_reads(args: &NfsArgs) -> bool
    ensures { result ≡ only_reads (call_of args.now) }
{
    match args {
        NfsArgs::Setattr { .. }
        | NfsArgs::Write { .. }
        | NfsArgs::Create { .. }
        | NfsArgs::Remove(_)
        | NfsArgs::Rename { .. }
        | NfsArgs::Link { .. }
        | NfsArgs::Symlink { .. }
        | NfsArgs::Mkdir { .. }
        | NfsArgs::Rmdir(_) => false,
        _ => true,
    }
}

/// As `nfs_call`, for a call that changes files. It isn't inlined, so that a call that reads alone has no
/// room made for an answer that it doesn't give.
#[inline(never)]
fn answer_change(
    tree: &mut Tree,
    alloc: Global,
    who: &Who,
    now: Time,
    args: &NfsArgs,
    out: &mut Vec<u8>,
) -> Result<(), AllocError>
    requires changes { only_reads (call_of args.now) ≡ false }
    requires bounds { HasBounds (call_of args.now) }
    ensures text { Appends
        (answer_text (call_does tree.old.files (caller_of who.now) now (call_of args.now)).0)
        out.old.items result out.new.items }
    ensures files { OnOk result (tree.new.files
        ≡ (call_does tree.old.files (caller_of who.now) now (call_of args.now)).1) }
    ensures err { OnErr result (tree.new.files ≡ tree.old.files) }
{
    out.reserve(SHORT_ANSWER)?;
    let answer = change(tree, alloc, who, now, args)?;
    write_result(&answer, out)
}

/// Does what a caller's call at a time asks for, and appends the answer. A refusal is a stat within the
/// answer, and leaves the files as they were. Where memory is refused, the files and the bytes are as they
/// were: a call that changes files makes room for its answer first.
pub fn nfs_call(
    tree: &mut Tree,
    alloc: Global,
    who: &Who,
    now: Time,
    args: &NfsArgs,
    out: &mut Vec<u8>,
) -> Result<(), AllocError>
    requires { HasBounds (call_of args.now) }
    ensures text { Appends
        (answer_text (call_does tree.old.files (caller_of who.now) now (call_of args.now)).0)
        out.old.items result out.new.items }
    ensures files { OnOk result (tree.new.files
        ≡ (call_does tree.old.files (caller_of who.now) now (call_of args.now)).1) }
    ensures err { OnErr result (tree.new.files ≡ tree.old.files) }
{
    if only_reads(args) {
        answer_read(tree, alloc, who, now, args, out)
    } else {
        answer_change(tree, alloc, who, now, args, out)
    }
}
