//! Writes the results of procedures.

ghost use Rattle.std.specs.Prelude.{◌≡◌, ◌<◌, ◌≤◌, ◌-◌, ◌^◌, ◌++◌, All, IsOk, length, map, vec_len};
ghost use Rattle.std.specs.Prelude.{vec_capacity};
ghost use Rattle.std.specs.List.{flat_map};
ghost use Rattle.nfs_items.specs.xdr.Item.{word, flag, linked, spelling};
ghost use Rattle.nfs_items.specs.xdr.Writing.{Adds, Appends, Spends};
ghost use Rattle.nfs_items.specs.Handle.{fhandle};
ghost use Rattle.nfs_items.specs.Attributes.{fattr, fattr_value, outcome_text};
ghost use Rattle.nfs_types.specs.Items.{path, nfsdata, entry, fs_stats};
ghost use Rattle.nfs_types.specs.Texts.{entry_value, fs_stats_value, answer_text};
ghost use Rattle.nfs_types.specs.Calls.{Attributes, DirOp};
ghost use Rattle.nfs_types.specs.Results.{answer_of, dir_op_of, entry_of, outcome_of};
ghost use Rattle.nfs_types.specs.Results.{HasLengths, IsShort, answer_bytes};

use crate::{DirOpOk, FsStats, NfsResult, Page, PageEntry, ReadOk, SHORT_ANSWER};
use nfs_items::{Fattr, Stat, Writer, all_or_nothing};
use std::alloc::AllocError;

/// The stat of a call that was done (RFC 1094, section 2.3.1).
const OK: u32 = 0;

/// Appends what a procedure answers (RFC 1094, section 2.2). Where memory is refused, the bytes stay as they
/// were; none is for an answer of a call that changes files where `out` has room for `SHORT_ANSWER` bytes
/// more.
#[tactic(auto, using(crate::proofs::OfResultTexts::AnswersSaid::answers_say))]
pub fn write_result(answer: &NfsResult, out: &mut Vec<u8>) -> Result<(), AllocError>
    requires { HasLengths answer.now }
    ensures appends { Appends (answer_text (answer_of answer.now)) out.old.items result out.new.items }
    ensures room { IsShort answer.now → SHORT_ANSWER ≤ vec_capacity out.old - vec_len out.old → IsOk result }
{
    let start = out.len();
    let written = add_result(answer, out);
    all_or_nothing(out, start, written)
}

/// Appends what GETATTR answers (attrstat, section 2.3.9), as `write_result` does, and needs no `NfsResult`.
/// Memory isn't refused where `out` has room for `SHORT_ANSWER` bytes more.
pub fn write_attributes(
    attributes: &Result<Fattr, Stat>,
    out: &mut Vec<u8>,
) -> Result<(), AllocError>
    ensures appends { Appends (answer_text (Attributes attributes.now)) out.old.items result out.new.items }
    ensures room { SHORT_ANSWER ≤ vec_capacity out.old - vec_len out.old → IsOk result }
{
    let start = out.len();
    let written = add_attrstat(attributes, out);
    all_or_nothing(out, start, written)
}

fn add_attrstat(attributes: &Result<Fattr, Stat>, out: &mut Vec<u8>) -> Result<(), AllocError>
    ensures adds { Adds (outcome_text (λ a. spelling fattr (fattr_value a)) attributes.now)
        out.old.items result out.new.items }
    ensures room { SHORT_ANSWER ≤ vec_capacity out.old - vec_len out.old → IsOk result }
{
    match attributes {
        Ok(attributes) => add_attributes(attributes, out),
        Err(stat) => stat.write(out),
    }
}

/// Appends what LOOKUP answers (diropres, section 2.3.11), as `write_result` does, and needs no `NfsResult`.
/// Memory isn't refused where `out` has room for `SHORT_ANSWER` bytes more.
pub fn write_dir_op(found: &Result<DirOpOk, Stat>, out: &mut Vec<u8>) -> Result<(), AllocError>
    ensures appends { Appends (answer_text (DirOp (outcome_of dir_op_of found.now)))
        out.old.items result out.new.items }
    ensures room { SHORT_ANSWER ≤ vec_capacity out.old - vec_len out.old → IsOk result }
{
    let start = out.len();
    let written = add_diropres(found, out);
    all_or_nothing(out, start, written)
}

fn add_diropres(found: &Result<DirOpOk, Stat>, out: &mut Vec<u8>) -> Result<(), AllocError>
    ensures adds { Adds
        (outcome_text (λ x. spelling fhandle x.file.0 ++ spelling fattr (fattr_value x.attributes)) found.now)
        out.old.items result out.new.items }
    ensures room { SHORT_ANSWER ≤ vec_capacity out.old - vec_len out.old → IsOk result }
{
    match found {
        Ok(found) => add_dir_op(found, out),
        Err(stat) => stat.write(out),
    }
}

fn add_result(answer: &NfsResult, out: &mut Vec<u8>) -> Result<(), AllocError>
    requires { HasLengths answer.now }
    ensures adds { Adds (answer_bytes answer.now) out.old.items result out.new.items }
    ensures room { IsShort answer.now → SHORT_ANSWER ≤ vec_capacity out.old - vec_len out.old → IsOk result }
{
    match answer {
        NfsResult::Nothing => Ok(()),
        NfsResult::Attributes(attributes) => add_attrstat(attributes, out),
        NfsResult::DirOp(found) => add_diropres(found, out),
        NfsResult::Target(Ok(target)) => add_target(target, out),
        NfsResult::Bytes(Ok(read)) => add_read(read, out),
        NfsResult::Status(Ok(())) => out.put_u32(OK),
        NfsResult::Entries(Ok(page)) => add_page(page, out),
        NfsResult::Free(Ok(fs_stats)) => add_fs_stats(fs_stats, out),
        NfsResult::Target(Err(stat))
        | NfsResult::Bytes(Err(stat))
        | NfsResult::Status(Err(stat))
        | NfsResult::Entries(Err(stat))
        | NfsResult::Free(Err(stat)) => stat.write(out),
    }
}

fn add_attributes(attributes: &Fattr, out: &mut Vec<u8>) -> Result<(), AllocError>
    ensures adds { Adds (spelling word 0 ++ spelling fattr (fattr_value attributes.now))
        out.old.items result out.new.items }
    ensures room { Spends 72 (vec_capacity out.old - vec_len out.old)
        result (vec_capacity out.new - vec_len out.new) }
{
    out.put_u32(OK)?;
    attributes.write(out)
}

fn add_dir_op(found: &DirOpOk, out: &mut Vec<u8>) -> Result<(), AllocError>
    ensures adds { Adds (spelling word 0
        ++ (spelling fhandle found.now.file.0 ++ spelling fattr (fattr_value found.now.attributes)))
        out.old.items result out.new.items }
    ensures room { Spends 104 (vec_capacity out.old - vec_len out.old)
        result (vec_capacity out.new - vec_len out.new) }
{
    out.put_u32(OK)?;
    found.file.write(out)?;
    found.attributes.write(out)
}

fn add_target(target: &[u8], out: &mut Vec<u8>) -> Result<(), AllocError>
    requires { length target.now < 2 ^ 32 }
    ensures { Adds (spelling word 0 ++ spelling path target.now) out.old.items result out.new.items }
{
    out.put_u32(OK)?;
    out.put_opaque(target)
}

fn add_read(read: &ReadOk, out: &mut Vec<u8>) -> Result<(), AllocError>
    requires { length read.now.data.now < 2 ^ 32 }
    ensures { Adds (spelling word 0
        ++ (spelling fattr (fattr_value read.now.attributes) ++ spelling nfsdata read.now.data.now))
        out.old.items result out.new.items }
{
    out.put_u32(OK)?;
    read.attributes.write(out)?;
    out.put_opaque(read.data)
}

fn add_entry(e: &PageEntry, out: &mut Vec<u8>) -> Result<(), AllocError>
    requires { length e.now.name.now < 2 ^ 32 }
    ensures { Adds (spelling word 1 ++ spelling entry (entry_value (entry_of e.now)))
        out.old.items result out.new.items }
{
    out.put_u32(1)?;
    out.put_u32(e.fileid)?;
    out.put_opaque(e.name)?;
    out.put_fixed(&e.cookie.to_be_bytes())
}

fn add_entries(entries: &[PageEntry], out: &mut Vec<u8>) -> Result<(), AllocError>
    requires { All (λ e. length e.name.now < 2 ^ 32) entries.now }
    ensures { Adds (flat_map (λ e. spelling word 1 ++ spelling entry (entry_value (entry_of e))) entries.now)
        out.old.items result out.new.items }
{
    for e in entries {
        add_entry(e, out)?;
    }
    Ok(())
}

/// Each entry after TRUE, and then FALSE.
fn add_list(entries: &[PageEntry], out: &mut Vec<u8>) -> Result<(), AllocError>
    requires { All (λ e. length e.name.now < 2 ^ 32) entries.now }
    ensures { Adds (spelling (linked entry) (map entry_value (map entry_of entries.now)))
        out.old.items result out.new.items }
{
    add_entries(entries, out)?;
    out.put_u32(0)
}

fn add_page(page: &Page, out: &mut Vec<u8>) -> Result<(), AllocError>
    requires { All (λ e. length e.name.now < 2 ^ 32) page.now.entries.items }
    ensures { Adds (spelling word 0
        ++ (spelling (linked entry) (map entry_value (map entry_of page.now.entries.items))
        ++ spelling flag page.now.eof))
        out.old.items result out.new.items }
{
    out.put_u32(OK)?;
    add_list(&page.entries, out)?;
    out.put_bool(page.eof)
}

fn add_fs_stats(f: &FsStats, out: &mut Vec<u8>) -> Result<(), AllocError>
    ensures { Adds (spelling word 0 ++ spelling fs_stats (fs_stats_value f.now))
        out.old.items result out.new.items }
{
    out.put_u32s(&[
        OK,
        f.transfer_size,
        f.block_size,
        f.blocks,
        f.free,
        f.available,
    ])
}
