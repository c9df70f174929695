//! Files from their texts (RFC 4506).

ghost use Rattle.std.specs.Prelude.{◌≡◌};
ghost use Rattle.xdr.specs.Item.{pair, word, array, choice};
ghost use Rattle.xdr.specs.Reading.{GivesUnless};
ghost use Rattle.xdr.specs.ReadFault.{xdr_fault};
ghost use Rattle.fs_spec.specs.nfs_items.Timeval.{timeval};
ghost use Rattle.tree_rules.specs.GivenListing.{said_entry, said_entries};
ghost use Rattle.server_spec.specs.FileItems.{entry_item, attributes_item, kind_item, is_file_kind};
ghost use Rattle.server_spec.specs.FileItems.{file_item};
ghost use Rattle.tree_rules.specs.declared.limits.TheConstants.{MAX_DIRECTORY_ENTRIES};
ghost use Rattle.file_texts.specs.Parts.{time_said, attributes_said, kind_said, file_said};

use crate::parts::{AttributesPart, BodyPart, FilePart, TimePart};
use std::alloc::Global;
use tree_rules::{GivenEntry, MAX_DIRECTORY_ENTRIES, MAX_FILE_SIZE};
use xdr::{FromXdr, ReadFault, Reader, XdrFault, put_back_on_err};

/// The most bytes of a name.
const MAX_NAME: u32 = 255;

/// The most bytes of a symbolic link's target.
const MAX_TARGET: u32 = 1_024;

impl<'a> FromXdr<'a> for FilePart<'a> {
    ghost item = { file_item };

    ghost value = { file_said };

    fn read(alloc: Global, reader: &mut Reader<'a>) -> Result<FilePart<'a>, ReadFault> {
        let start = reader.rest();
        let read = read_file(alloc, reader);
        put_back_on_err(reader, start, read)
    }
}

fn read_entry<'a>(reader: &mut Reader<'a>) -> Result<GivenEntry<'a>, ReadFault>
    ensures { GivesUnless xdr_fault entry_item said_entry reader.old result reader.new }
{
    let name = reader.opaque(MAX_NAME)?;
    let number = reader.u32()?;
    let cookie = reader.u32()?;
    Ok(GivenEntry {
        name,
        number,
        cookie,
    })
}

fn read_file<'a>(alloc: Global, reader: &mut Reader<'a>) -> Result<FilePart<'a>, ReadFault>
    ensures { GivesUnless xdr_fault file_item file_said reader.old result reader.new }
{
    let number = reader.u32()?;
    let (attributes, body) = read_kind(alloc, reader)?;
    Ok(FilePart {
        number,
        attributes,
        body,
    })
}

/// What stands after a file's number.
fn read_kind<'a>(
    alloc: Global,
    reader: &mut Reader<'a>,
) -> Result<(AttributesPart, BodyPart<'a>), ReadFault>
    ensures { GivesUnless xdr_fault (choice is_file_kind kind_item) (λ x. kind_said x.0 x.1)
        reader.old result reader.new }
{
    match reader.u32()? {
        1 => {
            let (attributes, bytes) = read_regular(reader)?;
            Ok((attributes, BodyPart::Regular(bytes)))
        }
        2 => {
            let (attributes, next, entries) = read_directory(alloc, reader)?;
            Ok((attributes, BodyPart::Directory { next, entries }))
        }
        5 => {
            let (attributes, target) = read_symlink(reader)?;
            Ok((attributes, BodyPart::Symlink(target)))
        }
        _ => Err(ReadFault::Fault(XdrFault::BadEnum)),
    }
}

fn read_regular<'a>(reader: &mut Reader<'a>) -> Result<(AttributesPart, &'a [u8]), ReadFault>
    ensures { GivesUnless xdr_fault (kind_item 1) (λ x. (attributes_said x.0, x.1.now))
        reader.old result reader.new }
{
    let attributes = read_attributes(reader)?;
    let bytes = reader.opaque(MAX_FILE_SIZE)?;
    Ok((attributes, bytes))
}

fn read_symlink<'a>(reader: &mut Reader<'a>) -> Result<(AttributesPart, &'a [u8]), ReadFault>
    ensures { GivesUnless xdr_fault (kind_item 5) (λ x. (attributes_said x.0, x.1.now))
        reader.old result reader.new }
{
    let attributes = read_attributes(reader)?;
    let target = reader.opaque(MAX_TARGET)?;
    Ok((attributes, target))
}

fn read_directory<'a>(
    alloc: Global,
    reader: &mut Reader<'a>,
) -> Result<(AttributesPart, u32, Vec<GivenEntry<'a>>), ReadFault>
    ensures { GivesUnless xdr_fault (kind_item 2)
        (λ x. (attributes_said x.0, (x.1, said_entries x.2.items))) reader.old result reader.new }
{
    let attributes = read_attributes(reader)?;
    let next = reader.u32()?;
    let entries = read_entries(alloc, reader)?;
    Ok((attributes, next, entries))
}

/// A directory's entries after their count.
fn read_entries<'a>(
    alloc: Global,
    reader: &mut Reader<'a>,
) -> Result<Vec<GivenEntry<'a>>, ReadFault>
    ensures { GivesUnless xdr_fault (array MAX_DIRECTORY_ENTRIES entry_item) (λ v. said_entries v.items)
        reader.old result reader.new }
{
    let count = reader.u32()?;
    if count > MAX_DIRECTORY_ENTRIES {
        return Err(ReadFault::Fault(XdrFault::TooLong));
    }
    let mut entries = Vec::new(alloc);
    for _ in 0..count {
        entries.push(read_entry(reader)?)?;
    }
    Ok(entries)
}

fn read_attributes(reader: &mut Reader<'_>) -> Result<AttributesPart, ReadFault>
    ensures { GivesUnless xdr_fault attributes_item attributes_said reader.old result reader.new }
{
    let mode = reader.u32()?;
    let uid = reader.u32()?;
    let gid = reader.u32()?;
    let atime = read_time(reader)?;
    let mtime = read_time(reader)?;
    let ctime = read_time(reader)?;
    Ok(AttributesPart {
        mode,
        uid,
        gid,
        atime,
        mtime,
        ctime,
    })
}

fn read_time(reader: &mut Reader<'_>) -> Result<TimePart, ReadFault>
    ensures { GivesUnless xdr_fault timeval time_said reader.old result reader.new }
{
    let seconds = reader.u32()?;
    let microseconds = reader.u32()?;
    Ok(TimePart {
        seconds,
        microseconds,
    })
}
