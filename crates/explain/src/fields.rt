//! Items of calls and replies (RFC 4506), each under its name.

use crate::facts::Facts;
use crate::names::{FILE_TYPES, NumberName};
use nfs_items::{FileHandle, Reader, XdrFault};

/// What an item says.
#[derive(Clone, Copy)]
pub(crate) enum Form {
    /// A number.
    Word,
    /// A mode (RFC 1094, section 2.3.5), in octal digits.
    Mode,
    /// A number that has a name in a standard.
    Named(&'static [NumberName]),
    /// Seconds and microseconds.
    Time,
    /// Of attributes that a call brings (section 2.3.6): a word, all ones where none is given.
    Given,
    /// A mode of these.
    GivenMode,
    /// A time of these.
    GivenTime,
    /// A file handle (section 2.3.3).
    Handle,
    /// Bytes, at most so many.
    Opaque(u32),
}

/// An item under its name.
#[derive(Clone, Copy)]
pub(crate) struct Field {
    pub name: &'static str,
    pub form: Form,
}

/// A word that gives nothing (section 2.3.6).
const NOT_GIVEN: u32 = u32::MAX;

/// A mode that gives nothing, as some clients write it.
const NO_MODE: u32 = 0xffff;

/// The words for that.
const ABSENT: &str = "not given";

/// Attributes (section 2.3.5).
pub(crate) static ATTRIBUTES: [Field; 14] = [
    Field {
        name: "type",
        form: Form::Named(&FILE_TYPES),
    },
    Field {
        name: "mode",
        form: Form::Mode,
    },
    Field {
        name: "nlink",
        form: Form::Word,
    },
    Field {
        name: "uid",
        form: Form::Word,
    },
    Field {
        name: "gid",
        form: Form::Word,
    },
    Field {
        name: "size",
        form: Form::Word,
    },
    Field {
        name: "blocksize",
        form: Form::Word,
    },
    Field {
        name: "rdev",
        form: Form::Word,
    },
    Field {
        name: "blocks",
        form: Form::Word,
    },
    Field {
        name: "fsid",
        form: Form::Word,
    },
    Field {
        name: "fileid",
        form: Form::Word,
    },
    Field {
        name: "atime",
        form: Form::Time,
    },
    Field {
        name: "mtime",
        form: Form::Time,
    },
    Field {
        name: "ctime",
        form: Form::Time,
    },
];

/// Reads items of a server's call or reply, and adds them. The first that doesn't decode ends it.
pub(crate) fn add_fields(
    facts: &mut Facts,
    server: u32,
    reader: &mut Reader<'_>,
    fields: &[Field],
) -> Result<(), XdrFault> {
    for field in fields {
        add_field(facts, server, reader, field)?;
    }
    Ok(())
}

/// Reads items of a list, each after TRUE and the last before FALSE, and adds them.
pub(crate) fn add_items(
    facts: &mut Facts,
    server: u32,
    reader: &mut Reader<'_>,
    name: &'static str,
    fields: &[Field],
) -> Result<(), XdrFault> {
    facts.list(name);
    // Each item takes a byte at least.
    for _ in 0..reader.rest().len() {
        if !reader.bool()? {
            break;
        }
        facts.item();
        add_fields(facts, server, reader, fields)?;
        facts.end();
    }
    facts.end();
    Ok(())
}

/// Reads an item and adds it.
fn add_field(
    facts: &mut Facts,
    server: u32,
    reader: &mut Reader<'_>,
    field: &Field,
) -> Result<(), XdrFault> {
    match field.form {
        Form::Handle => add_handle(facts, field.name, server, FileHandle::read(reader)?),
        Form::Opaque(most) => facts.quoted(field.name, reader.opaque(most)?),
        Form::Time | Form::GivenTime => add_time(facts, field, reader.u64()?),
        _ => add_word(facts, field, reader.u32()?),
    }
    Ok(())
}

/// Adds a word in a form of one.
fn add_word(facts: &mut Facts, field: &Field, word: u32) {
    match field.form {
        Form::Named(table) => facts.named(field.name, table, word),
        Form::Given | Form::GivenMode if word == NOT_GIVEN => facts.absent(field.name, ABSENT),
        Form::GivenMode if word == NO_MODE => facts.absent(field.name, ABSENT),
        Form::Mode | Form::GivenMode => facts.octal(field.name, word),
        _ => facts.number(field.name, u64::from(word)),
    }
}

/// Adds a time: the word of its seconds with that of its microseconds after it.
fn add_time(facts: &mut Facts, field: &Field, time: u64) {
    let seconds = (time >> 32) as u32;
    let microseconds = (time & 0xffff_ffff) as u32;
    match field.form {
        Form::GivenTime if seconds == NOT_GIVEN => facts.absent(field.name, ABSENT),
        Form::GivenTime if microseconds > 999_999 => {
            facts.words(field.name, "the time of the call");
        }
        _ => facts.time(field.name, seconds, microseconds),
    }
}

/// Adds the file that a handle names at a server.
fn add_handle(facts: &mut Facts, name: &'static str, server: u32, handle: FileHandle) {
    let mut draft = facts.draft();
    match handle.number_in(server) {
        Some(number) => {
            draft.words("file ");
            draft.number(u64::from(number));
        }
        None => {
            draft.words("no handle of this server: ");
            draft.hex(&handle.0);
        }
    }
    facts.text(name, draft);
}
