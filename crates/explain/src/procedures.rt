//! The procedures of NFS and MOUNT, with their arguments and results (RFC 1094, section 2.2 and appendix A).

use crate::fields::{Field, Form};
use crate::names::BOOLEANS;

/// A part of what a procedure answers.
#[derive(Clone, Copy)]
pub(crate) enum Part {
    /// These items.
    Items(&'static [Field]),
    /// A file's attributes.
    Attributes,
    /// A list under a name, each with these items.
    List(&'static str, &'static [Field]),
    /// What may be mounted.
    Exports,
}

/// Stats by which procedures answer.
#[derive(Clone, Copy)]
pub(crate) enum Stats {
    /// None: the results always come.
    None,
    /// Those of NFS.
    Nfs,
    /// Those of MNT.
    Mount,
}

/// A procedure.
#[derive(Clone, Copy)]
pub(crate) struct Procedure {
    pub name: &'static str,
    pub arguments: &'static [Field],
    /// Of which stats one stands first in what it answers: the results come where that is 0.
    pub stats: Stats,
    pub results: &'static [Part],
}

const NAME: Form = Form::Opaque(255);

const PATH: Form = Form::Opaque(1024);

const NOTHING: &[Field] = &[];

const FILE: &[Field] = &[Field {
    name: "file",
    form: Form::Handle,
}];

const PLACE: &[Field] = &[
    Field {
        name: "directory",
        form: Form::Handle,
    },
    Field {
        name: "name",
        form: NAME,
    },
];

const SETATTR: &[Field] = &[
    Field {
        name: "file",
        form: Form::Handle,
    },
    Field {
        name: "mode",
        form: Form::GivenMode,
    },
    Field {
        name: "uid",
        form: Form::Given,
    },
    Field {
        name: "gid",
        form: Form::Given,
    },
    Field {
        name: "size",
        form: Form::Given,
    },
    Field {
        name: "atime",
        form: Form::GivenTime,
    },
    Field {
        name: "mtime",
        form: Form::GivenTime,
    },
];

const READ: &[Field] = &[
    Field {
        name: "file",
        form: Form::Handle,
    },
    Field {
        name: "offset",
        form: Form::Word,
    },
    Field {
        name: "count",
        form: Form::Word,
    },
    Field {
        name: "totalcount",
        form: Form::Word,
    },
];

const WRITE: &[Field] = &[
    Field {
        name: "file",
        form: Form::Handle,
    },
    Field {
        name: "beginoffset",
        form: Form::Word,
    },
    Field {
        name: "offset",
        form: Form::Word,
    },
    Field {
        name: "totalcount",
        form: Form::Word,
    },
    Field {
        name: "data",
        form: DATA,
    },
];

const DATA: Form = Form::Opaque(8192);

/// Of CREATE and MKDIR.
const CREATE: &[Field] = &[
    Field {
        name: "directory",
        form: Form::Handle,
    },
    Field {
        name: "name",
        form: NAME,
    },
    Field {
        name: "mode",
        form: Form::GivenMode,
    },
    Field {
        name: "uid",
        form: Form::Given,
    },
    Field {
        name: "gid",
        form: Form::Given,
    },
    Field {
        name: "size",
        form: Form::Given,
    },
    Field {
        name: "atime",
        form: Form::GivenTime,
    },
    Field {
        name: "mtime",
        form: Form::GivenTime,
    },
];

const RENAME: &[Field] = &[
    Field {
        name: "from directory",
        form: Form::Handle,
    },
    Field {
        name: "from name",
        form: NAME,
    },
    Field {
        name: "to directory",
        form: Form::Handle,
    },
    Field {
        name: "to name",
        form: NAME,
    },
];

const LINK: &[Field] = &[
    Field {
        name: "file",
        form: Form::Handle,
    },
    Field {
        name: "to directory",
        form: Form::Handle,
    },
    Field {
        name: "to name",
        form: NAME,
    },
];

const SYMLINK: &[Field] = &[
    Field {
        name: "directory",
        form: Form::Handle,
    },
    Field {
        name: "name",
        form: NAME,
    },
    Field {
        name: "target",
        form: PATH,
    },
    Field {
        name: "mode",
        form: Form::GivenMode,
    },
    Field {
        name: "uid",
        form: Form::Given,
    },
    Field {
        name: "gid",
        form: Form::Given,
    },
    Field {
        name: "size",
        form: Form::Given,
    },
    Field {
        name: "atime",
        form: Form::GivenTime,
    },
    Field {
        name: "mtime",
        form: Form::GivenTime,
    },
];

const READDIR: &[Field] = &[
    Field {
        name: "directory",
        form: Form::Handle,
    },
    Field {
        name: "cookie",
        form: Form::Word,
    },
    Field {
        name: "count",
        form: Form::Word,
    },
];

const TARGET: &[Field] = &[Field {
    name: "target",
    form: PATH,
}];

const FREE: &[Field] = &[
    Field {
        name: "tsize",
        form: Form::Word,
    },
    Field {
        name: "bsize",
        form: Form::Word,
    },
    Field {
        name: "blocks",
        form: Form::Word,
    },
    Field {
        name: "bfree",
        form: Form::Word,
    },
    Field {
        name: "bavail",
        form: Form::Word,
    },
];

const PATH_OF_DIRECTORY: Field = Field {
    name: "directory",
    form: PATH,
};

const DIRECTORY: &[Field] = &[PATH_OF_DIRECTORY];

const DATA_READ: &[Field] = &[Field {
    name: "data",
    form: DATA,
}];

const ENTRY: &[Field] = &[
    Field {
        name: "fileid",
        form: Form::Word,
    },
    Field {
        name: "name",
        form: NAME,
    },
    Field {
        name: "cookie",
        form: Form::Word,
    },
];

const MOUNT: &[Field] = &[
    Field {
        name: "hostname",
        form: NAME,
    },
    Field {
        name: "directory",
        form: PATH,
    },
];

/// A flag alone.
const END_OF_LIST: &[Field] = &[Field {
    name: "eof",
    form: Form::Named(&BOOLEANS),
}];

/// Of what may be mounted.
pub(crate) static EXPORTED: [Field; 1] = [PATH_OF_DIRECTORY];

/// Of those that may mount it.
pub(crate) static GROUP: [Field; 1] = [Field {
    name: "group",
    form: NAME,
}];

/// The procedures of NFS version 2, by their numbers.
static NFS: [Procedure; 18] = [
    Procedure {
        name: "NULL",
        arguments: NOTHING,
        stats: Stats::None,
        results: &[],
    },
    Procedure {
        name: "GETATTR",
        arguments: FILE,
        stats: Stats::Nfs,
        results: &[Part::Attributes],
    },
    Procedure {
        name: "SETATTR",
        arguments: SETATTR,
        stats: Stats::Nfs,
        results: &[Part::Attributes],
    },
    Procedure {
        name: "ROOT",
        arguments: NOTHING,
        stats: Stats::None,
        results: &[],
    },
    Procedure {
        name: "LOOKUP",
        arguments: PLACE,
        stats: Stats::Nfs,
        results: &[Part::Items(FILE), Part::Attributes],
    },
    Procedure {
        name: "READLINK",
        arguments: FILE,
        stats: Stats::Nfs,
        results: &[Part::Items(TARGET)],
    },
    Procedure {
        name: "READ",
        arguments: READ,
        stats: Stats::Nfs,
        results: &[Part::Attributes, Part::Items(DATA_READ)],
    },
    Procedure {
        name: "WRITECACHE",
        arguments: NOTHING,
        stats: Stats::None,
        results: &[],
    },
    Procedure {
        name: "WRITE",
        arguments: WRITE,
        stats: Stats::Nfs,
        results: &[Part::Attributes],
    },
    Procedure {
        name: "CREATE",
        arguments: CREATE,
        stats: Stats::Nfs,
        results: &[Part::Items(FILE), Part::Attributes],
    },
    Procedure {
        name: "REMOVE",
        arguments: PLACE,
        stats: Stats::Nfs,
        results: &[],
    },
    Procedure {
        name: "RENAME",
        arguments: RENAME,
        stats: Stats::Nfs,
        results: &[],
    },
    Procedure {
        name: "LINK",
        arguments: LINK,
        stats: Stats::Nfs,
        results: &[],
    },
    Procedure {
        name: "SYMLINK",
        arguments: SYMLINK,
        stats: Stats::Nfs,
        results: &[],
    },
    Procedure {
        name: "MKDIR",
        arguments: CREATE,
        stats: Stats::Nfs,
        results: &[Part::Items(FILE), Part::Attributes],
    },
    Procedure {
        name: "RMDIR",
        arguments: PLACE,
        stats: Stats::Nfs,
        results: &[],
    },
    Procedure {
        name: "READDIR",
        arguments: READDIR,
        stats: Stats::Nfs,
        results: &[Part::List("entries", ENTRY), Part::Items(END_OF_LIST)],
    },
    Procedure {
        name: "STATFS",
        arguments: FILE,
        stats: Stats::Nfs,
        results: &[Part::Items(FREE)],
    },
];

/// The procedures of MOUNT version 1, by their numbers.
static MOUNTS: [Procedure; 6] = [
    Procedure {
        name: "NULL",
        arguments: NOTHING,
        stats: Stats::None,
        results: &[],
    },
    Procedure {
        name: "MNT",
        arguments: DIRECTORY,
        stats: Stats::Mount,
        results: &[Part::Items(FILE)],
    },
    Procedure {
        name: "DUMP",
        arguments: NOTHING,
        stats: Stats::None,
        results: &[Part::List("mounts", MOUNT)],
    },
    Procedure {
        name: "UMNT",
        arguments: DIRECTORY,
        stats: Stats::None,
        results: &[],
    },
    Procedure {
        name: "UMNTALL",
        arguments: NOTHING,
        stats: Stats::None,
        results: &[],
    },
    Procedure {
        name: "EXPORT",
        arguments: NOTHING,
        stats: Stats::None,
        results: &[Part::Exports],
    },
];

/// The procedure with a number of a program's version, if it is served.
pub(crate) fn procedure_of(program: u32, version: u32, number: u32) -> Option<&'static Procedure> {
    match (program, version) {
        (100_003, 2) => NFS.get(number as usize),
        (100_005, 1) => MOUNTS.get(number as usize),
        _ => None,
    }
}
