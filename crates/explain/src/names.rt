//! Numbers of the protocols, by their names in the standards.

use crate::draft::Draft;
use crate::facts::Facts;

/// A number, with its name in a standard.
#[derive(Clone, Copy)]
pub(crate) struct NumberName {
    pub number: u32,
    pub name: &'static str,
}

/// Stats of NFS (RFC 1094, section 2.3.1).
pub(crate) static STATS: [NumberName; 18] = [
    NumberName {
        number: 0,
        name: "NFS_OK",
    },
    NumberName {
        number: 1,
        name: "NFSERR_PERM",
    },
    NumberName {
        number: 2,
        name: "NFSERR_NOENT",
    },
    NumberName {
        number: 5,
        name: "NFSERR_IO",
    },
    NumberName {
        number: 6,
        name: "NFSERR_NXIO",
    },
    NumberName {
        number: 13,
        name: "NFSERR_ACCES",
    },
    NumberName {
        number: 17,
        name: "NFSERR_EXIST",
    },
    NumberName {
        number: 19,
        name: "NFSERR_NODEV",
    },
    NumberName {
        number: 20,
        name: "NFSERR_NOTDIR",
    },
    NumberName {
        number: 21,
        name: "NFSERR_ISDIR",
    },
    NumberName {
        number: 27,
        name: "NFSERR_FBIG",
    },
    NumberName {
        number: 28,
        name: "NFSERR_NOSPC",
    },
    NumberName {
        number: 30,
        name: "NFSERR_ROFS",
    },
    NumberName {
        number: 63,
        name: "NFSERR_NAMETOOLONG",
    },
    NumberName {
        number: 66,
        name: "NFSERR_NOTEMPTY",
    },
    NumberName {
        number: 69,
        name: "NFSERR_DQUOT",
    },
    NumberName {
        number: 70,
        name: "NFSERR_STALE",
    },
    NumberName {
        number: 99,
        name: "NFSERR_WFLUSH",
    },
];

/// Statuses of MNT (RFC 1094, appendix A.5.2), numbers of UNIX errors.
pub(crate) static MOUNT_STATUSES: [NumberName; 4] = [
    NumberName {
        number: 0,
        name: "mounted",
    },
    NumberName {
        number: 2,
        name: "ENOENT",
    },
    NumberName {
        number: 13,
        name: "EACCES",
    },
    NumberName {
        number: 28,
        name: "ENOSPC",
    },
];

/// Types of files (RFC 1094, section 2.3.2).
pub(crate) const FILE_TYPES: [NumberName; 6] = [
    NumberName {
        number: 0,
        name: "NFNON",
    },
    NumberName {
        number: 1,
        name: "NFREG",
    },
    NumberName {
        number: 2,
        name: "NFDIR",
    },
    NumberName {
        number: 3,
        name: "NFBLK",
    },
    NumberName {
        number: 4,
        name: "NFCHR",
    },
    NumberName {
        number: 5,
        name: "NFLNK",
    },
];

/// Booleans (RFC 4506, section 4.4).
pub(crate) const BOOLEANS: [NumberName; 2] = [
    NumberName {
        number: 0,
        name: "FALSE",
    },
    NumberName {
        number: 1,
        name: "TRUE",
    },
];

/// Programs that are served.
pub(crate) static PROGRAMS: [NumberName; 2] = [
    NumberName {
        number: 100_003,
        name: "NFS",
    },
    NumberName {
        number: 100_005,
        name: "MOUNT",
    },
];

/// Flavors of credentials (RFC 5531, section 8.2).
pub(crate) static FLAVORS: [NumberName; 4] = [
    NumberName {
        number: 0,
        name: "AUTH_NONE",
    },
    NumberName {
        number: 1,
        name: "AUTH_SYS",
    },
    NumberName {
        number: 2,
        name: "AUTH_SHORT",
    },
    NumberName {
        number: 3,
        name: "AUTH_DH",
    },
];

/// Whether a call was accepted (RFC 5531, section 9, reply_stat).
pub(crate) static REPLY_STATS: [NumberName; 2] = [
    NumberName {
        number: 0,
        name: "MSG_ACCEPTED",
    },
    NumberName {
        number: 1,
        name: "MSG_DENIED",
    },
];

/// What became of an accepted call (RFC 5531, section 9, accept_stat).
pub(crate) static ACCEPT_STATS: [NumberName; 6] = [
    NumberName {
        number: 0,
        name: "SUCCESS",
    },
    NumberName {
        number: 1,
        name: "PROG_UNAVAIL",
    },
    NumberName {
        number: 2,
        name: "PROG_MISMATCH",
    },
    NumberName {
        number: 3,
        name: "PROC_UNAVAIL",
    },
    NumberName {
        number: 4,
        name: "GARBAGE_ARGS",
    },
    NumberName {
        number: 5,
        name: "SYSTEM_ERR",
    },
];

/// Why a call was denied (RFC 5531, section 9, reject_stat).
pub(crate) static REJECT_STATS: [NumberName; 2] = [
    NumberName {
        number: 0,
        name: "RPC_MISMATCH",
    },
    NumberName {
        number: 1,
        name: "AUTH_ERROR",
    },
];

/// Why a credential was refused (RFC 5531, section 9, auth_stat).
pub(crate) static AUTH_STATS: [NumberName; 3] = [
    NumberName {
        number: 1,
        name: "AUTH_BADCRED",
    },
    NumberName {
        number: 2,
        name: "AUTH_REJECTEDCRED",
    },
    NumberName {
        number: 5,
        name: "AUTH_TOOWEAK",
    },
];

/// The name of a number in a table, if it has one.
fn name_in(table: &[NumberName], number: u32) -> Option<&'static str> {
    for known in table {
        if known.number == number {
            return Some(known.name);
        }
    }
    None
}

impl Draft {
    /// Appends a number with its name in a table, as `NFS_OK (0)`, or the number alone.
    fn named(&mut self, table: &[NumberName], number: u32) {
        match name_in(table, number) {
            Some(name) => self.name_and_number(name, number),
            None => self.number(u64::from(number)),
        }
    }

    /// Appends a name with its number.
    fn name_and_number(&mut self, name: &str, number: u32) {
        self.words(name);
        self.words(" (");
        self.number(u64::from(number));
        self.words(")");
    }
}

impl Facts {
    /// Adds a number with its name in a table.
    pub(crate) fn named(&mut self, name: &'static str, table: &[NumberName], number: u32) {
        let mut draft = self.draft();
        draft.named(table, number);
        self.text(name, draft);
    }

    /// Adds a number with a name of its own.
    pub(crate) fn name_and_number(&mut self, name: &'static str, own: &str, number: u32) {
        let mut draft = self.draft();
        draft.name_and_number(own, number);
        self.text(name, draft);
    }
}
