//! Arguments of the procedures.

ghost use Rattle.std.specs.Prelude.{◌≡◌};

/// A procedure of MOUNT version 1 (RFC 1094, appendix A.5), with its number.
#[derive(Clone, Copy, Debug, PartialEq, Eq)]
pub enum MountProcedure {
    Null = 0,
    Mnt = 1,
    Dump = 2,
    Umnt = 3,
    Umntall = 4,
    Export = 5,
}

impl MountProcedure {
    ghost use Rattle.mount_types.specs.Texts.{procedure_at};

    /// The procedure of a number, of which there are 6, from 0 on.
    pub fn from_number(number: u32) -> Option<MountProcedure>
        ensures { result ≡ procedure_at number }
    {
        match number {
            0 => Some(MountProcedure::Null),
            1 => Some(MountProcedure::Mnt),
            2 => Some(MountProcedure::Dump),
            3 => Some(MountProcedure::Umnt),
            4 => Some(MountProcedure::Umntall),
            5 => Some(MountProcedure::Export),
            _ => None,
        }
    }
}

/// A procedure with its arguments.
#[derive(Clone, Copy, Debug)]
pub enum MountArgs<'a> {
    Null,
    /// The path to mount, at most 1,024 bytes.
    Mnt(&'a [u8]),
    Dump,
    /// The path to unmount, at most 1,024 bytes.
    Umnt(&'a [u8]),
    Umntall,
    Export,
}
