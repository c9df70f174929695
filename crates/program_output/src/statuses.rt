//! The exit statuses of the program, beside 0.

/// A fault in the input: the records end with one, a file is no evidence or has no roster or no base, or a
/// script has a bad line.
pub const INPUT_FAULT: u8 = 1;

/// The words of the command line ask for nothing that there is.
pub const COMMAND_LINE: u8 = 2;

/// Memory was refused.
pub const NO_MEMORY: u8 = 3;

/// A read or a write failed, or a connection.
pub const DEVICE: u8 = 4;

/// The keys of a node are used up.
pub const KEYS_USED_UP: u8 = 5;

/// The other side can't be accepted: it has another roster.
pub const NOT_ACCEPTED: u8 = 6;

/// A node that was asked for is suspected.
pub const SUSPECTED: u8 = 7;

/// A node that was asked for is exposed.
pub const EXPOSED: u8 = 8;
