//! Attributes that a call gives.

ghost use Rattle.std.specs.Prelude.{◌≡◌};
ghost use Rattle.nfs_spec.specs.Sattr.{given_word, given_mode, given_time};

use nfs_spec::{RawTime, Sattr, Time};

/// The word that gives nothing.
const NOT_GIVEN: u32 = 0xffff_ffff;

/// The mode that gives nothing too, of callers that have sixteen bits for one.
const MODE_NOT_GIVEN: u32 = 0xffff;

/// The attributes that a call gives (RFC 1094, section 2.3.6, sattr), each where it is to be set.
#[derive(Clone, Copy)]
pub struct Given {
    /// The twelve kept bits.
    pub mode: Option<u16>,
    pub uid: Option<u32>,
    pub gid: Option<u32>,
    /// In bytes.
    pub size: Option<u32>,
    pub atime: Option<Time>,
    pub mtime: Option<Time>,
}

impl Given {
    ghost use Rattle.std.specs.Prelude.{◌≡◌, ◌||◌, is_some};
    ghost use Rattle.nfs_spec.specs.Sattr.{given_fields, gives_any};
    ghost use Rattle.inodes.specs.Given.{given_in};

    /// What the attributes of a call give at a clock reading. A word of all ones gives nothing, nor does the
    /// mode 0xffff, of another the low twelve bits count, and a time whose microseconds are above 999,999 is
    /// the clock reading.
    pub fn of(sattr: &Sattr, now: Time) -> Given
        ensures { given_in result ≡ given_fields now sattr.now }
    {
        Given {
            mode: given_mode(sattr.mode),
            uid: given_word(sattr.uid),
            gid: given_word(sattr.gid),
            size: given_word(sattr.size),
            atime: given_time(now, sattr.atime),
            mtime: given_time(now, sattr.mtime),
        }
    }

    /// Whether a mode or a time is given.
    pub(crate) fn has_mode_or_times(&self) -> bool
        ensures { result
            ≡ (is_some self.now.mode || is_some self.now.atime || is_some self.now.mtime) }
    {
        self.mode.is_some() || self.atime.is_some() || self.mtime.is_some()
    }

    /// Whether any is given.
    pub fn is_any(&self) -> bool
        ensures { result ≡ gives_any (given_in self.now) }
    {
        self.mode.is_some()
            || self.uid.is_some()
            || self.gid.is_some()
            || self.size.is_some()
            || self.atime.is_some()
            || self.mtime.is_some()
    }
}

fn given_word(word: u32) -> Option<u32>
    ensures { result ≡ given_word word }
{
    if word == NOT_GIVEN { None } else { Some(word) }
}

fn given_mode(word: u32) -> Option<u16>
    ensures { result ≡ given_mode word }
{
    if word == NOT_GIVEN || word == MODE_NOT_GIVEN {
        None
    } else {
        Some((word % 0o10000) as u16)
    }
}

fn given_time(now: Time, time: RawTime) -> Option<Time>
    ensures { result ≡ given_time now time }
{
    if time.seconds == NOT_GIVEN {
        return None;
    }
    match Time::new(time.seconds, time.microseconds) {
        Some(time) => Some(time),
        None => Some(now),
    }
}
