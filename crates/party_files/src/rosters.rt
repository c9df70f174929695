//! The rosters in a folder.

ghost use Rattle.std.specs.Prelude.{◌≡◌};
ghost use Rattle.sha2.specs.Sha256.{sha256};

use authenticator::Roster;
use host_keys::EpochRoster;
use program_output::{INPUT_FAULT, report_file, report_name, report_no_memory};
use sha2::{Digest, Sha256};
use std::alloc::{AllocError, Global};
use std::rt::Files;
use std::{fs, io};
use xdr::texts::TextFault;

/// What the name of a roster's file begins with, before the number of its epoch.
const BEFORE: &str = "epoch-";

/// What it ends with.
const AFTER: &str = ".roster";

/// The roster of an epoch, as a folder has it.
#[derive(Drop)]
pub struct HeldRoster {
    /// The epoch, and the digest of the text.
    pub of: EpochRoster,
    pub roster: Roster,
}

/// Why the rosters of a folder can't be used.
#[derive(Debug, Drop)]
pub enum RostersFault {
    /// The folder can't be read.
    Folder(io::Error),
    /// A file in it can't be read.
    File(String, io::Error),
    /// A file in it isn't the text of a roster.
    NotARoster(String),
    /// There is none.
    None,
    /// Memory was refused.
    NoMemory,
}

impl From<AllocError> for RostersFault {
    fn from(_: AllocError) -> RostersFault {
        RostersFault::NoMemory
    }
}

/// Reads the rosters of a folder, in no order: of each file `epoch-E.roster`, with a number from 1 on. Files
/// with other names are passed over.
pub fn read_rosters<R>(rt: &R, folder: &str) -> Result<Vec<HeldRoster>, RostersFault>
where
    R: Files + AllocGlobal + Clone + Drop,
{
    let alloc = rt.alloc();
    let mut held = Vec::new(alloc);
    for entry in fs::read_dir(rt, folder).map_err(RostersFault::Folder)? {
        let entry = entry.map_err(RostersFault::Folder)?;
        if let Some(epoch) = epoch_named(entry.file_name()) {
            held.push(read_roster(rt, alloc, folder, epoch)?)
                .map_err(AllocError::from)?;
        }
    }
    if held.is_empty() {
        return Err(RostersFault::None);
    }
    Ok(held)
}

/// The epoch whose roster a file of this name has.
fn epoch_named(name: &str) -> Option<u32> {
    let digits = name.strip_prefix(BEFORE)?.strip_suffix(AFTER)?;
    if digits.starts_with('0') || !digits.as_bytes().iter().all(|byte| byte.is_ascii_digit()) {
        return None;
    }
    digits.parse::<u32>().ok()
}

/// The name of the file with the roster of an epoch.
pub fn roster_name(alloc: Global, folder: &str, epoch: u32) -> Result<String, AllocError> {
    format!(in alloc; "{folder}/{BEFORE}{epoch}{AFTER}")
}

/// Reads the roster of an epoch.
fn read_roster<R: Files + AllocGlobal>(
    rt: &R,
    alloc: Global,
    folder: &str,
    epoch: u32,
) -> Result<HeldRoster, RostersFault> {
    let name = roster_name(alloc, folder, epoch)?;
    let text = match fs::read(rt, name.as_str()) {
        Ok(text) => text,
        Err(error) => return Err(RostersFault::File(name, error)),
    };
    match Roster::read(alloc, text.as_slice()) {
        Ok(roster) => Ok(HeldRoster {
            of: EpochRoster {
                epoch,
                digest: digest_of(text.as_slice()),
            },
            roster,
        }),
        Err(TextFault::NotAText) => Err(RostersFault::NotARoster(name)),
        Err(TextFault::NoMemory) => Err(RostersFault::NoMemory),
    }
}

/// The SHA-256 digest of a text.
pub fn digest_of(text: &[u8]) -> [u8; 32]
    ensures { result ≡ sha256 text.now }
{
    let mut digest = Sha256::new();
    digest.update(text);
    digest.finalize()
}

/// The epochs of rosters.
pub fn epochs_of(alloc: Global, held: &[HeldRoster]) -> Result<Vec<EpochRoster>, AllocError> {
    let mut epochs = Vec::new(alloc);
    for one in held {
        epochs.push(one.of)?;
    }
    Ok(epochs)
}

/// Says on standard error why the rosters of a folder can't be used, and gives the status for it.
pub fn report_rosters(rt: &impl Eprint, folder: &str, fault: &RostersFault) -> u8 {
    match fault {
        RostersFault::Folder(error) => report_file(rt, folder, error),
        RostersFault::File(name, error) => report_file(rt, name.as_str(), error),
        RostersFault::NotARoster(name) => {
            report_name(
                rt,
                name.as_str(),
                "it is not the text of a roster",
                INPUT_FAULT,
            )
        }
        RostersFault::None => report_name(
            rt,
            folder,
            "there is no roster of an epoch",
            INPUT_FAULT,
        ),
        RostersFault::NoMemory => report_no_memory(rt),
    }
}
