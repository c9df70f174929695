//! A party's secret bytes, and the file beside them that says what was begun with them.

ghost use Rattle.host_keys.specs.Lines.{IsWithin};
ghost use Rattle.host_keys.specs.Spent.{IsNextEpoch, IsNextLife, MayBegin, run_after};
ghost use Rattle.host_keys.specs.declared.begun.Begun.{Begun};
ghost use Rattle.party_files.specs.Beginning.{Begins};
ghost use Rattle.std.specs.Prelude.{◌≡◌, ◌≤◌, ◌++◌, ◌∷◌, ◌⊎◌, [], IfOk, OnErr, Some};

use crate::shelf::{FileShelf, sync_folder_of};
use authenticator::MAX_NODE;
use host_keys::{Begun, EpochRoster, LifeFault, Spent, SpentFault};
use node_keys::Masters;
use program_output::{
    COMMAND_LINE, DEVICE, INPUT_FAULT, report_file, report_name, report_no_memory,
};
use shown_names::ShownName;
use std::alloc::{AllocError, Global};
use std::fs::{File, Metadata, OpenFile, OpenOptions, TryLockError};
use std::io::{Read, Write};
use std::os::unix::fs::{FileTypeExt, MetadataExt, OpenOptionsExt, PermissionsExt};
use std::random::RandomSource;
use std::rt::Files;
use std::{fs, io};

/// The bits of a file's mode by which others than its owner may do something with it.
const OTHERS: u32 = 0o077;

/// The mode of a file of secret bytes, and of the file that says what was begun with them.
const SECRET_MODE: u32 = 0o600;

/// How a command line names standard input.
const DASH: &str = "-";

/// How lines name it.
const STANDARD_INPUT: &str = "standard input";

/// Why a file of secret bytes can't be used.
#[derive(Debug, Drop)]
pub enum SecretFault {
    /// It can't be read, or is a folder.
    File(io::Error),
    /// It is a device.
    Device,
    /// Others than its owner may read it, write it or run it.
    Open,
    /// It is a link, or has another name: what was begun would be noted beside one name alone.
    Linked,
    /// It doesn't have 32 bytes.
    Size,
    /// Another process uses it.
    InUse,
    /// There is no place beside it, as it is standard input.
    NoPlace,
    /// The file beside it can't be read or put in its place.
    Spent(io::Error),
    /// The file beside it doesn't say what was begun with a secret.
    NotSpent,
    /// No number is left for a run.
    NoRun,
    /// There is no roster for an epoch after all that were begun.
    NoEpoch,
    /// No number of a gateway's is begun.
    Life(LifeFault),
    /// Memory was refused.
    NoMemory,
}

impl From<AllocError> for SecretFault {
    fn from(_: AllocError) -> SecretFault {
        SecretFault::NoMemory
    }
}

impl From<SpentFault> for SecretFault {
    fn from(fault: SpentFault) -> SecretFault {
        match fault {
            SpentFault::NotSpent => SecretFault::NotSpent,
            SpentFault::NoMemory => SecretFault::NoMemory,
        }
    }
}

/// A party's secret, which no other process uses as long as this is kept, and what was begun with it. No key
/// is made of it but through `begin_run`, `begin_epoch` and `begin_life`, each of which notes on the disk what
/// is begun before it gives of what the keys are made.
#[derive(Drop)]
pub struct HeldSecret {
    /// The file, which is locked.
    _file: File,
    bytes: [u8; 32],
    spent_name: String,
    spent: Spent,
}

impl HeldSecret {
    /// Opens the file of a name, locks it, and reads the file beside it, which needn't be there yet.
    pub fn open<R>(rt: &R, name: &str) -> Result<HeldSecret, SecretFault>
    where
        R: Files<File = File> + AllocGlobal,
    {
        if name == DASH {
            return Err(SecretFault::NoPlace);
        }
        let mut file = open_alone(rt, name)?;
        match file.try_lock() {
            Ok(()) => {}
            Err(TryLockError::WouldBlock) => return Err(SecretFault::InUse),
            Err(TryLockError::Error(error)) => return Err(SecretFault::File(error)),
        }
        let bytes = read_bytes(&mut file)?;
        let spent_name = format!(in rt.alloc(); "{name}.spent")?;
        let spent = read_spent(rt, &spent_name)?;
        Ok(HeldSecret {
            _file: file,
            bytes,
            spent_name,
            spent,
        })
    }

    /// Begins the next run of `serve`.
    pub fn begin_run<R: Files + RandomSource + AllocGlobal>(
        &mut self,
        rt: &R,
    ) -> Result<Masters, SecretFault>
        ensures begun { IfOk result (λ m. (b : Begun) × (run_after self.old.spent ≡ Some b)
            × Begins self.old.bytes self.old.spent b self.new.spent m) }
        ensures bytes { self.new.bytes ≡ self.old.bytes }
    {
        let begun = self.spent.next_run().ok_or(SecretFault::NoRun)?;
        self.begin(rt, begun)
    }

    /// Begins the next epoch of a server with this number, of those for which there is a roster. What was
    /// begun comes with it.
    pub fn begin_epoch<R: Files + RandomSource + AllocGlobal>(
        &mut self,
        rt: &R,
        node: u32,
        rosters: &[EpochRoster],
    ) -> Result<(Begun, Masters), SecretFault>
        requires { IsWithin 1 MAX_NODE node }
        ensures begun { IfOk result (λ p. IsNextEpoch self.old.spent node rosters.now p.0
            × Begins self.old.bytes self.old.spent p.0 self.new.spent p.1) }
        ensures bytes { self.new.bytes ≡ self.old.bytes }
    {
        let begun = self
            .spent
            .next_epoch(node, rosters)
            .ok_or(SecretFault::NoEpoch)?;
        let masters = self.begin(rt, begun)?;
        Ok((begun, masters))
    }

    /// Begins the next of a gateway's numbers, from the first to the last, in the epoch of a roster. What was
    /// begun comes with it.
    pub fn begin_life<R: Files + RandomSource + AllocGlobal>(
        &mut self,
        rt: &R,
        first: u32,
        last: u32,
        roster: &EpochRoster,
    ) -> Result<(Begun, Masters), SecretFault>
        requires first { 1 ≤ first }
        requires last { last ≤ MAX_NODE }
        requires epoch { 1 ≤ roster.now.epoch }
        ensures begun { IfOk result (λ p. IsNextLife self.old.spent first last roster.now p.0
            × Begins self.old.bytes self.old.spent p.0 self.new.spent p.1) }
        ensures bytes { self.new.bytes ≡ self.old.bytes }
    {
        let begun = match self.spent.next_life(first, last, roster) {
            Ok(begun) => begun,
            Err(fault) => return Err(SecretFault::Life(fault)),
        };
        let masters = self.begin(rt, begun)?;
        Ok((begun, masters))
    }

    /// Notes on the disk that something is begun, and gives of what its keys are made. After a fault it is noted here at
    /// most, and not begun again.
    fn begin<R: Files + RandomSource + AllocGlobal>(
        &mut self,
        rt: &R,
        begun: Begun,
    ) -> Result<Masters, SecretFault>
        requires { MayBegin self.old.spent begun }
        ensures begun { IfOk result (Begins self.old.bytes self.old.spent begun self.new.spent) }
        ensures failed { OnErr result ((self.new.spent ≡ self.old.spent)
            ⊎ (self.new.spent ≡ self.old.spent ++ (begun ∷ []))) }
        ensures bytes { self.new.bytes ≡ self.old.bytes }
    {
        self.spent.begin(begun)?;
        let text = self.spent.text(rt.alloc())?;
        FileShelf::new(rt, rt.alloc())
            .put_durably(self.spent_name.as_str(), text.as_bytes(), SECRET_MODE)
            .map_err(SecretFault::Spent)?;
        Ok(Masters::OfEpoch {
            secret: self.bytes,
            epoch: begun.number(),
        })
    }
}

/// Makes a file of 32 random bytes where none is, for its owner alone. Once this is done it is on the disk, and
/// so is its name; after an error it isn't there, unless only its name couldn't reach the disk.
pub fn write_secret<R: Files + RandomSource>(rt: &R, name: &str) -> io::Result<()> {
    let mut bytes = [0; 32];
    rt.fill_bytes(&mut bytes)?;
    let mut file = OpenOptions::new()
        .write(true)
        .create_new(true)
        .mode(SECRET_MODE)
        .open(rt, name)?;
    let written = file.write_all(&bytes).and_then(|()| file.sync_all());
    if written.is_err() {
        let _ = fs::remove_file(rt, name);
        return written;
    }
    sync_folder_of(rt, name)
}

/// The 32 secret bytes in the file of a name, to make public keys of: none may sign anything.
pub fn read_secret<R: Files>(rt: &R, name: &str) -> Result<[u8; 32], SecretFault> {
    let mut file = fs::open(rt, name).map_err(SecretFault::File)?;
    let about = file.metadata().map_err(SecretFault::File)?;
    allow(&about)?;
    read_bytes(&mut file)
}

/// Opens the file of a name that has no other.
fn open_alone<R: Files<File = File>>(rt: &R, name: &str) -> Result<File, SecretFault> {
    let named = fs::symlink_metadata(rt, name).map_err(SecretFault::File)?;
    let file = fs::open(rt, name).map_err(SecretFault::File)?;
    let about = file.metadata().map_err(SecretFault::File)?;
    allow(&about)?;
    if named.file_type().is_symlink() || (!about.is_dir() && about.nlink() > 1) {
        return Err(SecretFault::Linked);
    }
    Ok(file)
}

/// Whether a file may have secret bytes: a folder may, since what is wrong with it is said once it is read.
fn allow(about: &Metadata) -> Result<(), SecretFault> {
    let kind = about.file_type();
    if kind.is_dir() {
        return Ok(());
    }
    if kind.is_char_device() || kind.is_block_device() {
        return Err(SecretFault::Device);
    }
    if about.permissions().mode() & OTHERS != 0 {
        return Err(SecretFault::Open);
    }
    Ok(())
}

/// The 32 bytes that are all that a file has.
fn read_bytes<F: Read>(file: &mut F) -> Result<[u8; 32], SecretFault> {
    let mut bytes = [0; 33];
    let mut filled = 0;
    while filled < bytes.len() {
        match file.read(&mut bytes[filled..]) {
            Ok(0) => break,
            Ok(more) => filled += more,
            Err(error) => return Err(SecretFault::File(error)),
        }
    }
    if filled != 32 {
        return Err(SecretFault::Size);
    }
    Ok(first_32(&bytes))
}

/// The first 32 bytes.
fn first_32(bytes: &[u8; 33]) -> [u8; 32] {
    let mut first = [0; 32];
    first.copy_from_slice(&bytes[..32]);
    first
}

/// What the file of a name says was begun; nothing where it isn't there.
fn read_spent<R: Files + AllocGlobal>(rt: &R, name: &str) -> Result<Spent, SecretFault> {
    match fs::read_to_string(rt, name) {
        Ok(text) => Ok(Spent::read(rt.alloc(), text.as_str())?),
        Err(error) if error.kind() == io::ErrorKind::NotFound => Ok(Spent::new(rt.alloc())),
        Err(error) if error.kind() == io::ErrorKind::InvalidData => Err(SecretFault::NotSpent),
        Err(error) => Err(SecretFault::Spent(error)),
    }
}

/// Says on standard error why a file of secret bytes can't be used, and gives the status for it.
pub fn report_secret(rt: &impl Eprint, name: &str, fault: &SecretFault) -> u8 {
    let name = if name == DASH { STANDARD_INPUT } else { name };
    match fault {
        SecretFault::File(error) => report_file(rt, name, error),
        SecretFault::Device => report_name(rt, name, "it is a device, and no file", COMMAND_LINE),
        SecretFault::Open => report_name(
            rt,
            name,
            "others than its owner may use it",
            COMMAND_LINE,
        ),
        SecretFault::Linked => report_name(
            rt,
            name,
            "it is a link, or has another name",
            COMMAND_LINE,
        ),
        SecretFault::Size => report_name(rt, name, "it doesn't have 32 bytes", INPUT_FAULT),
        SecretFault::InUse => report_name(rt, name, "another process uses it", DEVICE),
        SecretFault::NoPlace => report_name(
            rt,
            name,
            "what is begun can't be noted beside it",
            DEVICE,
        ),
        SecretFault::NoMemory => report_no_memory(rt),
        other => report_spent(rt, name, other),
    }
}

/// The same of what is noted beside it.
fn report_spent(rt: &impl Eprint, name: &str, fault: &SecretFault) -> u8 {
    let shown = ShownName::new(name);
    let words = match fault {
        SecretFault::Spent(error) => {
            let _ = eprintln!(rt; "nfsacc: {shown}.spent: {error}");
            return DEVICE;
        }
        SecretFault::Life(fault) => {
            let _ = eprintln!(rt; "nfsacc: {shown}.spent: {fault}");
            return INPUT_FAULT;
        }
        SecretFault::NoRun => "no number is left for a run",
        SecretFault::NoEpoch => "there is no roster for an epoch after those that were begun",
        _ => "it does not say what was begun with a secret",
    };
    let _ = eprintln!(rt; "nfsacc: {shown}.spent: {words}");
    INPUT_FAULT
}
