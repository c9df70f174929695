//! Files by their names.

use std::alloc::Global;
use std::fs::{File, Metadata, OpenFile, OpenOptions, Permissions};
use std::io::Write;
use std::os::unix::fs::{MetadataExt, PermissionsExt};
use std::random::RandomSource;
use std::rt::Files;
use std::{fs, io};
use witness_calls::Shelf;

/// How many names are tried for a new file.
const TRIES: usize = 16;

/// The device that has nothing to read.
const NOTHING: &str = "/dev/null";

/// The mode of a file that anybody may read.
pub const PUBLIC_MODE: u32 = 0o644;

/// The folder whose names are the system's.
const SYSTEM_FOLDER: &str = "/dev/";

/// The files that the system has.
#[derive(Drop)]
pub struct FileShelf<'a, R> {
    runtime: &'a R,
    alloc: Global,
}

/// A file that wasn't there before, open to be written.
#[derive(Drop)]
struct NewFile<F> {
    name: String,
    file: F,
}

impl<'a, R: Files + RandomSource> FileShelf<'a, R> {
    /// The files that a runtime reaches.
    pub fn new(runtime: &'a R, alloc: Global) -> FileShelf<'a, R> {
        FileShelf { runtime, alloc }
    }

    /// Makes a file in a folder and removes it, which shows that others can be put there.
    pub fn try_folder(&self, folder: &str) -> io::Result<()> {
        let name = format!(in self.alloc; "{folder}/")?;
        let tried = self.new_file_beside(&name)?;
        fs::remove_file(self.runtime, tried.name.as_str())
    }

    /// Writes a new file in the same folder, and then puts it in the place of the one that is named. A link
    /// there gives way to it; the file to which the link leads stays.
    fn replace(&self, name: &str, bytes: &[u8]) -> io::Result<()> {
        let mut new = self.new_file_beside(name)?;
        let put = new
            .file
            .write_all(bytes)
            .and_then(|()| fs::rename(self.runtime, new.name.as_str(), name));
        if put.is_err() {
            let _ = fs::remove_file(self.runtime, new.name.as_str());
        }
        put
    }

    /// Puts a new file of this mode in the place of the one that is named. Once this is done it is on the
    /// disk, whole, and so is its name; after an error the one or the other file stands there.
    pub fn put_durably(&self, name: &str, bytes: &[u8], mode: u32) -> io::Result<()> {
        let mut new = self.new_file_beside(name)?;
        let put = write_durably(&mut new.file, bytes, mode).and_then(|()| fs::rename(
            self.runtime,
            new.name.as_str(),
            name,
        ));
        if put.is_err() {
            let _ = fs::remove_file(self.runtime, new.name.as_str());
            return put;
        }
        sync_folder_of(self.runtime, name)
    }

    /// Puts a new file of this mode where none is. Once this is done it is on the disk, whole, and so is its name.
    /// `AlreadyExists` comes where something is there, which stays as it is. After another error there is no file of that
    /// name, unless only the name couldn't reach the disk.
    pub fn put_new(&self, name: &str, bytes: &[u8], mode: u32) -> io::Result<()> {
        let mut new = self.new_file_beside(name)?;
        let put = write_durably(&mut new.file, bytes, mode).and_then(|()| fs::hard_link(
            self.runtime,
            new.name.as_str(),
            name,
        ));
        let _ = fs::remove_file(self.runtime, new.name.as_str());
        put?;
        sync_folder_of(self.runtime, name)
    }

    /// Makes a file in the folder of another one, with a name that isn't there yet: it opens nothing that is
    /// there, and follows no link. The name has few bytes, however many the other's has.
    fn new_file_beside(&self, name: &str) -> io::Result<NewFile<R::File>> {
        for _ in 0..TRIES {
            let new = self.some_name_beside(name)?;
            match self.make(&new) {
                Ok(file) => return Ok(NewFile { name: new, file }),
                Err(error) if error.kind() == io::ErrorKind::AlreadyExists => {}
                Err(error) => return Err(error),
            }
        }
        Err(io::Error::from(io::ErrorKind::AlreadyExists))
    }

    /// Makes a file where nothing is.
    fn make(&self, name: &str) -> io::Result<R::File> {
        OpenOptions::new()
            .write(true)
            .create_new(true)
            .open(self.runtime, name)
    }

    /// A name in the folder of another one, by chance.
    fn some_name_beside(&self, name: &str) -> io::Result<String> {
        let mut chance = [0; 8];
        self.runtime.fill_bytes(&mut chance)?;
        let chance = u64::from_be_bytes(chance);
        let name = match name.rsplit_once('/') {
            Some((folder, _)) => format!(in self.alloc; "{folder}/.nfsacc-{chance:016x}")?,
            None => format!(in self.alloc; ".nfsacc-{chance:016x}")?,
        };
        Ok(name)
    }

    /// Writes to what is there and is no file. A file that has come to its place meanwhile stays as it is.
    fn write_to(&self, name: &str, bytes: &[u8]) -> io::Result<()> {
        let mut device = OpenOptions::new().write(true).open(self.runtime, name)?;
        if device.metadata()?.is_file() {
            return Err(io::Error::from(io::ErrorKind::AlreadyExists));
        }
        device.write_all(bytes)
    }
}

/// Writes all bytes to a new file and gives it a mode; they are on the disk once this is done.
fn write_durably<F: Write + OpenFile>(file: &mut F, bytes: &[u8], mode: u32) -> io::Result<()> {
    file.write_all(bytes)?;
    file.set_permissions(Permissions::from_mode(mode))?;
    file.sync_all()
}

/// Lets the folder of a file reach the disk, and so the file's name.
pub fn sync_folder_of<R: Files>(rt: &R, name: &str) -> io::Result<()> {
    fs::open(rt, folder_of(name))?.sync_all()
}

/// The folder of a file.
fn folder_of(name: &str) -> &str {
    match name.rsplit_once('/') {
        None => ".",
        Some(("", _)) => "/",
        Some((folder, _)) => folder,
    }
}

/// Whether a name is one of the system's, which stay as they are where they lead to files: as `/dev/stdout`
/// does where standard output goes to one.
fn is_system(name: &str) -> bool {
    name.starts_with(SYSTEM_FOLDER)
}

impl<R: Files + RandomSource> Shelf for FileShelf<'_, R> {
    /// A file takes the place of one that is there, or of a link to one, whole or not at all. What is there
    /// and is no file, as a device, is written to, also where a link leads there.
    fn put(&mut self, name: &str, bytes: &[u8]) -> io::Result<()> {
        match fs::metadata(self.runtime, name) {
            Ok(there) if !there.is_file() => self.write_to(name, bytes),
            Ok(_) if is_system(name) => {
                let words = "it leads to a file, which has a name of its own";
                Err(io::Error::new(io::ErrorKind::InvalidInput, words))
            }
            _ => self.replace(name, bytes),
        }
    }
}

/// The same files, of which each that is put is on the disk, whole, once that is done, and so is its name.
#[derive(Drop)]
pub struct DurableShelf<'a, R> {
    files: FileShelf<'a, R>,
}

impl<'a, R: Files + RandomSource> DurableShelf<'a, R> {
    /// The files that a runtime reaches.
    pub fn new(runtime: &'a R, alloc: Global) -> DurableShelf<'a, R> {
        DurableShelf {
            files: FileShelf::new(runtime, alloc),
        }
    }
}

impl<R: Files + RandomSource> Shelf for DurableShelf<'_, R> {
    fn put(&mut self, name: &str, bytes: &[u8]) -> io::Result<()> {
        self.files.put_durably(name, bytes, PUBLIC_MODE)
    }
}

/// /dev/null in the place of standard input, output and error where they are closed, for as long as it is kept:
/// so no socket becomes descriptor 0 to 2, and no peer gets messages about others.
pub fn stand_ins<R: Files<File = File>>(rt: &R) -> [Option<File>; 3] {
    [nothing(rt), nothing(rt), nothing(rt)]
}

/// A file that has nothing to read and takes no writes, if it can be opened.
fn nothing<R: Files<File = File>>(rt: &R) -> Option<File> {
    fs::open(rt, NOTHING).ok()
}

/// Whether a name leads to a file that is known already.
pub fn leads_to<R: Files>(rt: &R, name: &str, file: &Metadata) -> bool {
    match fs::metadata(rt, name) {
        Ok(there) => there.is_file() && there.dev() == file.dev() && there.ino() == file.ino(),
        Err(_) => false,
    }
}
