//! Files in memory.

use std::alloc::Global;
use std::io;
use witness_calls::Shelf;

/// A file that was put: its name, and its bytes.
#[derive(Drop)]
pub struct File {
    name: String,
    bytes: Vec<u8>,
}

/// The files that were put, the newest last.
#[derive(Drop)]
pub struct Files {
    alloc: Global,
    files: Vec<File>,
}

impl Files {
    /// No file.
    pub fn new(alloc: Global) -> Files {
        Files {
            alloc,
            files: Vec::new(alloc),
        }
    }

    /// The bytes of the file that was put under this name first.
    pub fn get(&self, name: &str) -> Option<&[u8]> {
        for file in &self.files {
            if file.name.as_str() == name {
                return Some(&file.bytes);
            }
        }
        None
    }

    /// How many were put.
    pub fn len(&self) -> usize {
        self.files.len()
    }
}

/// A copy of a name and of bytes.
fn file_of(alloc: Global, name: &str, bytes: &[u8]) -> Option<File> {
    let name = String::from_str(alloc, name).ok()?;
    let bytes = Vec::from_slice(alloc, bytes).ok()?;
    Some(File { name, bytes })
}

impl Shelf for Files {
    fn put(&mut self, name: &str, bytes: &[u8]) -> io::Result<()> {
        let Some(file) = file_of(self.alloc, name, bytes) else {
            return Err(io::Error::from(io::ErrorKind::OutOfMemory));
        };
        match self.files.push(file) {
            Ok(()) => Ok(()),
            Err(_) => Err(io::Error::from(io::ErrorKind::OutOfMemory)),
        }
    }
}
