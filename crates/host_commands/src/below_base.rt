//! What a gateway keeps of a server that a witness never takes.

use assurance::Keeper;
use authenticator::Authenticator;
use packets::write_learn;
use party_files::{FileShelf, PUBLIC_MODE};
use std::alloc::Global;
use std::random::RandomSource;
use std::rt::Files;
use std::{fs, io};

/// Where a gateway's process puts what is to be kept, from a thread of its own.
pub trait KeptFiles {
    /// Puts a file of this name in a folder, which is made unless it is there: where none is, or the same one is. Another
    /// one stays, and that is an error.
    fn put(&self, folder: &str, name: &str, bytes: &[u8]) -> io::Result<()>;
}

/// The files of this machine, for those who may use them from a thread.
#[derive(Drop)]
pub struct StateFiles<'a, R> {
    rt: &'a R,
    alloc: Global,
}

impl<'a, R> StateFiles<'a, R> {
    /// The files that a runtime reaches.
    pub fn new(rt: &'a R, alloc: Global) -> StateFiles<'a, R> {
        StateFiles { rt, alloc }
    }
}

impl<R: Files + RandomSource + AllocGlobal> KeptFiles for StateFiles<'_, R> {
    fn put(&self, folder: &str, name: &str, bytes: &[u8]) -> io::Result<()> {
        match fs::create_dir(self.rt, folder) {
            Err(error) if error.kind() == io::ErrorKind::AlreadyExists => {}
            made => made?,
        }
        match FileShelf::new(self.rt, self.alloc).put_new(name, bytes, PUBLIC_MODE) {
            Err(error) if error.kind() == io::ErrorKind::AlreadyExists => {
                if fs::read(self.rt, name)?.as_slice() == bytes {
                    Ok(())
                } else {
                    Err(error)
                }
            }
            put => put,
        }
    }
}

/// The folder `below-base` in a gateway's state folder: there each of the server's signatures has a file that a witness
/// refuses, since it began at a base above it. The folder is made once there is one.
#[derive(Drop)]
pub(crate) struct BelowBase<'a, S> {
    files: S,
    alloc: Global,
    /// The state folder.
    state: &'a str,
    /// The epoch of the server's keys.
    epoch: u32,
}

impl<'a, S> BelowBase<'a, S> {
    /// That of a state folder, in an epoch. Makes nothing.
    pub(crate) fn new(files: S, alloc: Global, state: &'a str, epoch: u32) -> BelowBase<'a, S> {
        BelowBase {
            files,
            alloc,
            state,
            epoch,
        }
    }
}

impl<S: KeptFiles> Keeper for BelowBase<'_, S> {
    /// Puts the packet of the signature at `below-base/epoch-E-node-N-K`, K being its number. Where that very packet is
    /// there nothing is done; another one stays, and that is an error.
    fn keep(&mut self, number: u64, signed: &Authenticator) -> io::Result<()> {
        let mut packet = Vec::new(self.alloc);
        write_learn(signed, &mut packet)?;
        let (state, epoch, node) = (self.state, self.epoch, signed.node);
        let folder = format!(in self.alloc; "{state}/below-base")?;
        let name = format!(in self.alloc; "{state}/below-base/epoch-{epoch}-node-{node}-{number}")?;
        self.files.put(&folder, &name, &packet)
    }
}
