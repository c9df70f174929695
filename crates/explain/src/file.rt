//! What is said of a file and of the program.

use crate::facts::Facts;
use sha2::{Digest, Sha256};
use shown_names::VERSION;

/// What is said of a file.
#[derive(Clone, Copy)]
pub struct File {
    length: u64,
    digest: [u8; 32],
}

impl File {
    /// Of a file with these bytes. Takes no memory.
    pub fn new(bytes: &[u8]) -> File {
        File {
            length: bytes.len() as u64,
            digest: Sha256::digest(bytes),
        }
    }

    /// Adds the file's length and digest, and the program's version.
    pub(crate) fn add(&self, facts: &mut Facts) {
        facts.group("file");
        facts.number("length", self.length);
        facts.hex("sha256", &self.digest);
        facts.end();
        let mut program = facts.draft();
        program.words("nfsacc ");
        program.words(VERSION);
        facts.text("program", program);
    }
}
