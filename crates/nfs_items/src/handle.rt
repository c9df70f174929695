//! File handles.

ghost use Rattle.std.specs.Prelude.{◌≡◌};

use byteorder::{BigEndian, ByteOrder};
use std::alloc::AllocError;
use xdr::{Reader, Writer, XdrFault};

/// A file handle (RFC 1094, section 2.3.3): 32 bytes that only the server reads.
#[derive(Clone, Copy, Debug, PartialEq, Eq)]
pub struct FileHandle(pub [u8; 32]);

impl FileHandle {
    ghost use Rattle.xdr.specs.Reading.{Reads};
    ghost use Rattle.std.specs.Prelude.{◌-◌, vec_len, vec_capacity};
    ghost use Rattle.xdr.specs.Writing.{Writes, Spends};
    ghost use Rattle.nfs_items.specs.Handle.{fhandle, handle_of, number_in};

    /// The file handle of a file number on the node fsid.
    #[tactic(auto, unfolding(crate::specs::Handle::handle_of))]
    pub fn new(fsid: u32, number: u32) -> FileHandle
        ensures { result.0 ≡ handle_of fsid number }
    {
        let mut bytes = [0; 32];
        bytes[..4].copy_from_slice(&fsid.to_be_bytes());
        bytes[4..8].copy_from_slice(&number.to_be_bytes());
        FileHandle(bytes)
    }

    /// The file number, or none where these aren't the bytes that the node fsid gives to a file.
    pub fn number_in(&self, fsid: u32) -> Option<u32>
        ensures { result ≡ number_in fsid self.now.0 }
    {
        FileHandleRef(&self.0).number_in(fsid)
    }

    /// Reads a file handle from the front, 32 bytes of any kind. After an `Err` (`Short`) the reader is as it
    /// was.
    pub fn read(reader: &mut Reader<'_>) -> Result<FileHandle, XdrFault>
        ensures { Reads fhandle (λ h. h.0) reader.old result reader.new }
    {
        Ok(FileHandle(*reader.fixed::<32>()?))
    }

    /// Appends the file handle. Where memory is refused, the bytes stay as they were.
    // Inlined, the words go from registers to the reply (docs/SPEED.md).
    #[inline(always)]
    pub fn write(&self, out: &mut Vec<u8>) -> Result<(), AllocError>
        ensures writes { Writes fhandle self.now.0 out.old.items result out.new.items }
        ensures room { Spends 32 (vec_capacity out.old - vec_len out.old)
            result (vec_capacity out.new - vec_len out.new) }
    {
        out.put_fixed(&self.0)
    }
}

/// A file handle where it lies, as in the bytes of a call.
#[derive(Clone, Copy, Debug)]
pub struct FileHandleRef<'a>(pub &'a [u8; 32]);

impl<'a> FileHandleRef<'a> {
    ghost use Rattle.xdr.specs.Reading.{Reads};
    ghost use Rattle.nfs_items.specs.Handle.{fhandle, number_in};

    /// The file number, or none where these aren't the bytes that the node fsid gives to a file.
    #[tactic(auto, unfolding(crate::specs::Handle::number_in))]
    pub fn number_in(self, fsid: u32) -> Option<u32>
        ensures { result ≡ number_in fsid self.entry.0.now }
    {
        let FileHandleRef(bytes) = self;
        let number = BigEndian::read_u32(&bytes[4..]);
        if *bytes == FileHandle::new(fsid, number).0 {
            Some(number)
        } else {
            None
        }
    }

    /// Reads a file handle from the front, 32 bytes of any kind. After an `Err` (`Short`) the reader is as it
    /// was.
    pub fn read(reader: &mut Reader<'a>) -> Result<FileHandleRef<'a>, XdrFault>
        ensures { Reads fhandle (λ h. h.0.now) reader.old result reader.new }
    {
        Ok(FileHandleRef(reader.fixed::<32>()?))
    }
}
