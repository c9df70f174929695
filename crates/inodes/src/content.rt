//! The bytes of a regular file.

ghost use Rattle.std.specs.Prelude.{◌≡◌, ◌<◌, ◌≤◌, ◌+◌, ◌^◌, ◌++◌, OnOk, OnErr, length, take, drop};
ghost use Rattle.nfs_spec.specs.Changes.{with_length, with_bytes_at};

use std::alloc::AllocError;

/// Cuts bytes, or fills them up with zeros. Where memory is refused nothing changes.
pub fn resize(bytes: &mut Vec<u8>, size: usize) -> Result<(), AllocError>
    ensures ok { OnOk result (bytes.new.items ≡ with_length size bytes.old.items) }
    ensures err { OnErr result (bytes.new.items ≡ bytes.old.items) }
{
    bytes.resize(size, 0)
}

/// Writes bytes at an offset, with zeros between the end and an offset past it. It touches the new bytes and
/// the gap alone. Where memory is refused nothing changes.
pub fn write_at(bytes: &mut Vec<u8>, offset: usize, new: &[u8]) -> Result<(), AllocError>
    requires { offset + length new.now < 2 ^ 63 }
    ensures ok { OnOk result (bytes.new.items ≡ with_bytes_at offset new.now bytes.old.items) }
    ensures err { OnErr result (bytes.new.items ≡ bytes.old.items) }
{
    let len = bytes.len();
    let missing = (offset + new.len()).saturating_sub(len);
    bytes.resize(len + missing, 0)?;
    overwrite(bytes, offset, new);
    Ok(())
}

/// Puts bytes in the place of as many from an offset on.
fn overwrite(bytes: &mut [u8], offset: usize, new: &[u8])
    requires { offset + length new.now ≤ length bytes.old }
    ensures { bytes.new ≡ take offset bytes.old ++ (new.now ++ drop (offset + length new.now) bytes.old) }
{
    bytes[offset..offset + new.len()].copy_from_slice(new);
}
