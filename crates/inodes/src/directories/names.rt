//! Names in a directory.

ghost use Rattle.std.specs.Prelude.{◌≡◌, ◌==◌, ◌&&◌, not};
ghost use Rattle.std.specs.List.{list_all};
ghost use Rattle.nfs_spec.specs.fs_spec.Names.{is_name};

/// Whether a name may stand in a directory: it is not empty, `.` or `..`, and no byte of it is zero or a
/// slash.
pub fn is_name(name: &[u8]) -> bool
    ensures { result ≡ is_name name.now }
{
    !name.is_empty() && name != b".".as_slice() && name != b"..".as_slice() && has_plain_bytes(name)
}

fn has_plain_bytes(name: &[u8]) -> bool
    ensures { result ≡ list_all (λ b. not (b == 0) && not (b == 47)) name.now }
{
    name.iter().all(|byte| *byte != 0 && *byte != b'/')
}
