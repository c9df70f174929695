//! Answers in bytes.

ghost use Rattle.std.specs.Prelude.{◌≡◌, [], ◌∷◌, Ok, Err, false};
ghost use Rattle.nfs_items.specs.declared.stat.Stat.TheVariants as stats;
ghost use Rattle.nfs_items.specs.declared.attributes.FileType.TheVariants as types;
ghost use Rattle.nfs_types.specs.Calls as calls;
ghost use Rattle.nfs_types.specs.Texts.{answer_text};

/// STATFS of the files that a server begins with, and of those where no block is taken; what READ of `hello`
/// gives from offset 1 and from the end; a page with no entry where some are left; what READLINK gives; and a
/// refusal.
pub fn answers_come_out()
    ensures free { answer_text (calls.Free (Ok (record {
      transfer_size = 8192;
      block_size = 512;
      blocks = 32768;
      free = 32767;
      available = 32767;
    })))
        ≡ 0 ∷ 0 ∷ 0 ∷ 0 ∷ 0 ∷ 0 ∷ 0x20 ∷ 0 ∷ 0 ∷ 0 ∷ 0x02 ∷ 0 ∷ 0 ∷ 0 ∷ 0x80 ∷ 0 ∷
        0 ∷ 0 ∷ 0x7f ∷ 0xff ∷ 0 ∷ 0 ∷ 0x7f ∷ 0xff ∷ [] }
    ensures empty { answer_text (calls.Free (Ok (record {
      transfer_size = 8192;
      block_size = 512;
      blocks = 32768;
      free = 32768;
      available = 32768;
    })))
        ≡ 0 ∷ 0 ∷ 0 ∷ 0 ∷ 0 ∷ 0 ∷ 0x20 ∷ 0 ∷ 0 ∷ 0 ∷ 0x02 ∷ 0 ∷ 0 ∷ 0 ∷ 0x80 ∷ 0 ∷
        0 ∷ 0 ∷ 0x80 ∷ 0 ∷ 0 ∷ 0 ∷ 0x80 ∷ 0 ∷ [] }
    ensures data { answer_text (calls.Bytes (Ok (
      record {
        file_type = types.Regular;
        mode = 0x81a4;
        nlink = 1;
        uid = 0;
        gid = 0;
        size = 6;
        blocksize = 0x200;
        rdev = 0;
        blocks = 1;
        fsid = 1;
        fileid = 2;
        atime = record { seconds = 0; microseconds = 0 };
        mtime = record { seconds = 0; microseconds = 0 };
        ctime = record { seconds = 0; microseconds = 0 };
      },
      0x65 ∷ 0x6c ∷ 0x6c ∷ [],
    )))
        ≡ 0 ∷ 0 ∷ 0 ∷ 0 ∷ 0 ∷ 0 ∷ 0 ∷ 0x01 ∷ 0 ∷ 0 ∷ 0x81 ∷ 0xa4 ∷ 0 ∷ 0 ∷ 0 ∷ 0x01 ∷
        0 ∷ 0 ∷ 0 ∷ 0 ∷ 0 ∷ 0 ∷ 0 ∷ 0 ∷ 0 ∷ 0 ∷ 0 ∷ 0x06 ∷ 0 ∷ 0 ∷ 0x02 ∷ 0 ∷
        0 ∷ 0 ∷ 0 ∷ 0 ∷ 0 ∷ 0 ∷ 0 ∷ 0x01 ∷ 0 ∷ 0 ∷ 0 ∷ 0x01 ∷ 0 ∷ 0 ∷ 0 ∷ 0x02 ∷
        0 ∷ 0 ∷ 0 ∷ 0 ∷ 0 ∷ 0 ∷ 0 ∷ 0 ∷ 0 ∷ 0 ∷ 0 ∷ 0 ∷ 0 ∷ 0 ∷ 0 ∷ 0 ∷
        0 ∷ 0 ∷ 0 ∷ 0 ∷ 0 ∷ 0 ∷ 0 ∷ 0 ∷ 0 ∷ 0 ∷ 0 ∷ 0x03 ∷ 0x65 ∷ 0x6c ∷ 0x6c ∷ 0 ∷ [] }
    ensures end { answer_text (calls.Bytes (Ok (
      record {
        file_type = types.Regular;
        mode = 0x81a4;
        nlink = 1;
        uid = 0;
        gid = 0;
        size = 6;
        blocksize = 0x200;
        rdev = 0;
        blocks = 1;
        fsid = 1;
        fileid = 2;
        atime = record { seconds = 0; microseconds = 0 };
        mtime = record { seconds = 0; microseconds = 0 };
        ctime = record { seconds = 0; microseconds = 0 };
      },
      [],
    )))
        ≡ 0 ∷ 0 ∷ 0 ∷ 0 ∷ 0 ∷ 0 ∷ 0 ∷ 0x01 ∷ 0 ∷ 0 ∷ 0x81 ∷ 0xa4 ∷ 0 ∷ 0 ∷ 0 ∷ 0x01 ∷
        0 ∷ 0 ∷ 0 ∷ 0 ∷ 0 ∷ 0 ∷ 0 ∷ 0 ∷ 0 ∷ 0 ∷ 0 ∷ 0x06 ∷ 0 ∷ 0 ∷ 0x02 ∷ 0 ∷
        0 ∷ 0 ∷ 0 ∷ 0 ∷ 0 ∷ 0 ∷ 0 ∷ 0x01 ∷ 0 ∷ 0 ∷ 0 ∷ 0x01 ∷ 0 ∷ 0 ∷ 0 ∷ 0x02 ∷
        0 ∷ 0 ∷ 0 ∷ 0 ∷ 0 ∷ 0 ∷ 0 ∷ 0 ∷ 0 ∷ 0 ∷ 0 ∷ 0 ∷ 0 ∷ 0 ∷ 0 ∷ 0 ∷
        0 ∷ 0 ∷ 0 ∷ 0 ∷ 0 ∷ 0 ∷ 0 ∷ 0 ∷ 0 ∷ 0 ∷ 0 ∷ 0 ∷ [] }
    ensures page { answer_text (calls.Entries (Ok (record { entries = []; eof = false })))
        ≡ 0 ∷ 0 ∷ 0 ∷ 0 ∷ 0 ∷ 0 ∷ 0 ∷ 0 ∷ 0 ∷ 0 ∷ 0 ∷ 0 ∷ [] }
    ensures target { answer_text (calls.Target (Ok (0x74 ∷ [])))
        ≡ 0 ∷ 0 ∷ 0 ∷ 0 ∷ 0 ∷ 0 ∷ 0 ∷ 1 ∷ 0x74 ∷ 0 ∷ 0 ∷ 0 ∷ [] }
    ensures refused { answer_text (calls.Status (Err stats.NotEmpty)) ≡ 0 ∷ 0 ∷ 0 ∷ 66 ∷ [] }
{}
