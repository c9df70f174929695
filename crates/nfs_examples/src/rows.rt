//! Calls on small files, each with its whole result.

ghost use Rattle.std.specs.Prelude.{◌≡◌, [], ◌∷◌, codes, true, false, Ok, Err};
ghost use Rattle.nfs_items.specs.Caller.{nobody};
ghost use Rattle.nfs_items.specs.Handle.{handle_of};
ghost use Rattle.nfs_items.specs.declared.stat.Stat.TheVariants as stats;
ghost use Rattle.nfs_items.specs.declared.attributes.FileType.TheVariants as types;
ghost use Rattle.fs_spec.specs.Names.{dot, dot_dot};
ghost use Rattle.nfs_spec.specs.FileAttributes.{attributes_of};
ghost use Rattle.nfs_spec.specs.Sattr.{given_fields};
ghost use Rattle.nfs_spec.specs.Opening.{epoch, hello, first_file, opening_root, opening_hello};
ghost use Rattle.nfs_spec.specs.Opening.{opening_files};
ghost use Rattle.nfs_spec.specs.Effects.{attributes_at, number_at_name, getattr};
ghost use Rattle.nfs_spec.specs.Procedures.{read, write, read_dir, read_link, stat_fs, set_attributes};
ghost use Rattle.nfs_spec.specs.Procedures.{create, make_dir, symlink, rename, link, remove, remove_dir};
ghost use Rattle.fs_spec.specs.Files.{Regular, names_of};
ghost use Rattle.nfs_examples.specs.Worked.{superuser, size_alone, ignored, files_from, with_cut};
ghost use Rattle.nfs_examples.specs.Worked.{with_unlinked, a, d, with_directory, with_renamed, with_link};
ghost use Rattle.nfs_examples.specs.Worked.{root_between, soon, with_written, empty_file, with_made};
ghost use Rattle.nfs_examples.specs.Worked.{root_emptied, with_next, link_to_t, b, c, with_inner};
ghost use Rattle.nfs_examples.specs.Worked.{with_nested, with_nested_renamed, x, y, with_three, with_two};

/// READ, WRITE without permission, READDIR and STATFS of the files that a server begins with.
pub fn reads_of_the_opening()
    ensures middle { read (opening_files 1) nobody 2 1 3
        ≡ Ok (attributes_of (opening_files 1) 2 opening_hello, codes "ell") }
    ensures end { read (opening_files 1) nobody 2 6 3
        ≡ Ok (attributes_of (opening_files 1) 2 opening_hello, []) }
    ensures past { read (opening_files 1) nobody 2 0xffffffff 3
        ≡ Ok (attributes_of (opening_files 1) 2 opening_hello, []) }
    ensures refused { write (opening_files 1) nobody epoch 2 0 (codes "A") ≡ Err stats.Acces }
    ensures none { read_dir (opening_files 1) nobody 1 0 15 ≡ Ok (record { entries = []; eof = false }) }
    ensures two { read_dir (opening_files 1) nobody 1 0 40 ≡ Ok (record {
      entries = record { fileid = 1; name = dot; cookie = 1 }
          ∷ record { fileid = 1; name = dot_dot; cookie = 2 } ∷ [];
      eof = false;
    }) }
    ensures last { read_dir (opening_files 1) nobody 1 2 24 ≡ Ok (record {
      entries = record { fileid = 2; name = hello; cookie = 3 } ∷ [];
      eof = true;
    }) }
    ensures free { stat_fs (opening_files 1) 1 ≡ Ok (record {
      transfer_size = 8192;
      block_size = 512;
      blocks = 32768;
      free = 32767;
      available = 32767;
    }) }
{}

/// SETATTR of size 0 by user 0, and what is free then; MKDIR, RENAME of a directory, LINK and REMOVE, each
/// with all the files after it.
pub fn changes_on_small_files()
    ensures cut { set_attributes (opening_files 1) superuser epoch 2 (given_fields epoch (size_alone 0))
        ≡ Ok (
          tt,
          files_from 3
              ((2, first_file 0x1a4 (Regular [])) ∷ (1, opening_root) ∷ (2, opening_hello) ∷ []),
        ) }
    ensures free { stat_fs (files_from 3 with_cut) 1
        ≡ Ok (record {
          transfer_size = 8192;
          block_size = 512;
          blocks = 32768;
          free = 32768;
          available = 32768;
        }) }
    ensures make_dir { make_dir (opening_files 1) superuser epoch 1 a
        (given_fields epoch (size_alone ignored))
        ≡ Ok (3, files_from 4 with_directory) }
    ensures rename { rename (files_from 4 with_directory) superuser epoch 1 a 1 d
        ≡ Ok (tt, files_from 4 with_renamed) }
    ensures inside { rename (files_from 4 with_directory) superuser epoch 1 a 3 d ≡ Err stats.Acces }
    ensures found { number_at_name (files_from 4 with_renamed) nobody 1 d ≡ Ok 3 }
    ensures left { number_at_name (files_from 4 with_renamed) nobody 1 a ≡ Err stats.NoEnt }
    ensures link { link (opening_files 1) superuser epoch 2 1 a ≡ Ok (tt, files_from 3 with_link) }
    ensures remove { remove (files_from 3 with_link) superuser epoch 1 a
        ≡ Ok (tt, files_from 3 with_unlinked) }
    ensures names { names_of (files_from 3 with_link) 2 ≡ 2 }
{}

/// WRITE past the end by user 0: zeros stand between, and mtime and ctime are the time of the call. CREATE
/// of a new name, of a regular file's and of a directory's. SYMLINK, and READLINK of it. RMDIR of what MKDIR
/// made, and LOOKUP of its name. REMOVE of a file's last name, GETATTR by its handle, and CREATE of that
/// name, which gets the next number.
pub fn files_made_and_removed()
    ensures write { write (opening_files 1) superuser soon 2 512 (codes "A")
        ≡ Ok (tt, files_from 3 with_written) }
    ensures written { attributes_at (files_from 3 with_written) 2 ≡ Ok (record {
      file_type = types.Regular;
      mode = 0x81a4;
      nlink = 1;
      uid = 0;
      gid = 0;
      size = 513;
      blocksize = 512;
      rdev = 0;
      blocks = 2;
      fsid = 1;
      fileid = 2;
      atime = epoch;
      mtime = soon;
      ctime = soon;
    }) }
    ensures create { create (opening_files 1) superuser epoch 1 a (given_fields epoch (size_alone ignored))
        ≡ Ok (3, files_from 4 (with_made empty_file)) }
    ensures create_over { create (opening_files 1) superuser epoch 1 hello (given_fields epoch (size_alone 0))
        ≡ Ok (2, files_from 3 with_cut) }
    ensures exists { create (files_from 4 with_directory) superuser epoch 1 a
        (given_fields epoch (size_alone ignored))
        ≡ Err stats.Exist }
    ensures symlink { symlink (opening_files 1) superuser epoch 1 a (codes "t")
        ≡ Ok (3, files_from 4 (with_made link_to_t)) }
    ensures target { read_link (files_from 4 (with_made link_to_t)) 3 ≡ Ok (codes "t") }
    ensures remove_dir { remove_dir (files_from 4 with_directory) superuser epoch 1 a
        ≡ Ok (tt, files_from 4 ((1, root_between) ∷ (2, opening_hello) ∷ [])) }
    ensures left { number_at_name (files_from 4 ((1, root_between) ∷ (2, opening_hello) ∷ [])) superuser 1 a
        ≡ Err stats.NoEnt }
    ensures remove { remove (opening_files 1) superuser epoch 1 hello
        ≡ Ok (tt, files_from 3 ((1, root_emptied) ∷ [])) }
    ensures stale { getattr (files_from 3 ((1, root_emptied) ∷ [])) (handle_of 1 2) ≡ Err stats.Stale }
    ensures next { create (files_from 3 ((1, root_emptied) ∷ [])) superuser epoch 1 hello
        (given_fields epoch (size_alone ignored))
        ≡ Ok (3, files_from 4 with_next) }
{}

/// MKDIR of `b` in the directory `a` and CREATE of `c` in that, then RENAME of `a` to `d`: the names below
/// stand for what they did, `a` for nothing, and the root has one subdirectory. No directory is renamed into
/// one below it.
pub fn names_below_a_renamed_directory()
    ensures make_dir { make_dir (files_from 4 with_directory) superuser epoch 3 b
        (given_fields epoch (size_alone ignored))
        ≡ Ok (4, files_from 5 with_inner) }
    ensures create { create (files_from 5 with_inner) superuser epoch 4 c
        (given_fields epoch (size_alone ignored))
        ≡ Ok (5, files_from 6 with_nested) }
    ensures rename { rename (files_from 6 with_nested) superuser epoch 1 a 1 d
        ≡ Ok (tt, files_from 6 with_nested_renamed) }
    ensures new { number_at_name (files_from 6 with_nested_renamed) nobody 1 d ≡ Ok 3 }
    ensures below { number_at_name (files_from 6 with_nested_renamed) nobody 3 b ≡ Ok 4 }
    ensures below_that { number_at_name (files_from 6 with_nested_renamed) nobody 4 c ≡ Ok 5 }
    ensures old { number_at_name (files_from 6 with_nested_renamed) nobody 1 a ≡ Err stats.NoEnt }
    ensures root { attributes_at (files_from 6 with_nested_renamed) 1 ≡ Ok (record {
      file_type = types.Directory;
      mode = 0x41ff;
      nlink = 3;
      uid = 0;
      gid = 0;
      size = 512;
      blocksize = 512;
      rdev = 0;
      blocks = 1;
      fsid = 1;
      fileid = 1;
      atime = epoch;
      mtime = epoch;
      ctime = epoch;
    }) }
    ensures inside { rename (files_from 6 with_nested_renamed) superuser epoch 1 d 4 x ≡ Err stats.Acces }
{}

/// A page of the root with `hello`, `x` and `y`, REMOVE of the last entry that it gave, and the page from
/// that entry's cookie: what is left, each entry once. REMOVE of one of a file's two names leaves it one.
pub fn pages_round_a_removal()
    ensures first { read_dir (files_from 5 with_three) nobody 1 0 64 ≡ Ok (record {
      entries = record { fileid = 1; name = dot; cookie = 1 }
          ∷ record { fileid = 1; name = dot_dot; cookie = 2 }
          ∷ record { fileid = 2; name = hello; cookie = 3 } ∷ [];
      eof = false;
    }) }
    ensures remove { remove (files_from 5 with_three) superuser epoch 1 hello
        ≡ Ok (tt, files_from 5 with_two) }
    ensures rest { read_dir (files_from 5 with_two) nobody 1 3 8192 ≡ Ok (record {
      entries = record { fileid = 3; name = x; cookie = 4 }
          ∷ record { fileid = 4; name = y; cookie = 5 } ∷ [];
      eof = true;
    }) }
    ensures names { names_of (files_from 3 with_unlinked) 2
        ≡ 1 }
{}
