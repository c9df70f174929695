//! Calls with names and bytes of any length, and where the last number or cookie was given.

ghost use Rattle.std.specs.Prelude.{◌≡◌, ◌≢◌, ℕ, List, length, true, Ok, Err};
ghost use Rattle.nfs_items.specs.Caller.{nobody};
ghost use Rattle.nfs_items.specs.declared.stat.Stat.TheVariants as stats;
ghost use Rattle.nfs_items.specs.declared.attributes.FileType.TheVariants as types;
ghost use Rattle.fs_spec.specs.Names.{is_name};
ghost use Rattle.nfs_spec.specs.Sattr.{given_fields};
ghost use Rattle.nfs_spec.specs.Opening.{epoch, hello, opening_files};
ghost use Rattle.nfs_spec.specs.Effects.{attributes_at};
ghost use Rattle.nfs_spec.specs.Procedures.{write, create, rename};
ghost use Rattle.nfs_examples.specs.Worked.{superuser, size_alone, ignored, soon, files_from, a, x, y};
ghost use Rattle.nfs_examples.specs.Worked.{with_three};
ghost use Rattle.nfs_examples.specs.AtLimits.{last, past_last, with_bytes, with_file_named, with_x};
ghost use Rattle.nfs_examples.specs.AtLimits.{with_cookie, with_last_cookie};

/// WRITE of any 8,192 bytes over `hello` by user 0, and its attributes then; of any bytes by another, who
/// may not.
pub fn any_text_is_written()
    ensures whole { (new : List ℕ) → length new ≡ 8192 →
        write (opening_files 1) superuser soon 2 0 new ≡ Ok (tt, files_from 3 (with_bytes new)) }
    ensures size { (new : List ℕ) → length new ≡ 8192 → attributes_at (files_from 3 (with_bytes new)) 2
        ≡ Ok (record {
          file_type = types.Regular;
          mode = 0x81a4;
          nlink = 1;
          uid = 0;
          gid = 0;
          size = 8192;
          blocksize = 512;
          rdev = 0;
          blocks = 16;
          fsid = 1;
          fileid = 2;
          atime = epoch;
          mtime = soon;
          ctime = soon;
        }) }
    ensures refused { (new : List ℕ) → write (opening_files 1) nobody epoch 2 0 new ≡ Err stats.Acces }
{}

/// CREATE of any name that may stand in a directory and isn't there, of 255 bytes too; and of `x` and then
/// `y`.
pub fn any_name_is_made()
    ensures any { (name : List ℕ) → is_name name ≡ true → name ≢ hello →
        create (opening_files 1) superuser epoch 1 name (given_fields epoch (size_alone ignored))
        ≡ Ok (3, files_from 4 (with_file_named name)) }
    ensures x { create (opening_files 1) superuser epoch 1 x (given_fields epoch (size_alone ignored))
        ≡ Ok (3, files_from 4 with_x) }
    ensures y { create (files_from 4 with_x) superuser epoch 1 y (given_fields epoch (size_alone ignored))
        ≡ Ok (4, files_from 5 with_three) }
{}

/// The last cookie that RENAME gives is `last`, and so is the last number that CREATE gives; then NOSPC.
pub fn the_last_number_and_cookie()
    ensures last { rename (files_from 3 (with_cookie last)) superuser epoch 1 hello 1 a
        ≡ Ok (tt, files_from 3 with_last_cookie) }
    ensures full { rename (files_from 3 (with_cookie past_last)) superuser epoch 1 hello 1 a
        ≡ Err stats.NoSpc }
    ensures number { create (files_from past_last (with_cookie 4)) superuser epoch 1 a
        (given_fields epoch (size_alone ignored))
        ≡ Err stats.NoSpc }
    ensures cookie { create (files_from 3 (with_cookie past_last)) superuser epoch 1 a
        (given_fields epoch (size_alone ignored))
        ≡ Err stats.NoSpc }
{}
