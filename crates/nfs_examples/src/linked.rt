//! A file that is made, linked and removed, call by call.

ghost use Rattle.std.specs.Prelude.{◌≡◌, codes, Ok, Err};
ghost use Rattle.nfs_items.specs.Handle.{handle_of};
ghost use Rattle.nfs_items.specs.declared.stat.Stat.TheVariants as stats;
ghost use Rattle.nfs_items.specs.declared.attributes.FileType.TheVariants as types;
ghost use Rattle.nfs_spec.specs.Sattr.{given_fields};
ghost use Rattle.nfs_spec.specs.Opening.{epoch, opening_files};
ghost use Rattle.nfs_spec.specs.Effects.{number_at_name, getattr};
ghost use Rattle.nfs_spec.specs.Procedures.{create, link, remove, symlink, read_link, make_dir, remove_dir};
ghost use Rattle.nfs_examples.specs.Worked.{superuser, size_alone, ignored, files_from};
ghost use Rattle.nfs_examples.specs.Linked.{e, f, g, s, with_f, with_f_and_g, with_g, with_neither};
ghost use Rattle.nfs_examples.specs.Linked.{with_f_again, with_s, with_e, without_e};

/// CREATE of `f`, LINK of it as `g`, and GETATTR: two links. REMOVE of `f`: one link. REMOVE of `g`, and
/// GETATTR by its handle: STALE. CREATE of `f`: the next number and the next cookie.
pub fn one_file_under_two_names()
    ensures create { create (opening_files 1) superuser epoch 1 f (given_fields epoch (size_alone ignored))
        ≡ Ok (3, files_from 4 with_f) }
    ensures link { link (files_from 4 with_f) superuser epoch 3 1 g ≡ Ok (tt, files_from 4 with_f_and_g) }
    ensures two { getattr (files_from 4 with_f_and_g) (handle_of 1 3) ≡ Ok (record {
      file_type = types.Regular;
      mode = 0x81a4;
      nlink = 2;
      uid = 0;
      gid = 0;
      size = 0;
      blocksize = 512;
      rdev = 0;
      blocks = 0;
      fsid = 1;
      fileid = 3;
      atime = epoch;
      mtime = epoch;
      ctime = epoch;
    }) }
    ensures remove { remove (files_from 4 with_f_and_g) superuser epoch 1 f ≡ Ok (tt, files_from 4 with_g) }
    ensures one { getattr (files_from 4 with_g) (handle_of 1 3) ≡ Ok (record {
      file_type = types.Regular;
      mode = 0x81a4;
      nlink = 1;
      uid = 0;
      gid = 0;
      size = 0;
      blocksize = 512;
      rdev = 0;
      blocks = 0;
      fsid = 1;
      fileid = 3;
      atime = epoch;
      mtime = epoch;
      ctime = epoch;
    }) }
    ensures last { remove (files_from 4 with_g) superuser epoch 1 g ≡ Ok (tt, files_from 4 with_neither) }
    ensures stale { getattr (files_from 4 with_neither) (handle_of 1 3) ≡ Err stats.Stale }
    ensures again { create (files_from 4 with_neither) superuser epoch 1 f
        (given_fields epoch (size_alone ignored))
        ≡ Ok (4, files_from 5 with_f_again) }
{}

/// After those: SYMLINK of `s` to `t`, and READLINK of it; MKDIR and RMDIR of `e`, and LOOKUP of that name.
pub fn a_link_and_a_directory_after()
    ensures symlink { symlink (files_from 5 with_f_again) superuser epoch 1 s (codes "t")
        ≡ Ok (5, files_from 6 with_s) }
    ensures target { read_link (files_from 6 with_s) 5 ≡ Ok (codes "t") }
    ensures make_dir { make_dir (files_from 6 with_s) superuser epoch 1 e
        (given_fields epoch (size_alone ignored))
        ≡ Ok (6, files_from 7 with_e) }
    ensures remove_dir { remove_dir (files_from 7 with_e) superuser epoch 1 e
        ≡ Ok (tt, files_from 7 without_e) }
    ensures left { number_at_name (files_from 7 without_e) superuser 1 e ≡ Err stats.NoEnt }
{}
