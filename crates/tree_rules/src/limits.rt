//! What files take in all, and how much they may.

ghost use Rattle.std.specs.Prelude.{◌≡◌, ◌≤◌, ◌<◌, ◌+◌, ◌^◌, ◌⊎◌, ℕ, IfSome, IsTrue, MatchOption, false};
ghost use Rattle.std.specs.Prelude.{length};
ghost use Rattle.std.specs.List.{All};
ghost use Rattle.nfs_laws.specs.fs_spec.Maxima.{max_blocks, max_entries};
ghost use Rattle.nfs_laws.specs.fs_spec.Files.{listing_in};
ghost use Rattle.nfs_laws.specs.fs_spec.Trees.{IsBody};
ghost use Rattle.nfs_laws.specs.fs_spec.Changes.Limits.{block_count, blocks_in, entry_count, has_room};
ghost use Rattle.tree_rules.specs.FileRules.Rules.{AreRising, numbers_of};
ghost use Rattle.inodes.specs.Inodes.{body_in, file_in, files_of};
ghost use Rattle.tree_rules.specs.Listed.{entries_among, files_in};

use inodes::{Body, Inode};

/// The greatest number of files, directories and links of a server.
pub const MAX_FILES: usize = 8_192;

/// The greatest number of directory entries of a server.
pub const MAX_DIRECTORY_ENTRIES: u32 = 16_384;

/// The greatest number of blocks of 512 bytes that the regular files of a server take.
pub const MAX_BLOCKS: u32 = 32_768;

/// What files take in all.
#[derive(Clone, Copy)]
pub struct Usage {
    /// Directory entries.
    pub entries: u32,
    /// Blocks of 512 bytes, of regular files alone.
    pub blocks: u32,
}

/// How many entries a file has; none but a directory has any.
fn entry_count(body: &Body) -> usize
    ensures value { result ≡ length (listing_in (body_in body.now)).entries }
    ensures cookie { (listing_in (body_in body.now)).next < 2 ^ 32 }
{
    match body {
        Body::Directory { listing, .. } => {
            let _next = listing.next();
            listing.len()
        }
        Body::Regular(_) | Body::Symlink(_) => 0,
    }
}

/// What files take with one more. None where that is more than they may.
fn with_file(usage: Usage, body: &Body) -> Option<Usage>
    requires entries { usage.entries ≤ max_entries }
    requires blocks { usage.blocks ≤ max_blocks }
    requires body { IsBody (body_in body.now) }
    ensures cases { MatchOption result
        ((max_entries < usage.entries + length (listing_in (body_in body.now)).entries)
        ⊎ (max_blocks < usage.blocks + blocks_in (body_in body.now)))
        (λ t. (t.entries ≡ usage.entries + length (listing_in (body_in body.now)).entries)
        × (t.blocks ≡ usage.blocks + blocks_in (body_in body.now))
        × (t.entries ≤ max_entries) × (t.blocks ≤ max_blocks)) }
    ensures cookie { (listing_in (body_in body.now)).next < 2 ^ 32 }
{
    let entries = entry_count(body);
    let blocks = body.blocks();
    if entries > (MAX_DIRECTORY_ENTRIES - usage.entries) as usize {
        return None;
    }
    if blocks > MAX_BLOCKS - usage.blocks {
        return None;
    }
    Some(Usage {
        entries: usage.entries + entries as u32,
        blocks: usage.blocks + blocks,
    })
}

/// What files take in all. None where they pass a limit of a server: there are more than 8,192, or they have
/// more than 16,384 entries or 32,768 blocks of 512 bytes. Their numbers rise, and each holds no more than it
/// may by itself.
pub fn total_usage(inodes: &[(u32, Inode)]) -> Option<Usage>
    requires rising { AreRising (numbers_of inodes.now) }
    requires bodies { All (λ e. IsBody (file_in e.1).body) inodes.now }
    ensures room { (fsid next : ℕ) → next < 2 ^ 32 → MatchOption result
        (has_room (files_of fsid next inodes.now) ≡ false)
        (λ t. IsTrue (has_room (files_of fsid next inodes.now))
        × (t.entries ≡ entry_count (files_of fsid next inodes.now))
        × (t.blocks ≡ block_count (files_of fsid next inodes.now))) }
    ensures few { IfSome result (λ t. entries_among (files_in inodes.now) ≤ max_entries) }
{
    if inodes.len() > MAX_FILES {
        return None;
    }
    let mut usage = Usage {
        entries: 0,
        blocks: 0,
    };
    for (_, inode) in inodes {
        usage = with_file(usage, &inode.body)?;
    }
    Some(usage)
}
