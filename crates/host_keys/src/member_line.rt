//! Lines that say a member's key.

ghost use Rattle.std.specs.Prelude.{◌≡◌, ⊤, ◌∷◌, ◌++◌, [], IfOk, IfSome, Some, codes, decimal, string_bytes};
ghost use Rattle.host_keys.specs.Lines.{Takes, TakesOnly, left_in, line_of};
ghost use Rattle.host_keys.specs.Members.{IsKey, IsMemberLine, IsNode, key_words, kind_word, member_text};
ghost use Rattle.host_keys.specs.Members.{member_words, node_in, node_words, version_words};

use crate::values::{digest_of, number_of};
use crate::words::Words;
use authenticator::{Kind, LogVersion, MAX_NODE, Member};
use merkle_keys::MAX_HEIGHT;
use std::alloc::{AllocError, Global};

/// What a line says: a member of the roster of an epoch.
#[derive(Clone, Copy, Debug, PartialEq, Eq)]
pub struct MemberLine {
    /// The member, with a number from 1 to `MAX_NODE` and a height from 1 to `MAX_HEIGHT`.
    pub member: Member,
    /// The epoch, from 1 on.
    pub epoch: u32,
}

impl MemberLine {
    /// What a line says, without its line feed. `None` comes exactly where it isn't the text of a member
    /// line.
    /// Takes no memory.
    pub fn read(line: &str) -> Option<MemberLine>
        ensures is { IfSome result IsMemberLine }
        ensures found { IfSome result (λ l. line.now ≡ member_text l) }
        ensures only { (l : MemberLine) → IsMemberLine l → line.now ≡ member_text l → result ≡ Some l }
    {
        let mut words = Words::new(line);
        read_words(&mut words)
    }

    /// The line, without a line feed: `member 1 server 15 epoch 1` and the key's 64 hexadecimal digits, with
    /// `log 2` after the height where the log is of version 2.
    pub fn text(&self, alloc: Global) -> Result<String, AllocError>
        ensures { IfOk result (λ text. string_bytes text ≡ member_text self.now) }
    {
        let root = hex::encode(alloc, self.member.root.as_slice())?;
        match self.member.log_version {
            LogVersion::One => self.text_of_first(alloc, &root),
            LogVersion::Two => self.text_of_second(alloc, &root),
        }
    }

    /// The line where the log is of version 1, with these digits of the key.
    fn text_of_first(&self, alloc: Global, root: &str) -> Result<String, AllocError>
        ensures { IfOk result (λ text. string_bytes text ≡ line_of (node_words (node_in self.now)
            ++ (codes "epoch" ∷ decimal self.now.epoch ∷ root.now ∷ []))) }
    {
        let Member { node, height, .. } = self.member;
        let kind = word_of(self.member.kind);
        let epoch = self.epoch;
        format!(in alloc; "member {node} {kind} {height} epoch {epoch} {root}")
    }

    /// The line where the log is of version 2, with these digits of the key.
    fn text_of_second(&self, alloc: Global, root: &str) -> Result<String, AllocError>
        ensures { IfOk result (λ text. string_bytes text ≡ line_of (node_words (node_in self.now)
            ++ (codes "log" ∷ codes "2" ∷ codes "epoch" ∷ decimal self.now.epoch ∷ root.now ∷ []))) }
    {
        let Member { node, height, .. } = self.member;
        let kind = word_of(self.member.kind);
        let epoch = self.epoch;
        format!(in alloc; "member {node} {kind} {height} log 2 epoch {epoch} {root}")
    }
}

/// The word for a kind.
fn word_of(kind: Kind) -> &'static str
    ensures { result.now ≡ kind_word kind }
{
    match kind {
        Kind::Server => "server",
        Kind::Client => "client",
    }
}

/// What the words of a line say.
fn read_words(words: &mut Words<'_>) -> Option<MemberLine>
    ensures is { IfSome result IsMemberLine }
    ensures found { IfSome result (λ l. left_in words.old ≡ member_words l) }
    ensures only { (l : MemberLine) → IsMemberLine l → left_in words.old ≡ member_words l → result ≡ Some l }
{
    let (node, kind, height) = read_node(words)?;
    let (log_version, epoch, root) = read_key(words)?;
    if !words.is_at_end() {
        return None;
    }
    Some(MemberLine {
        member: Member {
            node,
            kind,
            root,
            height,
            log_version,
        },
        epoch,
    })
}

/// The first words of a line: the number of a member, its kind and the height of its tree.
fn read_node(words: &mut Words<'_>) -> Option<(u32, Kind, u32)>
    ensures found { Takes IsNode node_words (left_in words.old) result (left_in words.new) }
    ensures only { TakesOnly IsNode node_words (left_in words.old) result (left_in words.new) }
{
    words.literal("member")?;
    let node = words.number(1, MAX_NODE)?;
    let kind = read_kind(words)?;
    let height = words.number(1, MAX_HEIGHT)?;
    Some((node, kind, height))
}

/// The other words: the version of its log, an epoch and the root of its tree there.
fn read_key(words: &mut Words<'_>) -> Option<(LogVersion, u32, [u8; 32])>
    ensures found { Takes IsKey key_words (left_in words.old) result (left_in words.new) }
    ensures only { TakesOnly IsKey key_words (left_in words.old) result (left_in words.new) }
{
    let log_version = read_version(words)?;
    let epoch = words.number(1, u32::MAX)?;
    let root = words.digest()?;
    Some((log_version, epoch, root))
}

/// The word of a kind.
fn read_kind(words: &mut Words<'_>) -> Option<Kind>
    ensures found { Takes (λ k. ⊤) (λ k. kind_word k ∷ []) (left_in words.old) result (left_in words.new) }
    ensures only { TakesOnly (λ k. ⊤) (λ k. kind_word k ∷ []) (left_in words.old) result (left_in words.new) }
{
    let word = words.next()?;
    if word == "server" {
        Some(Kind::Server)
    } else if word == "client" {
        Some(Kind::Client)
    } else {
        None
    }
}

/// The words of a log's version, and the word `epoch` after them.
fn read_version(words: &mut Words<'_>) -> Option<LogVersion>
    ensures found { Takes (λ v. ⊤) version_words (left_in words.old) result (left_in words.new) }
    ensures only { TakesOnly (λ v. ⊤) version_words (left_in words.old) result (left_in words.new) }
{
    let word = words.next()?;
    if word == "epoch" {
        return Some(LogVersion::One);
    }
    if word != "log" {
        return None;
    }
    words.literal("2")?;
    words.literal("epoch")?;
    Some(LogVersion::Two)
}
