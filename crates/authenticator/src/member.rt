//! Members of a roster.

ghost use Rattle.std.specs.Prelude.{◌≡◌, IfOk, IsTrue};
ghost use Rattle.xdr.specs.Item.{Fits, word_where, spelling};
ghost use Rattle.xdr.specs.Reading.{Gives, GivesUnless};
ghost use Rattle.xdr.specs.ReadFault.{xdr_fault};
ghost use Rattle.xdr.specs.Writing.{Adds, Writes};
ghost use Rattle.authenticator.specs.Roster.{kind_number, is_node, is_kind, is_height, member_item};
ghost use Rattle.authenticator.specs.Roster.{member_value, is_log, log_number, versioned_item};
ghost use Rattle.authenticator.specs.Roster.{versioned_value};
ghost use Rattle.authenticator.specs.declared.member.LogVersion.TheVariants.{One};

use merkle_keys::MAX_HEIGHT;
use std::alloc::{AllocError, Global};
use xdr::{FromXdr, ReadFault, Reader, Writer, XdrFault, all_or_nothing, put_back_on_err};

/// What a node does in the service.
#[derive(Clone, Copy, Debug, PartialEq, Eq)]
pub enum Kind {
    /// It serves files.
    Server = 1,
    /// It calls a server.
    Client = 2,
}

/// How a node's log numbers its entries.
#[derive(Clone, Copy, Debug, PartialEq, Eq)]
pub enum LogVersion {
    /// From 1 on, each number one more than the one before.
    One = 1,
    /// By rising numbers, of which some may be skipped.
    Two = 2,
}

/// What a roster says of a node. The members of a roster have numbers from 1 to `MAX_NODE` and heights from
/// 1 to `merkle_keys::MAX_HEIGHT`; a member by itself may have any.
#[derive(Clone, Copy, Debug, PartialEq, Eq)]
pub struct Member {
    /// The node's number.
    pub node: u32,
    /// What the node does.
    pub kind: Kind,
    /// The public key: the root of its tree of keys.
    pub root: [u8; 32],
    /// The height of that tree.
    pub height: u32,
    /// The version of its log.
    pub log_version: LogVersion,
}

/// The greatest number of a member.
pub const MAX_NODE: u32 = 64;

impl<'a> FromXdr<'a> for Member {
    ghost item = { versioned_item };

    ghost value = { versioned_value };

    fn read(_alloc: Global, reader: &mut Reader<'a>) -> Result<Member, ReadFault> {
        let start = reader.rest();
        let read = read_versioned(reader);
        Ok(put_back_on_err(reader, start, read)?)
    }
}

/// Reads a member with the version of its log. After an `Err` the reader may stand within it.
fn read_versioned(reader: &mut Reader<'_>) -> Result<Member, XdrFault>
    ensures { Gives versioned_item versioned_value reader.old result reader.new }
{
    let member = read_member(reader)?;
    let log_version = read_log_version(reader)?;
    let root = member.root;
    Ok(Member {
        node: member.node,
        kind: member.kind,
        root,
        height: member.height,
        log_version,
    })
}

/// Reads a member, whose log is of version 1. After an `Err` the reader may stand within it.
pub(crate) fn read_member(reader: &mut Reader<'_>) -> Result<Member, XdrFault>
    ensures gives { Gives member_item member_value reader.old result reader.new }
    ensures log { IfOk result (λ m. m.log_version ≡ One) }
{
    let node = read_node(reader)?;
    let kind = read_kind(reader)?;
    let root = *reader.fixed::<32>()?;
    let height = read_height(reader)?;
    Ok(Member {
        node,
        kind,
        root,
        height,
        log_version: LogVersion::One,
    })
}

#[tactic(auto, unfolding(xdr::specs::Reading::tested_at))]
fn read_log_version(reader: &mut Reader<'_>) -> Result<LogVersion, XdrFault>
    ensures { Gives (word_where is_log) log_number reader.old result reader.new }
{
    match reader.u32()? {
        1 => Ok(LogVersion::One),
        2 => Ok(LogVersion::Two),
        _ => Err(XdrFault::BadEnum),
    }
}

#[tactic(auto, unfolding(xdr::specs::Reading::tested_at))]
fn read_node(reader: &mut Reader<'_>) -> Result<u32, XdrFault>
    ensures { Gives (word_where is_node) (λ n. n) reader.old result reader.new }
{
    let node = reader.u32()?;
    if node == 0 || node > MAX_NODE {
        return Err(XdrFault::BadEnum);
    }
    Ok(node)
}

#[tactic(auto, unfolding(xdr::specs::Reading::tested_at))]
fn read_kind(reader: &mut Reader<'_>) -> Result<Kind, XdrFault>
    ensures { Gives (word_where is_kind) kind_number reader.old result reader.new }
{
    match reader.u32()? {
        1 => Ok(Kind::Server),
        2 => Ok(Kind::Client),
        _ => Err(XdrFault::BadEnum),
    }
}

#[tactic(auto, unfolding(xdr::specs::Reading::tested_at))]
fn read_height(reader: &mut Reader<'_>) -> Result<u32, XdrFault>
    ensures { Gives (word_where is_height) (λ n. n) reader.old result reader.new }
{
    let height = reader.u32()?;
    if height == 0 || height > MAX_HEIGHT {
        return Err(XdrFault::BadEnum);
    }
    Ok(height)
}

/// Appends a member's text, but for its log's version. Where memory was refused the bytes are as they were.
pub(crate) fn write_member(member: &Member, out: &mut Vec<u8>) -> Result<(), AllocError>
    ensures { Writes member_item (member_value member.now) out.old.items result out.new.items }
{
    let start = out.len();
    let written = add_member(member, out);
    all_or_nothing(out, start, written)
}

fn add_member(member: &Member, out: &mut Vec<u8>) -> Result<(), AllocError>
    ensures { Adds (spelling member_item (member_value member.now)) out.old.items result out.new.items }
{
    out.put_u32(member.node)?;
    out.put_u32(member.kind as u32)?;
    out.put_fixed(&member.root)?;
    out.put_u32(member.height)
}

/// Appends a member's text with the version of its log. Where memory was refused the bytes are as they were.
pub(crate) fn write_versioned(member: &Member, out: &mut Vec<u8>) -> Result<(), AllocError>
    ensures { Writes versioned_item (versioned_value member.now) out.old.items result out.new.items }
{
    let start = out.len();
    let written = add_versioned(member, out);
    all_or_nothing(out, start, written)
}

fn add_versioned(member: &Member, out: &mut Vec<u8>) -> Result<(), AllocError>
    ensures { Adds (spelling versioned_item (versioned_value member.now)) out.old.items result out.new.items }
{
    write_member(member, out)?;
    out.put_u32(member.log_version as u32)
}
