//! Rosters.

ghost use Rattle.std.specs.Prelude.{◌≡◌, IfOk, MatchResult, ◌↔◌, IsTrue, IsOk, IfNone, Some, None, map, List};
ghost use Rattle.std.specs.List.{flat_map};
ghost use Rattle.xdr.specs.Item.{Value, Fits, spelling};
ghost use Rattle.xdr.specs.Texts.Text.{IsText, GivesText};
ghost use Rattle.xdr.specs.Texts.TextFault.{is_no_text};
ghost use Rattle.xdr.specs.declared.texts.text.TextFault.TheVariants.{NoMemory};
ghost use Rattle.xdr.specs.Writing.{Writes, Adds};
ghost use Rattle.authenticator.specs.Roster.{member_item, member_value, member_values, roster_item};
ghost use Rattle.authenticator.specs.Roster.{roster_text, roster_value, rises_above, IsRoster, EachFits};
ghost use Rattle.authenticator.specs.Roster.{member_fault, first_fault, roster_fault, member_of};
ghost use Rattle.authenticator.specs.Roster.{has_gaps, some_gaps, versioned_item, versioned_value};
ghost use Rattle.authenticator.specs.Roster.{keeps_version};

use crate::listed::ListedRoster;
use crate::member::{LogVersion, MAX_NODE, Member, write_member, write_versioned};
use crate::refusal::RosterFault;
use merkle_keys::MAX_HEIGHT;
use std::alloc::{AllocError, Global};
use std::marker::Model;
use xdr::texts::{TextFault, read_text};
use xdr::{Writer, all_or_nothing};

/// The members of a service: at most `MAX_MEMBERS`, by rising numbers from 1 to `MAX_NODE`, with heights
/// from 1 to `merkle_keys::MAX_HEIGHT`.
#[derive(Drop)]
pub struct Roster {
    members: Vec<Member>,
}

impl Model for Roster {
    ghost use Rattle.std.specs.Prelude.{List};
    ghost use Rattle.authenticator.specs.declared.member.Member.{Member};
    ghost use Rattle.authenticator.specs.Roster.{IsRoster};

    ghost Value = { List Member };

    ghost view = { λ r. r.members.items };

    ghost invariant = { λ r. IsRoster r.members.items };
}

/// The most members of a roster.
pub const MAX_MEMBERS: u32 = 64;

/// The first word of a roster's text in its second form, in which each member has the version of its log.
pub const SECOND_FORM: u32 = 0x8000_0002;

/// Whether each number is above the one before.
pub(crate) fn are_rising(members: &[Member]) -> bool
    ensures { result ≡ rises_above 0 (member_values members.now) }
{
    let mut low = 0;
    for member in members {
        if member.node <= low {
            return false;
        }
        low = member.node;
    }
    true
}

/// Whether some member's log is of version 2.
pub(crate) fn has_gaps(members: &[Member]) -> bool
    ensures { result ≡ some_gaps members.now }
{
    for member in members {
        if member.log_version == LogVersion::Two {
            return true;
        }
    }
    false
}

/// What is wrong with a member after one with the number `low`.
fn member_fault(low: u32, member: &Member) -> Option<RosterFault>
    ensures fault { result ≡ member_fault low member.now }
    ensures fits { IfNone result (Fits member_item (member_value member.now)) }
{
    if member.node == 0 || member.node > MAX_NODE {
        return Some(RosterFault::BadNumber);
    }
    if member.height == 0 || member.height > MAX_HEIGHT {
        return Some(RosterFault::BadHeight);
    }
    if low >= member.node {
        return Some(RosterFault::NotRising);
    }
    None
}

/// The fault of the first member that has one.
fn first_fault(members: &[Member]) -> Option<RosterFault>
    ensures fault { result ≡ first_fault 0 members.now }
    ensures fit { IfNone result (EachFits members.now) }
{
    let mut low = 0;
    for member in members {
        if let Some(fault) = member_fault(low, member) {
            return Some(fault);
        }
        low = member.node;
    }
    None
}

/// Whether two members are the same in every field.
pub(crate) fn is_same_member(own: &Member, other: &Member) -> bool
    ensures { IsTrue result ↔ (own.now ≡ other.now) }
{
    own == other
}

/// Whether two lists have the same members in the same order.
fn same_members(own: &[Member], others: &[Member]) -> bool
    ensures { IsTrue result ↔ (own.now ≡ others.now) }
{
    if own.len() != others.len() {
        return false;
    }
    for place in 0..own.len() {
        if !is_same_member(&own[place], &others[place]) {
            return false;
        }
    }
    true
}

impl Roster {
    /// The roster of these members, in this order. `TooMany` comes where they are more than 64, else the
    /// fault of the first member that has one: `BadNumber` where its number isn't from 1 to 64, else
    /// `BadHeight` where its height isn't from 1 to 16, else `NotRising` where its number isn't above the
    /// one before. Takes no memory.
    pub fn new(members: Vec<Member>) -> Result<Roster, RosterFault>
        ensures members { IfOk result (λ r. r ≡ members.items) }
        ensures exact { IsOk result ↔ IsRoster members.items }
        ensures fault { MatchResult result
            (λ _. roster_fault members.items ≡ None) (λ e. roster_fault members.items ≡ Some e) }
    {
        if members.len() > MAX_MEMBERS as usize {
            return Err(RosterFault::TooMany);
        }
        match first_fault(&members) {
            Some(fault) => Err(fault),
            None => Ok(Roster { members }),
        }
    }

    /// The roster whose text the bytes are, in either form. `NotAText` comes exactly where they are the text
    /// of none, `NoMemory` only where a growth was refused.
    pub fn read(alloc: Global, bytes: &[u8]) -> Result<Roster, TextFault>
        ensures exact { GivesText is_no_text roster_text roster_value bytes.now result }
        ensures found { IfOk result (λ r. IsText roster_text (roster_value r) bytes.now) }
        ensures only { (v : Value roster_text.item) → IsText roster_text v bytes.now →
            MatchResult result (λ r. roster_value r ≡ v) (λ e. e ≡ NoMemory) }
    {
        let listed: ListedRoster = read_text(alloc, bytes)?;
        match listed.into_roster() {
            Some(roster) => Ok(roster),
            None => Err(TextFault::NotAText),
        }
    }

    /// Appends the text, which is in the second form exactly where some log is of version 2. Where memory was
    /// refused the bytes are as they were.
    pub fn write(&self, out: &mut Vec<u8>) -> Result<(), AllocError>
        ensures fits { Fits roster_text.item (roster_value self.now) }
        ensures rising { IsTrue (roster_text.test (roster_value self.now)) }
        ensures text { Writes roster_text.item (roster_value self.now) out.old.items result out.new.items }
    {
        let start = out.len();
        let written = add_members(&self.members, out);
        all_or_nothing(out, start, written)
    }

    /// A copy. Takes memory once.
    pub fn try_clone(&self, alloc: Global) -> Result<Roster, AllocError>
        ensures { IfOk result (λ r. r ≡ self.now) }
    {
        let members = Vec::from_slice(alloc, &self.members)?;
        Ok(Roster { members })
    }

    /// Whether another roster has the same members, in every field. Takes no memory.
    pub fn is_same(&self, other: &Roster) -> bool
        ensures { IsTrue result ↔ (self.now ≡ other.now) }
    {
        same_members(&self.members, &other.members)
    }

    /// Its members are a roster, as its type keeps it: does nothing, and tells a caller's proof.
    pub fn is_roster(&self)
        ensures { IsRoster self.now }
    {
        let _count = self.members.len();
    }

    /// The members, by rising numbers.
    pub fn members(&self) -> &[Member]
        ensures { result.now ≡ self.now }
    {
        &self.members
    }

    /// The member with a node's number. It looks at one member after the other.
    pub fn member(&self, node: u32) -> Option<Member>
        ensures { result ≡ member_of self.now node }
    {
        find_member(&self.members, node)
    }

    /// Whether a node's log is of this version. Of a node that is no member's it is true.
    pub fn keeps_version(&self, node: u32, version: LogVersion) -> bool
        ensures { result ≡ keeps_version self.now node version }
    {
        match self.member(node) {
            Some(member) => member.log_version as u32 == version as u32,
            None => true,
        }
    }
}

/// The first member with this number.
fn find_member(members: &[Member], node: u32) -> Option<Member>
    ensures { result ≡ member_of members.now node }
{
    for member in members {
        if member.node == node {
            return Some(*member);
        }
    }
    None
}

/// Appends the first word, the count where that isn't it, and each member's text.
fn add_members(members: &[Member], out: &mut Vec<u8>) -> Result<(), AllocError>
    requires { IsRoster members.now }
    ensures { Adds (spelling roster_item (roster_value members.now)) out.old.items result out.new.items }
{
    if has_gaps(members) {
        out.put_u32(SECOND_FORM)?;
        out.put_u32(members.len() as u32)?;
        return add_each_versioned(members, out);
    }
    out.put_u32(members.len() as u32)?;
    add_each(members, out)
}

/// Appends each member's text.
fn add_each(members: &[Member], out: &mut Vec<u8>) -> Result<(), AllocError>
    ensures { Adds (flat_map (λ m. spelling member_item (member_value m)) members.now)
        out.old.items result out.new.items }
{
    for member in members {
        write_member(member, out)?;
    }
    Ok(())
}

/// Appends each member's text with the version of its log.
fn add_each_versioned(members: &[Member], out: &mut Vec<u8>) -> Result<(), AllocError>
    ensures { Adds (flat_map (λ m. spelling versioned_item (versioned_value m)) members.now)
        out.old.items result out.new.items }
{
    for member in members {
        write_versioned(member, out)?;
    }
    Ok(())
}
