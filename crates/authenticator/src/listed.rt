//! Rosters as texts list them, in either form.

ghost use Rattle.std.specs.Prelude.{◌≡◌, IfNone, IfOk, IfSome, IsTrue, false, length};
ghost use Rattle.xdr.specs.Item.{Fits, repeated};
ghost use Rattle.xdr.specs.Reading.{GivesUnless};
ghost use Rattle.xdr.specs.ReadFault.{xdr_fault};
ghost use Rattle.authenticator.specs.Roster.{is_roster_value, listed_value, member_item, member_values};
ghost use Rattle.authenticator.specs.Roster.{roster_item, roster_text, roster_value, some_gaps};

use crate::member::{Member, read_member};
use crate::roster::{MAX_MEMBERS, Roster, SECOND_FORM, are_rising, has_gaps};
use std::alloc::Global;
use std::marker::Model;
use xdr::texts::FromText;
use xdr::{FromXdr, ReadFault, Reader, XdrFault, put_back_on_err, read_array};

/// The members that a roster's text lists, and the form of that text. Their order isn't tested, nor whether
/// the second form lists a log of version 2.
#[derive(Drop)]
pub struct ListedRoster {
    second: bool,
    members: Vec<Member>,
}

impl Model for ListedRoster {
    ghost use Rattle.std.specs.Prelude.{◌≡◌, ◌≤◌, false, length};
    ghost use Rattle.authenticator.specs.declared.roster.TheConstants.{MAX_MEMBERS};
    ghost use Rattle.authenticator.specs.Roster.{ListedParts, some_gaps};

    ghost Value = { ListedParts };

    ghost view = { λ l. record { second = l.second; members = l.members.items } };

    ghost invariant = { λ l. (length l.members.items ≤ MAX_MEMBERS) ×
        (l.second ≡ false → some_gaps l.members.items ≡ false) };
}

impl ListedRoster {
    /// The roster of these members. `None` comes exactly where they and the form are no roster's text: where
    /// a number isn't above the one before, or the second form lists no log of version 2. Takes no memory.
    pub fn into_roster(self) -> Option<Roster>
        ensures some { IfSome result (λ r. roster_value r ≡ listed_value self) }
        ensures none { IfNone result
            (¬ (Fits roster_item (listed_value self) × IsTrue (is_roster_value (listed_value self)))) }
    {
        if self.second && !has_gaps(&self.members) {
            return None;
        }
        let ListedRoster { second: _, members } = self;
        match Roster::new(members) {
            Ok(roster) => Some(roster),
            Err(_) => None,
        }
    }
}

impl<'a> FromXdr<'a> for ListedRoster {
    ghost item = { roster_item };

    ghost value = { listed_value };

    fn read(alloc: Global, reader: &mut Reader<'a>) -> Result<ListedRoster, ReadFault> {
        let start = reader.rest();
        let read = read_listed(alloc, reader);
        put_back_on_err(reader, start, read)
    }
}

/// Reads a roster. After an `Err` the reader may stand within it.
fn read_listed<'a>(alloc: Global, reader: &mut Reader<'a>) -> Result<ListedRoster, ReadFault>
    ensures { GivesUnless xdr_fault roster_item listed_value reader.old result reader.new }
{
    let word = reader.u32()?;
    if word == SECOND_FORM {
        let members = read_array(alloc, reader, MAX_MEMBERS)?;
        return Ok(ListedRoster {
            second: true,
            members,
        });
    }
    if word > MAX_MEMBERS {
        return Err(ReadFault::Fault(XdrFault::BadEnum));
    }
    let members = read_members(alloc, reader, word)?;
    Ok(ListedRoster {
        second: false,
        members,
    })
}

/// Reads so many members, whose logs are of version 1. After an `Err` the reader may stand within them.
fn read_members<'a>(
    alloc: Global,
    reader: &mut Reader<'a>,
    count: u32,
) -> Result<Vec<Member>, ReadFault>
    ensures gives { GivesUnless xdr_fault (repeated count member_item) (λ v. member_values v.items)
        reader.old result reader.new }
    ensures count { IfOk result (λ v. length v.items ≡ count) }
    ensures logs { IfOk result (λ v. some_gaps v.items ≡ false) }
{
    let mut members = Vec::new(alloc);
    for _ in 0..count {
        members.push(read_member(reader)?)?;
    }
    Ok(members)
}

impl<'a> FromText<'a> for ListedRoster {
    ghost text = { roster_text };

    ghost value = { listed_value };

    fn read_front(alloc: Global, reader: &mut Reader<'a>) -> Result<ListedRoster, ReadFault> {
        ListedRoster::read(alloc, reader)
    }

    fn has_text(&self) -> bool {
        are_rising(&self.members) && (!self.second || has_gaps(&self.members))
    }
}
