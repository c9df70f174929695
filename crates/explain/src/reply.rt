//! Replies in words.

use crate::call::add_end;
use crate::facts::Facts;
use crate::fields::{ATTRIBUTES, Field, Form, add_fields, add_items};
use crate::names::{
    ACCEPT_STATS, AUTH_STATS, FLAVORS, MOUNT_STATUSES, NumberName, REJECT_STATS, REPLY_STATS, STATS,
};
use crate::procedures::{EXPORTED, GROUP, Part, Procedure, Stats, procedure_of};
use nfs_items::{Reader, XdrFault};
use rpc::{CallBody, read_call};

/// REPLY (RFC 5531, section 9, msg_type).
const REPLY: u32 = 1;

/// The most bytes of a verifier's body (RFC 5531, section 8.2).
const MAX_AUTH: u32 = 400;

/// The versions of RPC or of a program that are served, at a mismatch (RFC 5531, section 9).
static VERSIONS: [Field; 2] = [
    Field {
        name: "lowest version",
        form: Form::Word,
    },
    Field {
        name: "highest version",
        form: Form::Word,
    },
];

/// Adds what a server's reply to a call says (RFC 5531, section 9): stats by their names, and the results of
/// the call's procedure. What doesn't decode is told as such, with its bytes.
pub fn add_reply(facts: &mut Facts, server: u32, call: &[u8], bytes: &[u8]) {
    let depth = facts.depth();
    let mut reader = Reader::new(bytes);
    let read = add_message(facts, server, &mut reader, called(call));
    add_end(facts, depth, &reader, read);
}

/// The procedure that a call asks for, if it is served.
fn called(call: &[u8]) -> Option<&'static Procedure> {
    match read_call(call).ok()?.body {
        CallBody::Version2(header, _) => {
            procedure_of(header.program, header.version, header.procedure)
        }
        CallBody::OtherVersion => None,
    }
}

/// Adds a number that has a name in a standard, and answers it.
fn add_named(
    facts: &mut Facts,
    reader: &mut Reader<'_>,
    name: &'static str,
    table: &[NumberName],
) -> Result<u32, XdrFault> {
    let number = reader.u32()?;
    facts.named(name, table, number);
    Ok(number)
}

/// Reads a reply and adds it.
fn add_message(
    facts: &mut Facts,
    server: u32,
    reader: &mut Reader<'_>,
    called: Option<&Procedure>,
) -> Result<(), XdrFault> {
    let xid = reader.u32()?;
    facts.number("xid", u64::from(xid));
    if reader.u32()? != REPLY {
        facts.words("reply", "none: the message's type is another");
        return Ok(());
    }
    match add_named(facts, reader, "reply", &REPLY_STATS)? {
        0 => add_accepted(facts, server, reader, called),
        1 => add_denied(facts, server, reader),
        _ => Err(XdrFault::BadEnum),
    }
}

/// Reads the reply to an accepted call.
fn add_accepted(
    facts: &mut Facts,
    server: u32,
    reader: &mut Reader<'_>,
    called: Option<&Procedure>,
) -> Result<(), XdrFault> {
    add_named(facts, reader, "verifier", &FLAVORS)?;
    let body = reader.opaque(MAX_AUTH)?;
    if !body.is_empty() {
        facts.hex("verifier's body", body);
    }
    match (add_named(facts, reader, "status", &ACCEPT_STATS)?, called) {
        (0, Some(procedure)) => add_results(facts, server, reader, procedure),
        (2, _) => add_fields(facts, server, reader, &VERSIONS),
        _ => Ok(()),
    }
}

/// Reads the reply to a denied call.
fn add_denied(facts: &mut Facts, server: u32, reader: &mut Reader<'_>) -> Result<(), XdrFault> {
    if add_named(facts, reader, "status", &REJECT_STATS)? == 0 {
        return add_fields(facts, server, reader, &VERSIONS);
    }
    add_named(facts, reader, "why", &AUTH_STATS)?;
    Ok(())
}

/// Reads the results of a procedure.
fn add_results(
    facts: &mut Facts,
    server: u32,
    reader: &mut Reader<'_>,
    procedure: &Procedure,
) -> Result<(), XdrFault> {
    let stat = match procedure.stats {
        Stats::None => 0,
        Stats::Nfs => add_named(facts, reader, "stat", &STATS)?,
        Stats::Mount => add_named(facts, reader, "stat", &MOUNT_STATUSES)?,
    };
    if stat != 0 {
        return Ok(());
    }
    for part in procedure.results {
        add_part(facts, server, reader, *part)?;
    }
    Ok(())
}

/// Reads a part of the results.
fn add_part(
    facts: &mut Facts,
    server: u32,
    reader: &mut Reader<'_>,
    part: Part,
) -> Result<(), XdrFault> {
    match part {
        Part::Items(fields) => add_fields(facts, server, reader, fields),
        Part::Attributes => {
            facts.group("attributes");
            let read = add_fields(facts, server, reader, &ATTRIBUTES);
            facts.end();
            read
        }
        Part::List(name, fields) => add_items(facts, server, reader, name, fields),
        Part::Exports => add_exports(facts, server, reader),
    }
}

/// Reads what may be mounted, each directory with its groups.
fn add_exports(facts: &mut Facts, server: u32, reader: &mut Reader<'_>) -> Result<(), XdrFault> {
    facts.list("exports");
    // Each takes a byte at least.
    for _ in 0..reader.rest().len() {
        if !reader.bool()? {
            break;
        }
        facts.item();
        add_fields(facts, server, reader, &EXPORTED)?;
        add_items(facts, server, reader, "groups", &GROUP)?;
        facts.end();
    }
    facts.end();
    Ok(())
}
