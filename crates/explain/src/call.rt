//! Calls in words.

use crate::facts::Facts;
use crate::fields::add_fields;
use crate::names::{FLAVORS, PROGRAMS};
use crate::procedures::{Procedure, procedure_of};
use nfs_items::{Reader, XdrFault, read_credential};
use rpc::{CallBody, Header, OpaqueAuth, read_call};

/// AUTH_SYS (RFC 5531, section 8.2).
const AUTH_SYS: u32 = 1;

/// Adds what a call to a server says: its number, the credential, the verifier, the procedure and what it is
/// asked of. The bytes are a call's (RFC 5531, section 9); what doesn't decode is told as such.
pub fn add_call(facts: &mut Facts, server: u32, bytes: &[u8]) {
    match read_call(bytes) {
        Ok(call) => {
            facts.number("xid", u64::from(call.xid));
            match call.body {
                CallBody::Version2(header, rest) => add_header(facts, server, &header, rest),
                CallBody::OtherVersion => facts.words("call", "of another RPC version than 2"),
            }
        }
        Err(_) => facts.words("call", "none: its header does not decode"),
    }
}

/// Adds what a header and the arguments after it say.
fn add_header(facts: &mut Facts, server: u32, header: &Header<'_>, arguments: &[u8]) {
    add_credential(facts, &header.credential);
    add_verifier(facts, &header.verifier);
    facts.named("program", &PROGRAMS, header.program);
    facts.number("version", u64::from(header.version));
    match procedure_of(header.program, header.version, header.procedure) {
        Some(procedure) => {
            facts.name_and_number("procedure", procedure.name, header.procedure);
            add_arguments(facts, server, procedure, arguments);
        }
        None => facts.number("procedure", u64::from(header.procedure)),
    }
}

/// Adds a credential.
fn add_credential(facts: &mut Facts, credential: &OpaqueAuth<'_>) {
    facts.group("credential");
    facts.named("flavor", &FLAVORS, credential.flavor);
    if credential.flavor == AUTH_SYS {
        add_caller(facts, credential.body);
    } else if !credential.body.is_empty() {
        facts.hex("body", credential.body);
    }
    facts.end();
}

/// Adds a verifier, which no reply depends on.
fn add_verifier(facts: &mut Facts, verifier: &OpaqueAuth<'_>) {
    facts.named("verifier", &FLAVORS, verifier.flavor);
    if !verifier.body.is_empty() {
        facts.hex("verifier's body", verifier.body);
    }
}

/// Adds the caller that AUTH_SYS names (RFC 5531, appendix A), after the stamp that it chose.
fn add_caller(facts: &mut Facts, body: &[u8]) {
    match read_credential(body) {
        Some(who) => {
            if let Ok(stamp) = Reader::new(body).u32() {
                facts.number("stamp", u64::from(stamp));
            }
            if let Some(name) = who.machine_name {
                facts.quoted("machine", name);
            }
            facts.number("uid", u64::from(who.uid));
            facts.number("gid", u64::from(who.gid));
            add_groups(facts, who.gids.as_slice());
        }
        None => facts.hex("body that does not decode", body),
    }
}

/// Adds a caller's further groups.
fn add_groups(facts: &mut Facts, groups: &[u32]) {
    facts.list("gids");
    for group in groups {
        facts.item();
        facts.number("gid", u64::from(*group));
        facts.end();
    }
    facts.end();
}

/// Adds a procedure's arguments.
fn add_arguments(facts: &mut Facts, server: u32, procedure: &Procedure, bytes: &[u8]) {
    let depth = facts.depth();
    facts.group("arguments");
    let mut reader = Reader::new(bytes);
    let read = add_fields(facts, server, &mut reader, procedure.arguments);
    add_end(facts, depth, &reader, read);
}

/// Ends what was begun and not ended while some bytes were read, and adds what wasn't read of them: where an
/// item didn't decode, and else what follows the last.
pub(crate) fn add_end(
    facts: &mut Facts,
    depth: usize,
    reader: &Reader<'_>,
    read: Result<(), XdrFault>,
) {
    facts.end_to(depth);
    let rest = reader.rest();
    match read {
        Ok(()) if rest.is_empty() => {}
        Ok(()) => facts.hex("bytes after that", rest),
        Err(_) if rest.is_empty() => {
            facts.words("what follows", "nothing, though more is wanted");
        }
        Err(_) => facts.hex("bytes that do not decode", rest),
    }
}
