//! The base of a server, as it is asked for.

ghost use Rattle.std.specs.Prelude.{◌≡◌, ◌++◌, List, ℕ, IfNone, IfOk, IfSome, OnOk, option_map};
ghost use Rattle.node_logs.specs.Bases.{GivesBase};
ghost use Rattle.hosting.specs.BaseGiving.{HasNone, IsBased, Offers};

use node_logs::BaseFault;
use nodes::ServerNode;
use peer_calls::{BaseAfter, write_base};
use std::alloc::{AllocError, Global};

/// Appends the base of this server, if that is asked for and is after the number that was asked for; else that there is
/// none.
pub(crate) fn add_based(
    server: &ServerNode,
    alloc: Global,
    asked: &BaseAfter,
    out: &mut Vec<u8>,
) -> Result<(), AllocError>
    ensures { OnOk result ((results : List ℕ) × IsBased server.now asked.now.node asked.now.after results
        × (out.new.items ≡ out.old.items ++ results)) }
{
    if asked.node != server.number() {
        return write_base(None, out);
    }
    match base_above(server, alloc, asked.after)? {
        Some(base) => write_base(Some(&base), out),
        None => write_base(None, out),
    }
}

/// The base at a number after this one. Of all numbers only that of the last CHECK has one; the others are refused at once.
fn base_above(server: &ServerNode, alloc: Global, after: u64) -> Result<Option<Vec<u8>>, AllocError>
    ensures { IfOk result (λ base. Offers server.now after (option_map (λ b. b.items) base)) }
{
    let last = server.node().log().last_number().get();
    let mut number = after;
    while number < last {
        number += 1;
        if let Some(base) = base_at(server, alloc, number)? {
            return Ok(Some(base));
        }
    }
    Ok(None)
}

/// The base at a number, if one is given there.
fn base_at(server: &ServerNode, alloc: Global, at: u64) -> Result<Option<Vec<u8>>, AllocError>
    ensures given { IfOk result (λ base. IfSome base (λ b. GivesBase server.now at b.items)) }
    ensures none { IfOk result (λ base. IfNone base (HasNone server.now at)) }
{
    match server.base(alloc, at) {
        Ok(base) => Ok(Some(base)),
        Err(BaseFault::OutOfRange) => Ok(None),
        Err(BaseFault::TooLong) => Ok(None),
        Err(BaseFault::NoMemory) => Err(AllocError),
    }
}
