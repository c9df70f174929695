//! Calls and their arguments as bytes.

ghost use Rattle.std.specs.Prelude.{◌++◌};
ghost use Rattle.xdr.specs.Item.{number_spelling, spelling};
ghost use Rattle.xdr.specs.Writing.{Adds, Appends};
ghost use Rattle.peer_calls.specs.Arguments.{base_after_item, base_after_value, greeting_item, greeting_value};
ghost use Rattle.peer_calls.specs.Arguments.{numbers_item, numbers_value};
ghost use Rattle.peer_calls.specs.Calls.{call_text};

use crate::arguments::{BaseAfter, Greeting, Numbers};
use crate::call::VERSION;
use rpc::RPC_VERSION;
use std::alloc::AllocError;
use xdr::Writer;

/// The message type of a call (RFC 5531, section 9, msg_type).
const CALL: u32 = 0;

/// AUTH_NONE (section 10.1), and the length of a body with no bytes.
const AUTH_NONE: u32 = 0;

const NO_BYTES: u32 = 0;

/// Appends a call of version 1 of a program up to its arguments. Its credential and its verifier are AUTH_NONE.
/// Where memory is refused, the bytes are as they were.
pub fn write_call(
    xid: u32,
    program: u32,
    procedure: u32,
    out: &mut Vec<u8>,
) -> Result<(), AllocError>
    ensures { Appends (call_text xid program procedure) out.old.items result out.new.items }
{
    out.put_u32s(&[
        xid,
        CALL,
        RPC_VERSION,
        program,
        VERSION,
        procedure,
        AUTH_NONE,
        NO_BYTES,
        AUTH_NONE,
        NO_BYTES,
    ])
}

/// Appends the arguments of GREET. Where memory is refused, a part of them may stand.
pub(crate) fn add_greeting(greeting: &Greeting, out: &mut Vec<u8>) -> Result<(), AllocError>
    ensures { Adds (spelling greeting_item (greeting_value greeting.now)) out.old.items result out.new.items }
{
    out.put_fixed(&greeting.digest)?;
    out.put_u32(greeting.node)
}

/// Appends two numbers of a log. Where memory is refused, a part of them may stand.
pub(crate) fn add_numbers(numbers: &Numbers, out: &mut Vec<u8>) -> Result<(), AllocError>
    ensures { Adds (spelling numbers_item (numbers_value numbers.now)) out.old.items result out.new.items }
{
    out.put_u64(numbers.first)?;
    out.put_u64(numbers.last)
}

/// Appends the arguments of BASE. Where memory is refused, a part of them may stand.
pub(crate) fn add_base_after(base: &BaseAfter, out: &mut Vec<u8>) -> Result<(), AllocError>
    ensures { Adds (spelling base_after_item (base_after_value base.now)) out.old.items result out.new.items }
{
    out.put_u32(base.node)?;
    out.put_u64(base.after)
}

/// Appends a word and a text. Where memory is refused, a part of them may stand.
pub(crate) fn add_packet(number: u32, text: &[u8], out: &mut Vec<u8>) -> Result<(), AllocError>
    ensures { Adds (number_spelling 4 number ++ text.now) out.old.items result out.new.items }
{
    out.put_u32(number)?;
    out.extend_from_slice(text)
}
