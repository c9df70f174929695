//! Calls.

ghost use Rattle.std.specs.Prelude.{◌≡◌, List, ℕ, IfOk, IsOkAnd};
ghost use Rattle.xdr.specs.Reading.{Gives};
ghost use Rattle.rpc.specs.Call.{opaque_auth, call_start, call_header, header_value, Message, Says};
ghost use Rattle.rpc.specs.Call.{message_at};
ghost use Rattle.rpc.specs.CallValues.{auth_value_of, header_of, IsCallOf, IsCallIn, GivesCall};

use thiserror::Error;
use xdr::{Reader, XdrFault};

/// The version of RPC that is read here.
pub const RPC_VERSION: u32 = 2;

/// The message type of a call (RFC 5531, section 9, msg_type).
const CALL: u32 = 0;

/// The most bytes of a credential's or a verifier's body (RFC 5531, section 8.2).
const MAX_AUTH: u32 = 400;

/// A credential or a verifier (RFC 5531, section 8.2): a flavor, and a body of at most 400 bytes.
#[derive(Clone, Copy, Debug)]
pub struct OpaqueAuth<'a> {
    pub flavor: u32,
    pub body: &'a [u8],
}

/// What a call of RPC version 2 says before its arguments (RFC 5531, section 9, call_body).
#[derive(Clone, Copy, Debug)]
pub struct Header<'a> {
    pub program: u32,
    pub version: u32,
    pub procedure: u32,
    pub credential: OpaqueAuth<'a>,
    pub verifier: OpaqueAuth<'a>,
}

/// What stands after a call's transaction id.
#[derive(Clone, Copy, Debug)]
pub enum CallBody<'a> {
    /// Of another RPC version than 2, which says nothing more that is known here.
    OtherVersion,
    /// The header, and the arguments with all that follows them.
    Version2(Header<'a>, &'a [u8]),
}

/// A call (RFC 5531, section 9, rpc_msg).
#[derive(Clone, Copy, Debug)]
pub struct Call<'a> {
    pub xid: u32,
    pub body: CallBody<'a>,
}

/// Why bytes are no call.
#[derive(Clone, Copy, Debug, PartialEq, Eq, Error)]
pub enum CallFault {
    /// The bytes end within the header.
    #[error("the bytes end within the header")]
    Short,
    /// They say something else: another message type, padding that isn't zero, or a body above its bound.
    #[error("not a call")]
    NotACall,
}

/// A credential or a verifier. After an `Err` the reader may stand within it.
// Inlined, what is read stays in registers (docs/SPEED.md).
#[inline(always)]
fn read_auth<'a>(reader: &mut Reader<'a>) -> Result<OpaqueAuth<'a>, XdrFault>
    ensures { Gives opaque_auth auth_value_of reader.old result reader.new }
{
    let flavor = reader.u32()?;
    let body = reader.opaque(MAX_AUTH)?;
    Ok(OpaqueAuth { flavor, body })
}

/// What follows a call's version. After an `Err` the reader may stand within it.
fn read_header<'a>(reader: &mut Reader<'a>) -> Result<Header<'a>, XdrFault>
    ensures { Gives call_header (λ h. header_value (header_of h)) reader.old result reader.new }
{
    let program = reader.u32()?;
    let version = reader.u32()?;
    let procedure = reader.u32()?;
    let credential = read_auth(reader)?;
    let verifier = read_auth(reader)?;
    Ok(Header {
        program,
        version,
        procedure,
        credential,
        verifier,
    })
}

/// The first three words of a call: its transaction id, and its RPC version.
#[tactic(auto, unfolding(xdr::specs::Reading::tested_at))]
fn read_start(reader: &mut Reader<'_>) -> Result<(u32, u32), XdrFault>
    ensures { Gives call_start (λ x. (x.0, (0, x.1))) reader.old result reader.new }
{
    let xid = reader.u32()?;
    if reader.u32()? != CALL {
        return Err(XdrFault::BadEnum);
    }
    let version = reader.u32()?;
    Ok((xid, version))
}

impl CallFault {
    ghost use Rattle.std.specs.Prelude.{◌≡◌};
    ghost use Rattle.rpc.specs.CallValues.{call_fault_number};

    /// Its number: 1 where the bytes end within the header, 2 where they are no call.
    pub fn number(self) -> u32
        ensures { result ≡ call_fault_number self }
    {
        match self {
            CallFault::Short => 1,
            CallFault::NotACall => 2,
        }
    }
}

impl From<XdrFault> for CallFault {
    ghost use Rattle.std.specs.Prelude.{◌≡◌};
    ghost use Rattle.rpc.specs.CallValues.{call_fault};

    ghost from_gives = { λ f e. e ≡ call_fault f };

    fn from(fault: XdrFault) -> CallFault {
        match fault {
            XdrFault::Short => CallFault::Short,
            _ => CallFault::NotACall,
        }
    }
}

/// As `read_call`, with the exact clause alone.
fn call_at(bytes: &[u8]) -> Result<Call<'_>, CallFault>
    ensures { GivesCall result (message_at bytes.now) }
{
    let mut reader = Reader::new(bytes);
    let (xid, version) = read_start(&mut reader)?;
    if version != RPC_VERSION {
        return Ok(Call {
            xid,
            body: CallBody::OtherVersion,
        });
    }
    let header = read_header(&mut reader)?;
    Ok(Call {
        xid,
        body: CallBody::Version2(header, reader.rest()),
    })
}

/// The call at the front of a record, with its arguments and what follows them. The first fault from the left
/// decides: `Short` where the bytes end within the header, `NotACall` where they say something else. It takes
/// no memory.
pub fn read_call(bytes: &[u8]) -> Result<Call<'_>, CallFault>
    // What is read is said.
    ensures found { IfOk result (IsCallIn bytes.now) }
    // What is said is read.
    ensures only { (m : Message) (rest : List ℕ) →
        Says bytes.now m rest → IsOkAnd result (λ c. IsCallOf c m rest) }
    // Which fault it is.
    ensures exact { GivesCall result (message_at bytes.now) }
{
    call_at(bytes)
}
