//! Calls up to their arguments, and replies up to their results.

ghost use Rattle.std.specs.Prelude.{◌≡◌};
ghost use Rattle.std.specs.Option.{option_map};
ghost use Rattle.xdr.specs.Reading.{Gives};
ghost use Rattle.rpc.specs.Call.{message_at};
ghost use Rattle.rpc.specs.CallValues.{header_of};
ghost use Rattle.peer_calls.specs.Calls.{asked_of, judged, judged_header, results_at, success_item};
ghost use Rattle.peer_calls.specs.Calls.{success_value};

use crate::arguments::expect;
use rpc::{AuthStat, CallBody, Header, RPC_VERSION, Reply, ReplyBody, read_call};
use xdr::{Reader, XdrFault};

/// The program of nodes, of those that RFC 5531 leaves to users (section 13).
pub const NODE_PROGRAM: u32 = 0x2acc_0001;

/// The program of witnesses.
pub const WITNESS_PROGRAM: u32 = 0x2acc_0002;

/// The one version of both.
pub const VERSION: u32 = 1;

/// The flavor of a credential that says nothing (RFC 5531, section 10.1).
const AUTH_NONE: u32 = 0;

/// The message type of a reply (RFC 5531, section 9, msg_type).
const REPLY: u32 = 1;

/// MSG_ACCEPTED (section 9, reply_stat).
const ACCEPTED: u32 = 0;

/// The length of a verifier with no bytes.
const NO_BYTES: u32 = 0;

/// SUCCESS (section 9, accept_stat).
const SUCCEEDED: u32 = 0;

/// What a call asks: its transaction id, its procedure, and its arguments with what follows them.
#[derive(Clone, Copy, Debug)]
pub struct Asked<'a> {
    pub xid: u32,
    pub procedure: u32,
    pub arguments: &'a [u8],
}

/// Why bytes ask nothing.
#[derive(Clone, Copy, Debug, PartialEq, Eq)]
pub enum Unasked {
    /// They are no call, and no reply is owed to them.
    NoCall,
    /// This reply is owed to them.
    Refused(Reply),
}

/// The reply by the first check of a header that fails: the credential's flavor, the program, the version.
fn judge_header<'a>(
    program: u32,
    xid: u32,
    header: &Header<'a>,
    arguments: &'a [u8],
) -> Result<Asked<'a>, Unasked>
    ensures { asked_of result ≡ judged_header program xid (header_of header.now) arguments.now }
{
    if header.credential.flavor != AUTH_NONE {
        let body = ReplyBody::AuthError(AuthStat::RejectedCredential);
        return Err(Unasked::Refused(Reply { xid, body }));
    }
    if header.program != program {
        let body = ReplyBody::ProgramUnavailable;
        return Err(Unasked::Refused(Reply { xid, body }));
    }
    if header.version != VERSION {
        let body = ReplyBody::ProgramMismatch {
            low: VERSION,
            high: VERSION,
        };
        return Err(Unasked::Refused(Reply { xid, body }));
    }
    Ok(Asked {
        xid,
        procedure: header.procedure,
        arguments,
    })
}

/// What the bytes of a record ask of a program. The checks run in the order of RFC 5531, section 9: bytes that are no call
/// get no reply; then the version of RPC, the credential's flavor, which is to be AUTH_NONE, the program and
/// its version. Takes no memory.
pub fn judge_call(program: u32, bytes: &[u8]) -> Result<Asked<'_>, Unasked>
    ensures { asked_of result ≡ judged program (message_at bytes.now) }
{
    let Ok(call) = read_call(bytes) else {
        return Err(Unasked::NoCall);
    };
    match call.body {
        CallBody::OtherVersion => {
            let body = ReplyBody::RpcMismatch {
                low: RPC_VERSION,
                high: RPC_VERSION,
            };
            Err(Unasked::Refused(Reply {
                xid: call.xid,
                body,
            }))
        }
        CallBody::Version2(header, arguments) => judge_header(
            program, call.xid, &header, arguments,
        ),
    }
}

/// The results in the reply to the call with this transaction id: none where the bytes aren't a reply to it that
/// says SUCCESS, with AUTH_NONE and no bytes for its verifier. Takes no memory.
pub fn read_results(xid: u32, bytes: &[u8]) -> Option<&[u8]>
    ensures { option_map (λ r. r.now) result ≡ results_at xid bytes.now }
{
    let mut reader = Reader::new(bytes);
    match read_success(xid, &mut reader) {
        Ok(()) => Some(reader.rest()),
        Err(_) => None,
    }
}

/// The words of a reply before its results: its transaction id, REPLY, MSG_ACCEPTED, AUTH_NONE with no bytes, and
/// SUCCESS.
fn read_success(xid: u32, reader: &mut Reader<'_>) -> Result<(), XdrFault>
    ensures { Gives (success_item xid) (λ _. success_value xid) reader.old result reader.new }
{
    expect(reader, xid)?;
    expect(reader, REPLY)?;
    expect(reader, ACCEPTED)?;
    expect(reader, AUTH_NONE)?;
    expect(reader, NO_BYTES)?;
    expect(reader, SUCCEEDED)
}
