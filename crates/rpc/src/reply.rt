//! Replies.

ghost use Rattle.xdr.specs.Writing.{Appends};
ghost use Rattle.rpc.specs.Reply.{numbers_text, reply_words, reply_text};

use std::alloc::AllocError;
use xdr::Writer;

/// Why a credential was refused (RFC 5531, section 9, auth_stat).
#[derive(Clone, Copy, Debug, PartialEq, Eq)]
pub enum AuthStat {
    /// AUTH_BADCRED: the credential's body can't be read.
    BadCredential,
    /// AUTH_REJECTEDCRED: the client must begin anew, as with another flavor.
    RejectedCredential,
    /// AUTH_TOOWEAK: the credential doesn't suffice for the procedure.
    TooWeak,
}

impl AuthStat {
    ghost use Rattle.std.specs.Prelude.{◌≡◌};
    ghost use Rattle.rpc.specs.Reply.{auth_stat_number};

    /// Its number (RFC 5531, section 9).
    pub fn number(self) -> u32
        ensures { result ≡ auth_stat_number self }
    {
        match self {
            AuthStat::BadCredential => 1,
            AuthStat::RejectedCredential => 2,
            AuthStat::TooWeak => 5,
        }
    }
}

/// What stands after a reply's transaction id (RFC 5531, section 9, reply_body). The verifier of an accepted
/// call is AUTH_NONE with no bytes.
#[derive(Clone, Copy, Debug, PartialEq, Eq)]
pub enum ReplyBody {
    /// SUCCESS: the procedure's results follow the reply.
    Success,
    /// PROG_UNAVAIL.
    ProgramUnavailable,
    /// PROG_MISMATCH, with the lowest and the highest version.
    ProgramMismatch { low: u32, high: u32 },
    /// PROC_UNAVAIL.
    ProcedureUnavailable,
    /// GARBAGE_ARGS.
    GarbageArguments,
    /// SYSTEM_ERR.
    SystemError,
    /// RPC_MISMATCH, with the lowest and the highest version.
    RpcMismatch { low: u32, high: u32 },
    /// AUTH_ERROR.
    AuthError(AuthStat),
}

/// A reply (RFC 5531, section 9, rpc_msg), without the results that may follow it.
#[derive(Clone, Copy, Debug, PartialEq, Eq)]
pub struct Reply {
    pub xid: u32,
    pub body: ReplyBody,
}

/// REPLY (RFC 5531, section 9, msg_type).
const REPLY: u32 = 1;

/// MSG_ACCEPTED and MSG_DENIED (section 9, reply_stat).
const ACCEPTED: u32 = 0;

const DENIED: u32 = 1;

/// Why a call was accepted or not (section 9, accept_stat).
const SUCCESS: u32 = 0;

const PROG_UNAVAIL: u32 = 1;

const PROG_MISMATCH: u32 = 2;

const PROC_UNAVAIL: u32 = 3;

const GARBAGE_ARGS: u32 = 4;

const SYSTEM_ERR: u32 = 5;

/// Why a call was denied (section 9, reject_stat).
const RPC_MISMATCH: u32 = 0;

const AUTH_ERROR: u32 = 1;

/// The flavor AUTH_NONE (sections 8.2 and 10.1), and the length of a verifier with no bytes.
const AUTH_NONE: u32 = 0;

const NO_BYTES: u32 = 0;

/// Appends the words of a reply.
fn put_words(reply: &Reply, out: &mut Vec<u8>) -> Result<(), AllocError>
    ensures { Appends (numbers_text (reply_words reply.now)) out.old.items result out.new.items }
{
    let xid = reply.xid;
    match reply.body {
        ReplyBody::Success => out.put_u32s(&[xid, REPLY, ACCEPTED, AUTH_NONE, NO_BYTES, SUCCESS]),
        ReplyBody::ProgramUnavailable => {
            out.put_u32s(&[xid, REPLY, ACCEPTED, AUTH_NONE, NO_BYTES, PROG_UNAVAIL])
        }
        ReplyBody::ProgramMismatch { low, high } => {
            out.put_u32s(&[
                xid,
                REPLY,
                ACCEPTED,
                AUTH_NONE,
                NO_BYTES,
                PROG_MISMATCH,
                low,
                high,
            ])
        }
        ReplyBody::ProcedureUnavailable => {
            out.put_u32s(&[xid, REPLY, ACCEPTED, AUTH_NONE, NO_BYTES, PROC_UNAVAIL])
        }
        ReplyBody::GarbageArguments => {
            out.put_u32s(&[xid, REPLY, ACCEPTED, AUTH_NONE, NO_BYTES, GARBAGE_ARGS])
        }
        ReplyBody::SystemError => {
            out.put_u32s(&[xid, REPLY, ACCEPTED, AUTH_NONE, NO_BYTES, SYSTEM_ERR])
        }
        ReplyBody::RpcMismatch { low, high } => {
            out.put_u32s(&[xid, REPLY, DENIED, RPC_MISMATCH, low, high])
        }
        ReplyBody::AuthError(stat) => {
            out.put_u32s(&[xid, REPLY, DENIED, AUTH_ERROR, stat.number()])
        }
    }
}

/// Appends a reply, without the results that follow SUCCESS. Where memory is refused, the bytes are as they
/// were.
#[tactic(auto, using(crate::proofs::Replies::says_words))]
pub fn write_reply(reply: &Reply, out: &mut Vec<u8>) -> Result<(), AllocError>
    ensures { Appends (reply_text reply.now) out.old.items result out.new.items }
{
    put_words(reply, out)
}

/// Appends the reply to a call that was done, before its results, as `write_reply` appends one with
/// `Success`.
#[tactic(auto, using(crate::proofs::Replies::says_words))]
pub fn write_success(xid: u32, out: &mut Vec<u8>) -> Result<(), AllocError>
    ensures { Appends (reply_text (record { xid = xid; body = ReplyBody.Success }))
        out.old.items result out.new.items }
{
    out.put_u32s(&[xid, REPLY, ACCEPTED, AUTH_NONE, NO_BYTES, SUCCESS])
}
