//! A server that is shown by its own signature that its log was put back to an earlier one.

ghost use Rattle.std.specs.Prelude.{◌≡◌, IfNone, IfOk, IfSome, ℕ};
ghost use Rattle.authenticator.specs.declared.authenticator.Authenticator.{Authenticator};
ghost use Rattle.server_process.specs.PutBack.{Claims, IsPutBack, WasSignedBefore};

use authenticator::Authenticator;
use nodes::HonestServer;
use peer_calls::{NODE_PROGRAM, NodeRequest, judge_call, read_node_request};
use rpc::ReplyBody;
use std::alloc::{AllocError, Global};
use std::marker::Model;

/// The number of something that a server signed and that its log lacks. Its type keeps that the server was asked with it
/// whether it stands in the log.
#[derive(Drop)]
pub(crate) struct SignedBefore {
    number: u64,
}

impl Model for SignedBefore {
    ghost use Rattle.std.specs.Prelude.{ℕ};
    ghost use Rattle.server_process.specs.PutBack.{IsPutBack};

    ghost Value = { ℕ };

    ghost view = { λ s. s.number };

    ghost invariant = { λ s. IsPutBack s.number };
}

impl SignedBefore {
    /// The number.
    pub(crate) fn number(&self) -> u64
        ensures number { result ≡ self.now }
        ensures put_back { IsPutBack result }
    {
        self.number
    }
}

/// What a call shows a server that it signed, and that its log lacks: the call is STANDS with an authenticator of this
/// server, signed by its key in the roster, whose number and hash are no pair of the log. None exactly where it shows
/// nothing of the kind. `AllocError` comes only where a growth was refused.
pub(crate) fn signed_before(
    server: &HonestServer,
    alloc: Global,
    bytes: &[u8],
) -> Result<Option<SignedBefore>, AllocError>
    ensures shown { IfOk result (λ o. IfSome o (λ number. WasSignedBefore server.now bytes.now number)) }
    ensures none { IfOk result (λ o. IfNone o ((number : ℕ) → ¬ WasSignedBefore server.now bytes.now number)) }
{
    match claimed(alloc, bytes)? {
        Some(authenticator) => Ok(lost(server, bytes, &authenticator)),
        None => Ok(None),
    }
}

/// What the authenticator of a call that is STANDS shows a server that it signed, and that its log lacks.
#[tactic(auto, using(crate::proofs::OfPutBack::signed_before))]
fn lost(server: &HonestServer, bytes: &[u8], authenticator: &Authenticator) -> Option<SignedBefore>
    requires { Claims bytes.now authenticator.now }
    ensures shown { IfSome result (λ number. WasSignedBefore server.now bytes.now number) }
    ensures none { IfNone result ((number : ℕ) → ¬ WasSignedBefore server.now bytes.now number) }
{
    let number = server.server().lost(authenticator)?;
    Some(SignedBefore {
        number: number.get(),
    })
}

/// The authenticator of a call that is STANDS: None exactly where it is none. Its signature isn't looked at.
/// `AllocError` comes only where a growth was refused.
fn claimed(alloc: Global, bytes: &[u8]) -> Result<Option<Authenticator>, AllocError>
    ensures claims { IfOk result (λ o. IfSome o (Claims bytes.now)) }
    ensures none { IfOk result (λ o. IfNone o ((a : Authenticator) → ¬ Claims bytes.now a)) }
{
    let Ok(asked) = judge_call(NODE_PROGRAM, bytes) else {
        return Ok(None);
    };
    match read_node_request(alloc, asked.procedure, asked.arguments) {
        Ok(NodeRequest::Stands(authenticator)) => Ok(Some(authenticator)),
        Err(ReplyBody::SystemError) => Err(AllocError),
        Ok(_) | Err(_) => Ok(None),
    }
}
