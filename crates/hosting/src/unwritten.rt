//! An answer that is written when the server isn't at hand any more.

ghost use Rattle.std.specs.Prelude.{◌≡◌, ◌++◌, IfOk, None, Some};
ghost use Rattle.xdr.specs.Writing.{Adds};
ghost use Rattle.envelopes.specs.Acknowledgement.{ack_in};
ghost use Rattle.envelopes.specs.Envelope.{envelope_in};
ghost use Rattle.node_logs.specs.Nodes.{sender_of};
ghost use Rattle.nodes.specs.Sides.{IsReplyAt};
ghost use Rattle.peer_calls.specs.Answers.{Taken, delivered_text};
ghost use Rattle.peer_calls.specs.Calls.{success_text};
ghost use Rattle.hosting.specs.Hosting.{IsFinished, IsShown, ack_spelling, reply_spelling, unwritten_results};

use crate::host::short_of_memory;
use authenticator::Number;
use envelopes::{Ack, AckRef, Envelope, EnvelopeRef};
use node_logs::Receipt;
use nodes::ServerNode;
use packets::{write_ack, write_challenge};
use request_streams::Outcome;
use rpc::write_success;
use std::alloc::{AllocError, Global};
use xdr::Writer;

/// The results of a message that was received (section 4.5 of RFC 4506: a word).
const DONE: u32 = 0;

/// How far the answering of a record has come.
#[derive(Drop)]
pub enum Progress {
    /// The answer is written, or there is none.
    Done(Outcome),
    /// A message was received, and the answer is to be written.
    Unwritten(Unwritten),
}

/// What a server shows of a message that it received. The signatures are copies of those of its log, and may be made
/// when the server isn't at hand any more.
#[derive(Drop)]
pub struct Unwritten {
    /// The number of the call.
    pub xid: u32,
    /// The acknowledgement of the message.
    pub ack: Ack,
    /// The envelope of its reply, if one is owed.
    pub reply: Option<Envelope>,
}

impl Unwritten {
    /// Copies of what a server shows of a message by what it gave for it. `AllocError` comes only where a growth was
    /// refused.
    pub(crate) fn of(
        server: &ServerNode,
        alloc: Global,
        xid: u32,
        receipt: &Receipt,
    ) -> Result<Unwritten, AllocError>
        ensures called { IfOk result (λ u. u.xid ≡ xid) }
        ensures shown { IfOk result (λ u. IsShown server.now receipt.now (unwritten_results u)) }
    {
        let Some(shown) = server.ack(receipt.ack.get()) else {
            return Err(AllocError);
        };
        let ack = shown.to_ack(alloc)?;
        let reply = copy_reply(server, alloc, receipt.reply)?;
        Ok(Unwritten { xid, ack, reply })
    }

    /// Writes the answer in place of what `out` holds: SUCCESS and the results. The reply's signature is made for it,
    /// and kept with its digest, which may be handed back to the server. Where memory is refused, SYSTEM_ERR is written,
    /// or nothing where it is refused for that, too.
    pub fn finish(&mut self, alloc: Global, out: &mut Vec<u8>) -> Outcome
        ensures same { self.new ≡ self.old }
        ensures finished { IsFinished self.old result out.new.items }
    {
        self.make_reply(alloc);
        out.clear();
        match self.add(out) {
            Ok(()) => Outcome::Replied,
            Err(_) => short_of_memory(self.xid, out),
        }
    }

    /// Makes the signature of the reply, if there is one. Where memory is refused it is made when it is written.
    fn make_reply(&mut self, alloc: Global)
        ensures { self.new ≡ self.old }
    {
        if let Some(reply) = &mut self.reply {
            let _made = reply.signature.make(alloc);
        }
    }

    /// Appends SUCCESS and the results.
    fn add(&self, out: &mut Vec<u8>) -> Result<(), AllocError>
        ensures { Adds (success_text self.now.xid ++ unwritten_results self.now) out.old.items result out.new.items }
    {
        write_success(self.xid, out)?;
        match &self.reply {
            Some(reply) => add_ack_and_reply(&self.ack.view(), &reply.view(), out),
            None => add_ack(&self.ack.view(), out),
        }
    }
}

/// A copy of the envelope of the SEND with a number, if there is to be one. `AllocError` comes only where a growth was
/// refused.
fn copy_reply(
    server: &ServerNode,
    alloc: Global,
    reply: Option<Number>,
) -> Result<Option<Envelope>, AllocError>
    ensures { IfOk result (λ e. IsReplyAt (sender_of server.now) reply e) }
{
    let Some(number) = reply else {
        return Ok(None);
    };
    let Some(envelope) = server.envelope(number.get()) else {
        return Err(AllocError);
    };
    match envelope.to_envelope(alloc) {
        Ok(copy) => Ok(Some(copy)),
        Err(_) => Err(AllocError),
    }
}

/// Appends an acknowledgement to which no reply belongs.
fn add_ack(ack: &AckRef<'_>, out: &mut Vec<u8>) -> Result<(), AllocError>
    ensures { Adds (delivered_text (Taken (ack_spelling (ack_in ack.now)) None)) out.old.items result out.new.items }
{
    out.put_u32(DONE)?;
    write_ack(ack, out)?;
    out.put_bool(false)
}

/// Appends an acknowledgement and the envelope of the reply.
fn add_ack_and_reply(
    ack: &AckRef<'_>,
    envelope: &EnvelopeRef<'_>,
    out: &mut Vec<u8>,
) -> Result<(), AllocError>
    ensures { Adds (delivered_text (Taken (ack_spelling (ack_in ack.now))
        (reply_spelling (Some (envelope_in envelope.now))))) out.old.items result out.new.items }
{
    out.put_u32(DONE)?;
    write_ack(ack, out)?;
    out.put_bool(true)?;
    write_challenge(envelope, out)
}
