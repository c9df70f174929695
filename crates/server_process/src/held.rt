//! A server, and what shows that its log was put back. Nothing else reaches the server itself.

ghost use Rattle.std.specs.Prelude.{◌≡◌, ◌⊎◌, false, IfSome, IsSome, None, true, ℕ};
ghost use Rattle.hosting.specs.Hosting.{AnswersCall, IsAnsweredUnderLock, OnceFinished};
ghost use Rattle.peer_calls.specs.Calls.{judged};
ghost use Rattle.peer_calls.specs.declared.call.TheConstants.{NODE_PROGRAM};
ghost use Rattle.request_streams.specs.Serving.{IsAnswerIf};
ghost use Rattle.rpc.specs.Call.{message_at};
ghost use Rattle.server_process.specs.Checking.{LogsCheck, counted, is_due};
ghost use Rattle.server_process.specs.PutBack.{IsPutBack, WasSignedBefore};

use crate::checking::Checking;
use crate::put_back::{SignedBefore, signed_before};
use envelopes::Envelope;
use hosting::{Host, Progress, Ready, answer_request};
use nfs_items::Time;
use nodes::HonestServer;
use peer_connections::Phase;
use request_streams::Outcome;
use secure_log::log_entries::Entry;
use std::alloc::{AllocError, Global};

/// The keys that a call may take of a server.
const KEYS_OF_A_CALL: u32 = 2;

/// A server, and what shows that its log was put back to an earlier one, once somebody has shown it; and when it logs
/// its state. It lies under a lock.
#[derive(Drop)]
pub(crate) struct Held {
    server: HonestServer,
    put_back: Option<SignedBefore>,
    checking: Checking,
}

impl Held {
    /// A server of which nothing was shown, and when it is to log its state.
    pub(crate) fn new(server: HonestServer, checking: Checking) -> Held {
        Held {
            server,
            put_back: None,
            checking,
        }
    }

    /// The server.
    pub(crate) fn server(&self) -> &HonestServer {
        &self.server
    }

    /// The entries of its log.
    pub(crate) fn entries(&self) -> &[Entry] {
        self.server.server().node().log().entries()
    }

    /// Why the serving is to end, if it is.
    pub(crate) fn end(&self) -> Option<Phase> {
        let is_used_up = self.server.server().node().left() < KEYS_OF_A_CALL;
        match self.put_back {
            Some(_) => Some(Phase::Stopping),
            None if is_used_up => Some(Phase::KeysUsedUp),
            None => None,
        }
    }

    /// The number of something that the server signed and its log lacks, if it was shown that.
    pub(crate) fn put_back(&self) -> Option<u64>
        ensures { IfSome result IsPutBack }
    {
        match &self.put_back {
            Some(signed) => Some(signed.number()),
            None => None,
        }
    }

    /// After a record by which a new message was received, or none was: logs a CHECK where one is due. Where it is refused
    /// the log is as it was, and the line says why; the next is due after as many messages. Once it was shown that the log
    /// was put back nothing is logged.
    pub(crate) fn check(
        &mut self,
        alloc: Global,
        received: bool,
    ) -> Option<Result<String, AllocError>>
        ensures ended { IsSome self.old.put_back → self.new ≡ self.old }
        ensures unreceived { received ≡ false → self.new ≡ self.old }
        ensures not_due { is_due self.old.checking.every self.old.checking.since ≡ false →
            (self.new.server ≡ self.old.server) × (result ≡ None) }
        ensures logs { received ≡ true → self.old.put_back ≡ None →
            is_due self.old.checking.every self.old.checking.since ≡ true → LogsCheck self.old.server self.new.server }
        ensures counts { received ≡ true → self.old.put_back ≡ None →
            (self.new.checking.since ≡ counted self.old.checking.every self.old.checking.since)
            × (self.new.checking.every ≡ self.old.checking.every) }
        ensures put_back { self.new.put_back ≡ self.old.put_back }
    {
        if self.put_back.is_some() || !received {
            return None;
        }
        if !self.checking.is_due() {
            return None;
        }
        match self.server.checkpoint(alloc) {
            Ok(_) => None,
            Err(refusal) => {
                Some(format!(in alloc; "nfsacc: the state isn't logged: {refusal}\n"))
            }
        }
    }

    /// Answers a record as this server owes it, and leaves the server as that does; the answer to a message that was
    /// received is left to be written. One that shows that the log was
    /// put back is answered, too; once it was shown that, nothing is done, and no answer is given: a key that signed before
    /// the log was put back isn't to sign again. Where memory is refused for looking at what a record shows, nothing is
    /// done, and there is no answer.
    pub(crate) fn answer<'r>(
        &mut self,
        alloc: Global,
        time: Time,
        host: &Host,
        ready: Ready<'r>,
        bytes: &'r [u8],
        out: &mut Vec<u8>,
    ) -> Progress
        ensures answered { OnceFinished (λ outcome text. IsAnswerIf (IsAnsweredUnderLock host.now) bytes.now text outcome)
            result out.new.items }
        ensures ended { IsSome self.old.put_back → (self.new ≡ self.old) × (result ≡ Progress.Done Outcome.NoCall) }
        ensures answers { self.old.put_back ≡ None →
            ((self.new ≡ self.old) × (result ≡ Progress.Done Outcome.NoMemory))
            ⊎ OnceFinished (λ outcome text. AnswersCall host.now self.old.server time
            (judged NODE_PROGRAM (message_at bytes.now)) outcome text self.new.server) result out.new.items }
        ensures shown { (number : ℕ) → WasSignedBefore self.old.server bytes.now number →
            IsSome self.new.put_back ⊎ ((self.new ≡ self.old) × (result ≡ Progress.Done Outcome.NoMemory)) }
    {
        if self.put_back.is_some() {
            return Progress::Done(Outcome::NoCall);
        }
        let Ok(put_back) = signed_before(&self.server, alloc, bytes) else {
            return Progress::Done(Outcome::NoMemory);
        };
        let progress = answer_request(&mut self.server, alloc, time, host, ready, bytes, out);
        self.put_back = put_back;
        progress
    }

    /// Keeps the digest of the signature of an envelope that the server sent, unless its log was put back.
    pub(crate) fn keep_digest(&mut self, envelope: &Envelope)
        ensures { self.new ≡ self.old }
    {
        if self.put_back.is_none() {
            self.server.keep_digest(envelope);
        }
    }
}
