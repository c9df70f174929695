//! Acknowledgements of replies on their way to the server.

use crate::trouble::Trouble;
use peer_calls::{NodeRequest, ResultNumber};
use peer_connections::{Meanwhile, NodeReceiver, NodeSender, Sent};
use std::alloc::{AllocError, Global};
use xdr::texts::read_text;

/// The most bytes of the answer to ACKNOWLEDGE.
const MOST_ACKNOWLEDGED: u32 = 28;

/// The acknowledgement of a reply.
#[derive(Drop)]
struct Receipt {
    text: Vec<u8>,
    /// That it was sent over the connection that there is.
    sent: Option<Sent>,
}

/// Acknowledgements of replies that the server hasn't answered yet, oldest first. Those that were sent over the
/// connection that there is come before the others.
#[derive(Drop)]
pub(crate) struct Receipts {
    receipts: Vec<Receipt>,
}

impl Receipts {
    /// None.
    pub(crate) fn new(alloc: Global) -> Receipts {
        Receipts {
            receipts: Vec::new(alloc),
        }
    }

    /// Whether each was answered.
    pub(crate) fn is_empty(&self) -> bool {
        self.receipts.is_empty()
    }

    /// Adds the text of one more.
    pub(crate) fn add(&mut self, alloc: Global, text: &[u8]) -> Result<(), AllocError> {
        let receipt = Receipt {
            text: text.to_vec(alloc)?,
            sent: None,
        };
        match self.receipts.push(receipt) {
            Ok(()) => Ok(()),
            Err(_) => Err(AllocError),
        }
    }

    /// Takes over others, which weren't sent, behind these. Where memory is refused they stay there.
    pub(crate) fn append(&mut self, others: &mut Receipts) {
        let _ = self.receipts.append(&mut others.receipts);
    }

    /// Takes others back whose connection has ended, to be sent again. Where memory is refused they are let go.
    pub(crate) fn take_back(&mut self, others: Receipts) {
        let mut others = others;
        for receipt in &mut others.receipts {
            receipt.sent = None;
        }
        self.append(&mut others);
    }

    /// Sends those that weren't sent over this connection.
    pub(crate) fn send<M: Meanwhile>(
        &mut self,
        sender: &mut NodeSender,
        meanwhile: &mut M,
    ) -> Result<(), Trouble> {
        for receipt in &mut self.receipts {
            if receipt.sent.is_none() {
                let request = NodeRequest::Acknowledge(&receipt.text);
                receipt.sent = Some(sender.send(&request, meanwhile)?);
            }
        }
        Ok(())
    }

    /// Takes the answers to those that were sent over this connection. Whether the server logged one, had it before or
    /// refuses it, it isn't sent again.
    pub(crate) fn take_answers<M: Meanwhile>(
        &mut self,
        alloc: Global,
        receiver: &mut NodeReceiver,
        meanwhile: &mut M,
    ) -> Result<(), Trouble> {
        for _ in 0..self.receipts.len() {
            let Some(sent) = self.first_sent() else {
                break;
            };
            let answer = receiver.answer(sent, MOST_ACKNOWLEDGED, meanwhile)?;
            let _result = read_text::<ResultNumber>(alloc, answer.results())?;
            if !self.receipts.is_empty() {
                self.receipts.remove(0);
            }
        }
        Ok(())
    }

    /// That the first one was sent, if it was.
    fn first_sent(&self) -> Option<Sent> {
        self.receipts.first()?.sent
    }
}
