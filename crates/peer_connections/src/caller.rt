//! Calls to a node or a witness, one at a time over one connection.

use frames::{FrameReader, UpTo, write_frame};
use peer_calls::{
    NodeRequest, WitnessRequest, read_results, write_node_request, write_witness_request,
};
use rpc::records::Counting;
use std::alloc::{AllocError, Global};
use std::io::{self, BufReader};
use std::net::{Net, TcpListener, TcpStream};
use std::time::Duration;

/// The bytes that are read of a stream at once.
const READ_AHEAD: usize = 65536;

/// The most bytes of a call: of one that hands a segment to a witness.
const MAX_CALL: usize = 119_833_232;

/// How many seconds a peer may be silent that owes an answer.
const PATIENCE: u64 = 30;

/// Why a call brought no answer.
#[derive(Clone, Copy, Debug)]
pub enum CallFault {
    /// A growth was refused.
    NoMemory,
    /// The connection ended, failed, or brought no record within its bound in time.
    Broken,
    /// What came isn't the reply to the call that says SUCCESS.
    NoSuccess,
}

impl From<AllocError> for CallFault {
    ghost use Rattle.std.specs.Prelude.{◌≡◌};
    ghost use Rattle.peer_connections.specs.declared.caller.CallFault.TheVariants.{NoMemory};

    ghost from_gives = { λ _ e. e ≡ NoMemory };

    fn from(_error: AllocError) -> CallFault {
        CallFault::NoMemory
    }
}

/// A reply that says SUCCESS.
#[derive(Drop)]
pub struct Answer {
    xid: u32,
    record: Vec<u8>,
}

impl Answer {
    /// A record as the answer to the call with this transaction id. `NoSuccess` where it isn't that.
    pub(crate) fn to_call(xid: u32, record: Vec<u8>) -> Result<Answer, CallFault> {
        if read_results(xid, &record).is_none() {
            return Err(CallFault::NoSuccess);
        }
        Ok(Answer { xid, record })
    }

    /// Its results.
    pub fn results(&self) -> &[u8] {
        read_results(self.xid, &self.record).unwrap_or(&[])
    }
}

/// A connection to a node or a witness, over which calls are made one at a time.
#[derive(Drop)]
pub struct PeerCaller {
    alloc: Global,
    reader: FrameReader<BufReader<TcpStream>>,
    writer: Counting<TcpStream>,
    xid: u32,
    out: Vec<u8>,
}

impl PeerCaller {
    /// Connects to an address, a name or a number with its port. Reads and writes have time-outs.
    pub fn connect<R>(rt: &R, alloc: Global, address: &str) -> io::Result<PeerCaller>
    where
        R: Net<Listener = TcpListener, Stream = TcpStream>,
    {
        let stream = TcpStream::connect(rt, address)?;
        // Where it can't be set, answers come later, and nothing else changes.
        let _ = stream.set_nodelay(true);
        let patience = Some(Duration::from_secs(PATIENCE));
        stream.set_read_timeout(patience)?;
        stream.set_write_timeout(patience)?;
        let input = BufReader::with_capacity(alloc, READ_AHEAD, stream.try_clone()?)?;
        Ok(PeerCaller {
            alloc,
            reader: FrameReader::new(Counting::new(input)),
            writer: Counting::new(stream),
            xid: 0,
            out: Vec::new(alloc),
        })
    }

    /// Asks a node, whose answer has at most so many bytes.
    pub fn ask_node(&mut self, request: &NodeRequest<'_>, most: u32) -> Result<Answer, CallFault> {
        let xid = self.next_xid();
        self.out.clear();
        write_node_request(xid, request, &mut self.out)?;
        self.exchange(xid, most)
    }

    /// Asks a witness, whose answer has at most so many bytes.
    pub fn ask_witness(
        &mut self,
        request: &WitnessRequest<'_>,
        most: u32,
    ) -> Result<Answer, CallFault> {
        let xid = self.next_xid();
        self.out.clear();
        write_witness_request(xid, request, &mut self.out)?;
        self.exchange(xid, most)
    }

    /// The transaction id of the next call.
    fn next_xid(&mut self) -> u32 {
        self.xid = self.xid.wrapping_add(1);
        self.xid
    }

    /// Sends the call that was written, and reads its reply.
    fn exchange(&mut self, xid: u32, most: u32) -> Result<Answer, CallFault> {
        if self.out.len() > MAX_CALL || write_frame(&mut self.writer, &self.out).is_err() {
            return Err(CallFault::Broken);
        }
        let Ok(Some(record)) = self.reader.next(self.alloc, &UpTo(most)) else {
            return Err(CallFault::Broken);
        };
        Answer::to_call(xid, record)
    }
}
