//! A connection to a node, over which calls are sent before earlier ones are answered.

use crate::caller::{Answer, CallFault};
use frames::{FrameReader, UpTo, write_frame};
use peer_calls::{NodeRequest, write_node_request};
use rpc::records::Counting;
use std::alloc::Global;
use std::io::{self, Read, Write};
use std::net::{Net, Shutdown, TcpListener, TcpStream, ToSocketAddrs};
use std::time::Duration;

/// How many milliseconds a read or a write waits at once.
const LOOK: u64 = 100;

/// How many seconds it may take to connect to an address.
const PATIENCE_TO_CONNECT: u64 = 4;

/// The most bytes of a call of a node.
const MAX_CALL: usize = 29_288;

/// What is done while a peer is awaited.
pub trait Meanwhile {
    /// Does it, and tells whether the peer is awaited any longer. It is called before each read and write, and ten
    /// times a second while bytes are awaited.
    fn goes_on(&mut self) -> bool;
}

/// A call that was sent over a connection.
#[derive(Clone, Copy, Debug, PartialEq, Eq)]
pub struct Sent {
    xid: u32,
}

/// A connection to a node, by its two halves, which two threads may use at a time. Calls may be sent before earlier ones
/// are answered; the answers come in the order of the calls. After a fault, other than want of memory for a call, it is
/// of no more use.
#[derive(Drop)]
pub struct NodeConnection {
    pub sender: NodeSender,
    pub receiver: NodeReceiver,
}

/// The half of a connection to a node by which calls are sent.
#[derive(Drop)]
pub struct NodeSender {
    stream: TcpStream,
    xid: u32,
    out: Vec<u8>,
}

/// The half of a connection to a node by which answers are read.
#[derive(Drop)]
pub struct NodeReceiver {
    alloc: Global,
    stream: TcpStream,
}

impl NodeConnection {
    /// Connects to an address, a name or a number with its port: to each one that it stands for in turn, in four
    /// seconds each at most.
    pub fn connect<R>(rt: &R, alloc: Global, address: &str) -> io::Result<NodeConnection>
    where
        R: Net<Listener = TcpListener, Stream = TcpStream>,
    {
        let stream = connect_in_time(rt, address)?;
        // Where it can't be set, answers come later, and nothing else changes.
        let _ = stream.set_nodelay(true);
        let look = Some(Duration::from_millis(LOOK));
        stream.set_read_timeout(look)?;
        stream.set_write_timeout(look)?;
        let receiver = NodeReceiver {
            alloc,
            stream: stream.try_clone()?,
        };
        let sender = NodeSender {
            stream,
            xid: 0,
            out: Vec::new(alloc),
        };
        Ok(NodeConnection { sender, receiver })
    }
}

impl NodeSender {
    /// Sends a call, without waiting for its answer.
    pub fn send<M: Meanwhile>(
        &mut self,
        request: &NodeRequest<'_>,
        meanwhile: &mut M,
    ) -> Result<Sent, CallFault> {
        let xid = self.xid.wrapping_add(1);
        self.out.clear();
        write_node_request(xid, request, &mut self.out)?;
        self.xid = xid;
        let mut writer = Counting::new(Awaited {
            stream: &self.stream,
            meanwhile,
        });
        if self.out.len() > MAX_CALL || write_frame(&mut writer, &self.out).is_err() {
            return Err(CallFault::Broken);
        }
        Ok(Sent { xid })
    }

    /// Ends the connection, for the other half too.
    pub fn shut(&self) {
        shut(&self.stream);
    }
}

impl NodeReceiver {
    /// Reads the next answer, of at most so many bytes, which is to be that to this call: to the first one that isn't
    /// answered yet.
    pub fn answer<M: Meanwhile>(
        &mut self,
        sent: Sent,
        most: u32,
        meanwhile: &mut M,
    ) -> Result<Answer, CallFault> {
        read_answer(self.alloc, &self.stream, sent, most, meanwhile)
    }

    /// Ends the connection, for the other half too.
    pub fn shut(&self) {
        shut(&self.stream);
    }
}

/// Reads the next record of a stream, of at most so many bytes, as the answer to a call.
fn read_answer<M: Meanwhile>(
    alloc: Global,
    stream: &TcpStream,
    sent: Sent,
    most: u32,
    meanwhile: &mut M,
) -> Result<Answer, CallFault> {
    let mut reader = FrameReader::new(Counting::new(Awaited { stream, meanwhile }));
    match reader.next(alloc, &UpTo(most)) {
        Ok(Some(record)) => Answer::to_call(sent.xid, record),
        Ok(None) | Err(_) => Err(CallFault::Broken),
    }
}

/// Ends a connection, if it hasn't ended.
fn shut(stream: &TcpStream) {
    let _ = stream.shutdown(Shutdown::Both);
}

/// Connects to one of the addresses that this one stands for, each in time. Gives the last error where none accepts.
fn connect_in_time<R>(rt: &R, address: &str) -> io::Result<TcpStream>
where
    R: Net<Listener = TcpListener, Stream = TcpStream>,
{
    let patience = Duration::from_secs(PATIENCE_TO_CONNECT);
    let mut last = io::Error::from(io::ErrorKind::InvalidInput);
    for place in address.to_socket_addrs(rt)? {
        match TcpStream::connect_timeout(rt, &place, patience) {
            Ok(stream) => return Ok(stream),
            Err(error) => last = error,
        }
    }
    Err(last)
}

/// A stream that is read and written as long as what is done meanwhile goes on.
#[derive(Drop)]
struct Awaited<'a, M: Meanwhile> {
    stream: &'a TcpStream,
    meanwhile: &'a mut M,
}

impl<'a, M: Meanwhile> Read for Awaited<'a, M> {
    fn read(&mut self, buf: &mut [u8]) -> io::Result<usize> {
        for _ in 0..u64::MAX {
            if !self.meanwhile.goes_on() {
                break;
            }
            let mut stream = self.stream;
            match stream.read(buf) {
                Err(error) if error.kind() == io::ErrorKind::WouldBlock => {}
                done => return done,
            }
        }
        Err(io::Error::from(io::ErrorKind::TimedOut))
    }
}

impl<'a, M: Meanwhile> Write for Awaited<'a, M> {
    fn write(&mut self, bytes: &[u8]) -> io::Result<usize> {
        for _ in 0..u64::MAX {
            if !self.meanwhile.goes_on() {
                break;
            }
            let mut stream = self.stream;
            match stream.write(bytes) {
                Err(error) if error.kind() == io::ErrorKind::WouldBlock => {}
                done => return done,
            }
        }
        Err(io::Error::from(io::ErrorKind::TimedOut))
    }

    fn flush(&mut self) -> io::Result<()> {
        Ok(())
    }
}
