//! A connection to a witness.

use assurance::{LinkFault, Told, WitnessLink};
use authenticator::Authenticator;
use packets::write_learn;
use peer_calls::{
    Greeted, Greeting, NodeNumber, ResultNumber, ResultsFault, Told as NodeTold, Wanted,
    WitnessRequest, read_greeted, read_signed,
};
use peer_connections::{Answer, CallFault, PeerCaller};
use std::alloc::Global;
use std::io;
use std::net::{Net, TcpListener, TcpStream};
use xdr::texts::{TextFault, read_text};

/// The most bytes of the answer to GREET, to DELIVER, to WANTED and to TOLD.
const MOST_GREETED: u32 = 60;

const MOST_DELIVERED: u32 = 28;

const MOST_WANTED: u32 = 468_016;

const MOST_TOLD: u32 = 48;

/// The most bytes of the answer to SHOWN.
const MOST_SHOWN: u32 = 16_980;

/// What it says of a node that it trusts, and of one that it calls exposed.
const TRUSTED: u32 = 1;

const EXPOSED: u32 = 3;

/// A connection to a witness, over which a gateway asks one thing at a time.
#[derive(Drop)]
pub(crate) struct WitnessCaller {
    alloc: Global,
    caller: PeerCaller,
    /// What the gateway says when it connects.
    greeting: Greeting,
}

impl WitnessCaller {
    /// Connects to an address, as HOST:PORT.
    pub(crate) fn connect<R>(
        rt: &R,
        alloc: Global,
        address: &str,
        greeting: Greeting,
    ) -> io::Result<WitnessCaller>
    where
        R: Net<Listener = TcpListener, Stream = TcpStream>,
    {
        let caller = PeerCaller::connect(rt, alloc, address)?;
        Ok(WitnessCaller {
            alloc,
            caller,
            greeting,
        })
    }

    /// Makes a call, whose answer has at most so many bytes.
    fn call(&mut self, request: &WitnessRequest<'_>, most: u32) -> Result<Answer, LinkFault> {
        match self.caller.ask_witness(request, most) {
            Ok(answer) => Ok(answer),
            Err(CallFault::NoMemory) => Err(LinkFault::NoMemory),
            Err(CallFault::Broken) => Err(LinkFault::Broken),
            Err(CallFault::NoSuccess) => Err(LinkFault::Garbage),
        }
    }

    /// The gateway's node.
    fn node(&self) -> NodeNumber {
        NodeNumber {
            node: self.greeting.node,
        }
    }
}

impl WitnessLink for WitnessCaller {
    type Wanted = Wanted;

    fn greet(&mut self) -> Result<(), LinkFault> {
        let answer = self.call(&WitnessRequest::Greet(self.greeting), MOST_GREETED)?;
        match read_greeted(self.alloc, answer.results()) {
            Ok(Greeted::Same) => Ok(()),
            Ok(Greeted::Other(digest)) => Err(LinkFault::OtherRoster(digest)),
            Err(fault) => Err(results_fault(fault)),
        }
    }

    fn show(&mut self, signed: &Authenticator) -> Result<u32, LinkFault> {
        let mut packet = Vec::new(self.alloc);
        write_learn(signed, &mut packet)?;
        self.hand(&packet)
    }

    fn ask(&mut self, node: u32) -> Result<Told, LinkFault> {
        let request = WitnessRequest::Told(NodeNumber { node });
        let answer = self.call(&request, MOST_TOLD)?;
        let told = match read_text::<NodeTold>(self.alloc, answer.results()) {
            Ok(told) => told,
            Err(fault) => return Err(text_fault(fault)),
        };
        if told.standing < TRUSTED || told.standing > EXPOSED {
            return Err(LinkFault::Garbage);
        }
        Ok(Told {
            is_exposed: told.standing == EXPOSED,
            end: told.end,
        })
    }

    fn own(&mut self) -> Result<Option<Authenticator>, LinkFault> {
        let answer = self.call(&WitnessRequest::Shown(self.node()), MOST_SHOWN)?;
        let text = match read_signed(answer.results()) {
            Ok(Some(text)) => text,
            Ok(None) => return Ok(None),
            Err(fault) => return Err(results_fault(fault)),
        };
        match read_text::<Authenticator>(self.alloc, text) {
            Ok(shown) => Ok(Some(shown)),
            Err(fault) => Err(text_fault(fault)),
        }
    }

    fn hand(&mut self, packet: &[u8]) -> Result<u32, LinkFault> {
        let answer = self.call(&WitnessRequest::Deliver(packet), MOST_DELIVERED)?;
        match read_text::<ResultNumber>(self.alloc, answer.results()) {
            Ok(said) => Ok(said.number),
            Err(fault) => Err(text_fault(fault)),
        }
    }

    fn wanted(&mut self) -> Result<Wanted, LinkFault> {
        let answer = self.call(&WitnessRequest::Wanted(self.node()), MOST_WANTED)?;
        match read_text::<Wanted>(self.alloc, answer.results()) {
            Ok(wanted) => Ok(wanted),
            Err(fault) => Err(text_fault(fault)),
        }
    }
}

/// Why results can't be read.
fn results_fault(fault: ResultsFault) -> LinkFault {
    match fault {
        ResultsFault::NoMemory => LinkFault::NoMemory,
        ResultsFault::Garbage => LinkFault::Garbage,
    }
}

/// Why a text can't be read.
fn text_fault(fault: TextFault) -> LinkFault {
    match fault {
        TextFault::NoMemory => LinkFault::NoMemory,
        TextFault::NotAText => LinkFault::Garbage,
    }
}
