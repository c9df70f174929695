//! The numbers, the addresses and the lists in what a party on a host of its own is asked.

ghost use Rattle.std.specs.Prelude.{◌≡◌, ◌≤◌, IfErr, IfOk, IfSome, None, map, option_map, true};
ghost use Rattle.std.specs.Net.Grammar.{IsSocketText};
ghost use Rattle.command_line.specs.HostOrders.{HasLoopback, IsNoSocket, OrdersAsk, OrdersGateway};
ghost use Rattle.command_line.specs.HostOrders.{OrdersServer};
ghost use Rattle.command_line.specs.HostOrders.{OrdersWitness, SocketIf};
ghost use Rattle.command_line.specs.MemberOrders.{WritesRangeOr};
ghost use Rattle.command_line.specs.Lists.{ArePeers, hosts_named, items_of};
ghost use Rattle.command_line.specs.ServeOrders.{IsNotWithin, WritesIf, WritesOr};

use crate::hosts::{AskRequest, GatewayRequest, ServerRequest, WitnessRequest};
use crate::lists::{ListFault, Peer, hosts_of, peer_of, peers_of};
use crate::member_numbers::range_within;
use crate::serve_numbers::number_within;
use authenticator::MAX_NODE;
use std::alloc::Global;
use std::error::Error;
use std::fmt;
use std::net::{IpAddr, Ipv4Addr, SocketAddr};

/// What `nfsacc server` is asked, with its numbers read.
#[derive(Clone, Copy)]
pub struct ServerOrder<'a> {
    /// The name of the file with the secret bytes.
    pub secret: &'a str,
    /// The name of the folder with the rosters.
    pub rosters: &'a str,
    /// The name of the folder of the control socket.
    pub state: &'a str,
    /// The node's number, from 1 to 64.
    pub node: u32,
    /// Where gateways connect; witnesses too where no other address is named for them.
    pub listen: SocketAddr,
    /// Where witnesses connect, if it is named.
    pub audit: Option<SocketAddr>,
    /// After how many calls the server logs a CHECK, from 1 to 16,384; it logs none where that isn't given.
    pub check_every: Option<u64>,
    /// Whether it is told how far the keys are.
    pub progress: bool,
    /// The name of the file that its lines go to as well, if one is named.
    pub log_file: Option<&'a str>,
}

/// What `nfsacc gateway` is asked, with its numbers read.
#[derive(Drop)]
pub struct GatewayOrder<'a> {
    /// The name of the file with the secret bytes.
    pub secret: &'a str,
    /// The name of the folder with the rosters.
    pub rosters: &'a str,
    /// The name of the folder of the control socket.
    pub state: &'a str,
    /// The user's first number, from 1 on.
    pub first: u32,
    /// The user's last number, no less than the first and at most 64.
    pub last: u32,
    /// The server.
    pub server: Peer<'a>,
    /// Where witnesses listen.
    pub witnesses: Vec<&'a str>,
    /// Where local programs connect: an address that only this machine reaches.
    pub listen: SocketAddr,
    /// After how many seconds witnesses are told again, from 1 to 86,400.
    pub every: u32,
    /// How many calls are kept for what is still to be received, up to 16,384.
    pub reserve: u32,
    /// After how many seconds without a reply a call is given up, from 1 on; it waits for ever where none are
    /// given.
    pub give_up: Option<u32>,
    /// Whether it is told what witnesses assure.
    pub progress: bool,
    /// The name of the file that its lines go to as well, if one is named.
    pub log_file: Option<&'a str>,
}

/// What `nfsacc witness` is asked, with its numbers read.
#[derive(Drop)]
pub struct WitnessOrder<'a> {
    /// The name of the folder with the rosters.
    pub rosters: &'a str,
    /// The servers.
    pub servers: Vec<Peer<'a>>,
    /// Where others connect.
    pub listen: SocketAddr,
    /// Where other witnesses listen.
    pub witnesses: Vec<&'a str>,
    /// After how many seconds servers and other witnesses are asked again, from 1 to 86,400.
    pub every: u32,
    /// After how many seconds without an answer a node is said to be suspected, up to 86,400.
    pub patience: u32,
    /// For how many seconds at most the books from which others went on by a base stand beside these, up to 86,400.
    pub overlap: u32,
    /// The name of the folder that evidence goes to, if one is named.
    pub evidence: Option<&'a str>,
    /// The epoch, from 1 on; that which a server greets with where none is named.
    pub epoch: Option<u32>,
    /// Whether it begins at the last base that each server gives.
    pub join: bool,
    /// The name of the folder of the control socket, if one is named.
    pub state: Option<&'a str>,
    /// The name of the file that its lines go to as well, if one is named.
    pub log_file: Option<&'a str>,
}

/// What `nfsacc ask` is asked, with its numbers read.
#[derive(Drop)]
pub struct AskOrder<'a> {
    /// Where witnesses listen.
    pub witnesses: Vec<&'a str>,
    /// The name of the folder with the rosters, one of which each witness must have, if one is named.
    pub rosters: Option<&'a str>,
    /// The name of the folder that evidence goes to, if one is named; then rosters are, too.
    pub evidence: Option<&'a str>,
    /// The name of the folder of the control socket of this machine's gateway, if one is named.
    pub state: Option<&'a str>,
    /// The first number that is asked for, from 1 on.
    pub first: u32,
    /// The last number that is asked for, no less than the first and at most 64.
    pub last: u32,
}

/// Why what a party on a host of its own is asked makes no order.
#[derive(Clone, Copy, Debug, PartialEq, Eq)]
pub enum HostRefusal {
    /// The node's number is no decimal number from 1 to 64.
    Node,
    /// The numbers aren't one decimal number from 1 to 64, or two with `-` between, the second no less than
    /// the first.
    Nodes,
    /// The address that is listened on is none.
    Listen,
    /// The address that local programs connect to is one that others reach.
    Outside,
    /// The address that witnesses connect to is none.
    Audit,
    /// The calls between two CHECKs are no decimal number from 1 to 16,384.
    CheckEvery,
    /// The server isn't a number and where it listens.
    Server,
    /// The witnesses aren't a list of where they listen.
    Witness,
    /// The servers aren't a list of numbers and where they listen.
    At,
    /// The seconds are no decimal number from 1 to 86,400.
    Every,
    /// The calls are no decimal number from 0 to 16,384.
    Reserve,
    /// The seconds after which a call is given up are no decimal number from 1 to 4,294,967,295.
    GiveUp,
    /// The seconds are no decimal number from 0 to 86,400.
    Patience,
    /// The seconds for which books stand beside others are no decimal number from 0 to 86,400.
    Overlap,
    /// The epoch is no decimal number from 1 to 4,294,967,295.
    Epoch,
    /// It isn't said where the witnesses listen.
    Peer,
    /// Evidence is asked for, and no rosters are named.
    Unjudged,
    /// Memory was refused.
    NoMemory,
}

impl HostRefusal {
    /// What is wrong.
    fn words(self) -> &'static str {
        match self {
            HostRefusal::Node => "--node is a number from 1 to 64",
            HostRefusal::Nodes => "--nodes is N or A-B, numbers from 1 to 64",
            HostRefusal::Listen => "--listen is ADDRESS:PORT",
            HostRefusal::Outside =>
                "--listen is a loopback address: whoever connects acts as this user",
            HostRefusal::Audit => "--audit is ADDRESS:PORT",
            HostRefusal::CheckEvery => "--check-every is a number of calls from 1 to 16384",
            HostRefusal::Server => "--server is N=HOST:PORT, N from 1 to 64",
            HostRefusal::Witness => "--witness is HOST:PORT, with commas between",
            HostRefusal::At => "--at is N=HOST:PORT, with commas between, N from 1 to 64",
            HostRefusal::Every => "--every is a number of seconds from 1 to 86400",
            HostRefusal::Reserve => "--reserve is a number of calls from 0 to 16384",
            HostRefusal::GiveUp => "--give-up is a number of seconds from 1 to 4294967295",
            HostRefusal::Patience => "--patience is a number of seconds from 0 to 86400",
            HostRefusal::Overlap => "--overlap is a number of seconds from 0 to 86400",
            HostRefusal::Epoch => "--epoch is a number from 1 to 4294967295",
            HostRefusal::Peer =>
                "HOST:PORT is a host's name or address, and a port from 1 to 65535, with commas between several",
            HostRefusal::Unjudged => "--evidence needs --rosters, by which it is judged",
            HostRefusal::NoMemory => "out of memory",
        }
    }
}

impl fmt::Display for HostRefusal {
    /// Writes what is wrong.
    fn fmt<W: fmt::Write>(&self, f: &mut fmt::Formatter<W>) -> fmt::Result {
        f.write_str(self.words())
    }
}

impl Error for HostRefusal {}

/// The most seconds of an option: a day.
const MOST_SECONDS: u32 = 86400;

/// The most calls that are kept, and between two CHECKs: as many as a server has keys for.
const MOST_CALLS: u32 = 16384;

/// The port that local programs connect to where none is named: that of NFS.
const NFS_PORT: u16 = 2049;

/// The order that a request makes. It is refused for the first of the number, the two addresses and the calls
/// between two CHECKs that is none.
pub fn server_order<'a>(request: &ServerRequest<'a>) -> Result<ServerOrder<'a>, HostRefusal>
    ensures order { IfOk result (OrdersServer request.now) }
    ensures node { IfOk result (λ o. (1 ≤ o.node) × (o.node ≤ 64)) }
    ensures calls { IfOk result (λ o. IfSome o.check_every (λ n. (1 ≤ n) × (n ≤ 16384))) }
{
    let node = number_within(request.node, 1, MAX_NODE).ok_or(HostRefusal::Node)?;
    let listen = socket_of(request.listen).ok_or(HostRefusal::Listen)?;
    let audit = audit_of(request.audit)?;
    let check_every = check_every_of(request.check_every)?;
    Ok(ServerOrder {
        secret: request.secret,
        rosters: request.rosters,
        state: request.state,
        node,
        listen,
        audit,
        check_every,
        progress: request.progress,
        log_file: request.log_file,
    })
}

/// The order that a request makes. It is refused for the first of the numbers, the server, the witnesses, the
/// address, the seconds between reports, the calls and the seconds of a call that is none, and where others
/// reach the address.
pub fn gateway_order<'a>(
    alloc: Global,
    request: &GatewayRequest<'a>,
) -> Result<GatewayOrder<'a>, HostRefusal>
    ensures order { IfOk result (OrdersGateway request.now) }
    ensures nodes { IfOk result (λ o. (1 ≤ o.first) × (o.first ≤ o.last) × (o.last ≤ 64)) }
{
    let (first, last) = range_within(request.nodes, 1, MAX_NODE).ok_or(HostRefusal::Nodes)?;
    let server = peer_of(request.server).ok_or(HostRefusal::Server)?;
    let witnesses = witnesses_of(alloc, request.witness)?;
    let listen = loopback_of(request.listen)?;
    let every = seconds_of(request.every, 1, 10).ok_or(HostRefusal::Every)?;
    let reserve = calls_of(request.reserve).ok_or(HostRefusal::Reserve)?;
    let give_up = number_if(request.give_up, HostRefusal::GiveUp)?;
    Ok(GatewayOrder {
        secret: request.secret,
        rosters: request.rosters,
        state: request.state,
        first,
        last,
        server,
        witnesses,
        listen,
        every,
        reserve,
        give_up,
        progress: request.progress,
        log_file: request.log_file,
    })
}

/// The order that a request makes. It is refused for the first of the servers, the address, the witnesses, the
/// three numbers of seconds and the epoch that is none.
pub fn witness_order<'a>(
    alloc: Global,
    request: &WitnessRequest<'a>,
) -> Result<WitnessOrder<'a>, HostRefusal>
    ensures order { IfOk result (OrdersWitness request.now) }
{
    let servers = servers_of(alloc, request.at)?;
    let listen = socket_of(request.listen).ok_or(HostRefusal::Listen)?;
    let others = witnesses_of(alloc, request.witness)?;
    let every = seconds_of(request.every, 1, 10).ok_or(HostRefusal::Every)?;
    let patience = seconds_of(request.patience, 0, 60).ok_or(HostRefusal::Patience)?;
    let overlap = seconds_of(request.overlap, 0, 3_600).ok_or(HostRefusal::Overlap)?;
    let epoch = number_if(request.epoch, HostRefusal::Epoch)?;
    Ok(WitnessOrder {
        rosters: request.rosters,
        servers,
        listen,
        witnesses: others,
        every,
        patience,
        overlap,
        evidence: request.evidence,
        epoch,
        join: request.join,
        state: request.state,
        log_file: request.log_file,
    })
}

/// The order that a request makes. It is refused where it isn't said where the witnesses listen, where the
/// numbers are none, and where evidence is asked for without rosters.
pub fn ask_order<'a>(alloc: Global, request: &AskRequest<'a>) -> Result<AskOrder<'a>, HostRefusal>
    ensures order { IfOk result (OrdersAsk request.now) }
    ensures nodes { IfOk result (λ o. (1 ≤ o.first) × (o.first ≤ o.last) × (o.last ≤ 64)) }
    ensures judged { IfOk result (λ o. o.rosters ≡ None → o.evidence ≡ None) }
{
    let witnesses = asked_of(alloc, request.witness)?;
    let (first, last) = numbers_of(request.nodes).ok_or(HostRefusal::Nodes)?;
    let (rosters, evidence) = (request.rosters, request.evidence);
    if evidence.is_some() && rosters.is_none() {
        return Err(HostRefusal::Unjudged);
    }
    Ok(AskOrder {
        witnesses,
        rosters,
        evidence,
        state: request.state,
        first,
        last,
    })
}

/// The address and the port that a word is.
fn socket_of(word: &str) -> Option<SocketAddr>
    ensures some { IfSome result (IsSocketText word.now) }
    ensures none { result ≡ None → IsNoSocket word.now }
{
    word.parse::<SocketAddr>().ok()
}

/// The address in an option's word, if it is given.
fn audit_of(word: Option<&str>) -> Result<Option<SocketAddr>, HostRefusal>
    ensures { IfOk result (SocketIf (option_map (λ s. s.now) word.entry)) }
{
    let Some(word) = word else {
        return Ok(None);
    };
    match socket_of(word) {
        Some(address) => Ok(Some(address)),
        None => Err(HostRefusal::Audit),
    }
}

/// The address that local programs connect to, which only this machine reaches: 127.0.0.1:2049 where none is
/// named.
fn loopback_of(word: Option<&str>) -> Result<SocketAddr, HostRefusal>
    ensures address { IfOk result (λ a. IfSome word.entry (λ text. IsSocketText text.now a)) }
    ensures own { IfOk result HasLoopback }
{
    let Some(word) = word else {
        return Ok(SocketAddr::new(IpAddr::V4(Ipv4Addr::LOCALHOST), NFS_PORT));
    };
    let Some(address) = socket_of(word) else {
        return Err(HostRefusal::Listen);
    };
    if is_own(&address) {
        Ok(address)
    } else {
        Err(HostRefusal::Outside)
    }
}

/// Whether only this machine reaches an address.
fn is_own(address: &SocketAddr) -> bool
    ensures { result ≡ true → HasLoopback address.now }
{
    address.ip().is_loopback()
}

/// The witnesses in an option's word; none where it isn't given.
fn witnesses_of<'a>(alloc: Global, word: Option<&'a str>) -> Result<Vec<&'a str>, HostRefusal>
    ensures { IfOk result (λ v.
        map (λ s. s.now) v.items ≡ hosts_named (option_map (λ s. s.now) word.entry)) }
{
    let Some(word) = word else {
        return Ok(Vec::new(alloc));
    };
    match hosts_of(alloc, word) {
        Ok(hosts) => Ok(hosts),
        Err(ListFault::Bad) => Err(HostRefusal::Witness),
        Err(ListFault::NoMemory) => Err(HostRefusal::NoMemory),
    }
}

/// The witnesses that are asked.
fn asked_of<'a>(alloc: Global, word: &'a str) -> Result<Vec<&'a str>, HostRefusal>
    ensures { IfOk result (λ v. map (λ s. s.now) v.items ≡ items_of word.now) }
{
    match hosts_of(alloc, word) {
        Ok(hosts) => Ok(hosts),
        Err(ListFault::Bad) => Err(HostRefusal::Peer),
        Err(ListFault::NoMemory) => Err(HostRefusal::NoMemory),
    }
}

/// The servers in an option's word.
fn servers_of<'a>(alloc: Global, word: &'a str) -> Result<Vec<Peer<'a>>, HostRefusal>
    ensures { IfOk result (λ v. ArePeers (items_of word.now) v.items) }
{
    match peers_of(alloc, word) {
        Ok(peers) => Ok(peers),
        Err(ListFault::Bad) => Err(HostRefusal::At),
        Err(ListFault::NoMemory) => Err(HostRefusal::NoMemory),
    }
}

/// The seconds in an option's word, or others where it isn't given.
fn seconds_of(word: Option<&str>, least: u32, other: u32) -> Option<u32>
    ensures { IfSome result (WritesOr least 86400 other (option_map (λ s. s.now) word.entry)) }
{
    match word {
        Some(word) => number_within(word, least, MOST_SECONDS),
        None => Some(other),
    }
}

/// The calls in an option's word, or none where it isn't given.
fn calls_of(word: Option<&str>) -> Option<u32>
    ensures { IfSome result (WritesOr 0 16384 0 (option_map (λ s. s.now) word.entry)) }
{
    match word {
        Some(word) => number_within(word, 0, MOST_CALLS),
        None => Some(0),
    }
}

/// The calls between two CHECKs in an option's word, if it is given.
fn check_every_of(word: Option<&str>) -> Result<Option<u64>, HostRefusal>
    ensures calls { IfOk result (WritesIf 1 16384 (option_map (λ s. s.now) word.entry)) }
    ensures bounds { IfOk result (λ o. IfSome o (λ n. (1 ≤ n) × (n ≤ 16384))) }
{
    let Some(word) = word else {
        return Ok(None);
    };
    match number_within(word, 1, MOST_CALLS) {
        Some(calls) => Ok(Some(u64::from(calls))),
        None => Err(HostRefusal::CheckEvery),
    }
}

/// The number from 1 on in an option's word, if it is given: this refusal where the word is none.
fn number_if(word: Option<&str>, refusal: HostRefusal) -> Result<Option<u32>, HostRefusal>
    ensures number { IfOk result (WritesIf 1 4294967295 (option_map (λ s. s.now) word.entry)) }
    ensures refused { IfErr result (λ e.
        (e ≡ refusal) × IsNotWithin 1 4294967295 (option_map (λ s. s.now) word.entry)) }
{
    let Some(word) = word else {
        return Ok(None);
    };
    match number_within(word, 1, u32::MAX) {
        Some(number) => Ok(Some(number)),
        None => Err(refusal),
    }
}

/// The numbers in an option's word, or all where it isn't given.
fn numbers_of(word: Option<&str>) -> Option<(u32, u32)>
    ensures some { IfSome result (λ p. WritesRangeOr 1 64 1 64 (option_map (λ s. s.now) word.entry) p.0 p.1) }
    ensures bounds { IfSome result (λ p. (1 ≤ p.0) × (p.0 ≤ p.1) × (p.1 ≤ 64)) }
{
    match word {
        Some(word) => range_within(word, 1, MAX_NODE),
        None => Some((1, MAX_NODE)),
    }
}
