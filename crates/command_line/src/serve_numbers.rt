//! The numbers and the address in what `serve` is asked.

ghost use Rattle.std.specs.Prelude.{◌≡◌, ◌↔◌, ◌≤◌, IsTrue, IfErr, IfOk, IfSome, IsOk, IsSome};
ghost use Rattle.std.specs.Prelude.{None, true, false, option_map};
ghost use Rattle.std.specs.Str.Parse.{IsNumeral, digits_value};
ghost use Rattle.std.specs.Net.Grammar.{IsIpText};
ghost use Rattle.authenticator.specs.Roster.{log_number};
ghost use Rattle.serve_options.specs.Options.{AreServeOptions};
ghost use Rattle.command_line.specs.ServeOrders.{HasNumbers, IsLocalhost, IsLoopback, IsNotWithin};
ghost use Rattle.command_line.specs.ServeOrders.{IsWithin, IsWithinOr, Orders, Refuses};
ghost use Rattle.command_line.specs.ServeOrders.{Writes, WritesIf, WritesOr};

use crate::serve::ServeRequest;
use authenticator::LogVersion;
use serve_options::{Heights, ServeOptions};
use std::error::Error;
use std::fmt;
use std::net::{IpAddr, Ipv4Addr};

/// What `nfsacc serve` is asked, with its numbers read.
#[derive(Clone, Copy)]
pub struct ServeOrder<'a> {
    /// The port that is listened on; 0 lets the system choose.
    pub port: u16,
    /// The address that is listened on; 127.0.0.1 where none is named.
    pub address: IpAddr,
    /// The name of the file with the secret bytes of which all keys are made. There is one unless the address
    /// is a loopback one: without it anybody can sign for each node.
    pub master: Option<&'a str>,
    /// The name of the folder that the control socket is made in, if one is named.
    pub control: Option<&'a str>,
    /// The options of the run.
    pub options: ServeOptions<'a>,
}

/// Why what `serve` is asked makes no order.
#[derive(Clone, Copy, Debug, PartialEq, Eq)]
pub enum ServeRefusal {
    /// The port is no decimal number from 0 to 65,535.
    Port,
    /// The count of connections is no decimal number from 1 to 16.
    Count,
    /// The height of the server's tree of keys is no decimal number from 1 to 15.
    ServerHeight,
    /// The height of each client's tree of keys is no decimal number from 1 to 15.
    ClientHeight,
    /// The seconds that a connection may be silent are no decimal number from 1 to 86,400.
    Idle,
    /// The version of the logs is neither 1 nor 2.
    LogVersion,
    /// The calls between two CHECKs are no decimal number from 1 to 16,384.
    CheckEvery,
    /// The address is none.
    Address,
    /// Others reach the address, and the keys are made of nothing secret.
    Unguarded,
}

impl ServeRefusal {
    /// What is wrong.
    fn words(self) -> &'static str {
        match self {
            ServeRefusal::Port => "PORT is a number from 0 to 65535",
            ServeRefusal::Count => "COUNT is a number from 1 to 16",
            ServeRefusal::ServerHeight => "--server-height is a number from 1 to 15",
            ServeRefusal::ClientHeight => "--client-height is a number from 1 to 15",
            ServeRefusal::Idle => "--idle is a number of seconds from 1 to 86400",
            ServeRefusal::LogVersion => "--log-version is 1 or 2",
            ServeRefusal::CheckEvery => "--check-every is a number of calls from 1 to 16384",
            ServeRefusal::Address => "--address is an IP address",
            ServeRefusal::Unguarded =>
                "an --address that others reach wants --master: without it anybody can sign for each node",
        }
    }
}

impl fmt::Display for ServeRefusal {
    /// Writes what is wrong.
    fn fmt<W: fmt::Write>(&self, f: &mut fmt::Formatter<W>) -> fmt::Result {
        f.write_str(self.words())
    }
}

impl Error for ServeRefusal {}

/// The most connections of a run.
const MOST_CONNECTIONS: u32 = 16;

/// The greatest height of a tree of keys: with it a server's log has as many entries as a witness audits.
const MOST_HEIGHT: u32 = 15;

/// The most seconds that a connection may be silent, where a number is given: a day.
const MOST_IDLE: u32 = 86400;

/// The most calls between two CHECKs, where a number is given: as many as a server has keys for.
const MOST_CALLS: u32 = 16384;

/// A number from the one to the other, if a word is its decimal digits.
pub(crate) fn number_within(word: &str, least: u32, most: u32) -> Option<u32>
    ensures some { IfSome result (Writes least most word.now) }
    ensures bounds { IfSome result (λ n. (least ≤ n) × (n ≤ most)) }
    ensures none { result ≡ None → ¬ (IsWithin least most word.now) }
{
    if word.as_bytes().first() == Some(&b'+') {
        return None;
    }
    match word.parse::<u32>() {
        Ok(number) if least <= number && number <= most => Some(number),
        _ => None,
    }
}

/// The height in an option's word, or another one where it isn't given.
fn height_of(word: Option<&str>, other: u32) -> Option<u32>
    requires low { 1 ≤ other }
    requires high { other ≤ 15 }
    ensures bounds { IfSome result (λ n. (1 ≤ n) × (n ≤ 15)) }
    ensures some { IfSome result (WritesOr 1 15 other (option_map (λ s. s.now) word.entry)) }
    ensures within { IsSome result → IsWithinOr 1 15 (option_map (λ s. s.now) word.entry) }
    ensures none { result ≡ None → IsNotWithin 1 15 (option_map (λ s. s.now) word.entry) }
{
    match word {
        Some(word) => number_within(word, 1, MOST_HEIGHT),
        None => Some(other),
    }
}

/// The number from 1 on in an option's word, if it is given; this refusal where the word is none up to `most`.
fn count_of(
    word: Option<&str>,
    most: u32,
    refusal: ServeRefusal,
) -> Result<Option<u32>, ServeRefusal>
    ensures bounds { IfOk result (λ o. IfSome o (λ n. (1 ≤ n) × (n ≤ most))) }
    ensures ok { IfOk result (WritesIf 1 most (option_map (λ s. s.now) word.entry)) }
    ensures within { IsOk result → IsWithinOr 1 most (option_map (λ s. s.now) word.entry) }
    ensures err { IfErr result (λ e. (e ≡ refusal)
        × IsNotWithin 1 most (option_map (λ s. s.now) word.entry)) }
{
    let Some(word) = word else {
        return Ok(None);
    };
    match number_within(word, 1, most) {
        Some(number) => Ok(Some(number)),
        None => Err(refusal),
    }
}

/// The version of the logs in an option's word, or 1 where it isn't given.
fn log_version_of(word: Option<&str>) -> Result<LogVersion, ServeRefusal>
    ensures ok { IfOk result (λ v. WritesOr 1 2 1 (option_map (λ s. s.now) word.entry) (log_number v)) }
    ensures within { IsOk result → IsWithinOr 1 2 (option_map (λ s. s.now) word.entry) }
    ensures err { IfErr result (λ e. (e ≡ ServeRefusal.LogVersion)
        × IsNotWithin 1 2 (option_map (λ s. s.now) word.entry)) }
{
    let Some(word) = word else {
        return Ok(LogVersion::One);
    };
    match number_within(word, 1, 2) {
        Some(1) => Ok(LogVersion::One),
        Some(_) => Ok(LogVersion::Two),
        None => Err(ServeRefusal::LogVersion),
    }
}

/// The address that is listened on: one that others reach only where the keys are made of something secret.
fn address_of(request: &ServeRequest<'_>) -> Result<IpAddr, ServeRefusal>
    requires { HasNumbers request.now }
    ensures address { IfOk result (λ a. IfSome request.now.address (λ text. IsIpText text.now a)) }
    ensures own { IfOk result (λ a. request.now.address ≡ None → IsLocalhost a) }
    ensures guarded { IfOk result (λ a. ¬ (IsLoopback a) → IsSome request.now.master) }
    ensures refused { IfErr result (Refuses request.now) }
{
    let Some(word) = request.address else {
        return Ok(IpAddr::V4(Ipv4Addr::LOCALHOST));
    };
    let Ok(address) = word.parse::<IpAddr>() else {
        return Err(ServeRefusal::Address);
    };
    if is_guarded(&address, request.master) {
        Ok(address)
    } else {
        Err(ServeRefusal::Unguarded)
    }
}

/// Whether nobody else reaches an address, or the keys are made of something secret.
fn is_guarded(address: &IpAddr, master: Option<&str>) -> bool
    ensures guarded { result ≡ true → ¬ (IsLoopback address.now) → IsSome master.entry }
    ensures outside { result ≡ false → (¬ (IsLoopback address.now)) × (master.entry ≡ None) }
{
    address.is_loopback() || master.is_some()
}

/// The order that a request makes: with its numbers read, and what isn't named as it is by itself. It is
/// refused where a number is none or out of range, of the port, the count, the two heights, the seconds of
/// silence, the version of the logs and the calls between two CHECKs the first; then where the address is none, or is one that others reach
/// though no file of secret bytes is named.
pub fn serve_order<'a>(request: &ServeRequest<'a>) -> Result<ServeOrder<'a>, ServeRefusal>
    ensures order { IfOk result (Orders request.now) }
    ensures bounds { IfOk result (λ order. AreServeOptions order.options) }
    ensures refused { IfErr result (Refuses request.now) }
{
    let port = number_within(request.port, 0, 65535).ok_or(ServeRefusal::Port)?;
    let connections = number_within(request.count, 1, MOST_CONNECTIONS).ok_or(ServeRefusal::Count)?;
    let server_height = height_of(request.server_height, 12).ok_or(ServeRefusal::ServerHeight)?;
    let client_height = height_of(request.client_height, 10).ok_or(ServeRefusal::ClientHeight)?;
    let idle = count_of(request.idle, MOST_IDLE, ServeRefusal::Idle)?;
    let log_version = log_version_of(request.log_version)?;
    let check_every = count_of(request.check_every, MOST_CALLS, ServeRefusal::CheckEvery)?;
    Ok(ServeOrder {
        port: port as u16,
        address: address_of(request)?,
        master: request.master,
        control: request.control,
        options: ServeOptions {
            connections,
            heights: Heights {
                server: server_height,
                client: client_height,
            },
            roster_out: request.roster_out,
            evidence: request.evidence,
            progress: request.progress,
            idle,
            base_out: request.base_out,
            check_every,
            log_version,
        },
    })
}
