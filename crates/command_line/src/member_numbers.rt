//! The numbers in what `member` is asked.

ghost use Rattle.std.specs.Prelude.{◌≡◌, ◌≤◌, IfErr, IfOk, IfSome, None, Some, ℕ, option_map};
ghost use Rattle.authenticator.specs.Roster.{log_number};
ghost use Rattle.command_line.specs.MemberOrders.{AreMemberNumbers, IsNoKind, IsNoRange, IsRange};
ghost use Rattle.command_line.specs.MemberOrders.{OrdersMember, RefusesMember};
ghost use Rattle.command_line.specs.MemberOrders.{WritesRange, WritesRangeOr, default_height, kind_word};
ghost use Rattle.command_line.specs.ServeOrders.{IsNotWithin, WritesOr};

use crate::keys::MemberRequest;
use crate::serve_numbers::number_within;
use authenticator::{Kind, LogVersion, MAX_NODE};
use std::error::Error;
use std::fmt;

/// What `nfsacc member` is asked, with its numbers read.
#[derive(Clone, Copy)]
pub struct MemberOrder<'a> {
    /// The name of the file with the secret bytes.
    pub secret: &'a str,
    /// The node's number, from 1 to 64.
    pub node: u32,
    /// What the node does.
    pub kind: Kind,
    /// The height of its trees of keys, from 1 to 16.
    pub height: u32,
    /// The first epoch, from 1 on.
    pub first: u32,
    /// The last epoch, no less than the first.
    pub last: u32,
    /// The version of its log.
    pub log_version: LogVersion,
}

/// Why what `member` is asked makes no order.
#[derive(Clone, Copy, Debug, PartialEq, Eq)]
pub enum MemberRefusal {
    /// The node's number is no decimal number from 1 to 64.
    Node,
    /// The kind is neither `server` nor `client`.
    Kind,
    /// The height is no decimal number from 1 to 16.
    Height,
    /// The epochs aren't one decimal number from 1 to 4,294,967,295, or two with `-` between, the second no
    /// less than the first.
    Epochs,
    /// The version of the log is neither 1 nor 2.
    LogVersion,
}

impl MemberRefusal {
    /// What is wrong.
    fn words(self) -> &'static str {
        match self {
            MemberRefusal::Node => "--node is a number from 1 to 64",
            MemberRefusal::Kind => "--kind is server or client",
            MemberRefusal::Height => "--height is a number from 1 to 16",
            MemberRefusal::Epochs => "--epochs is E or A-B, numbers from 1 to 4294967295",
            MemberRefusal::LogVersion => "--log-version is 1 or 2",
        }
    }
}

impl fmt::Display for MemberRefusal {
    /// Writes what is wrong.
    fn fmt<W: fmt::Write>(&self, f: &mut fmt::Formatter<W>) -> fmt::Result {
        f.write_str(self.words())
    }
}

impl Error for MemberRefusal {}

/// The greatest height of a tree of keys.
const MOST_HEIGHT: u32 = 16;

/// The order that a request makes: with its numbers read, and what isn't named as it is by itself. It is
/// refused for the first of the number, the kind, the height, the epochs and the version that is none.
pub fn member_order<'a>(request: &MemberRequest<'a>) -> Result<MemberOrder<'a>, MemberRefusal>
    ensures order { IfOk result (OrdersMember request.now) }
    ensures bounds { IfOk result AreMemberNumbers }
    ensures refused { IfErr result (RefusesMember request.now) }
{
    let node = number_within(request.node, 1, MAX_NODE).ok_or(MemberRefusal::Node)?;
    let kind = kind_of(request.kind).ok_or(MemberRefusal::Kind)?;
    let height = height_of(request.height, kind).ok_or(MemberRefusal::Height)?;
    let (first, last) = epochs_of(request.epochs).ok_or(MemberRefusal::Epochs)?;
    let log_version = version_of(request.log_version).ok_or(MemberRefusal::LogVersion)?;
    Ok(MemberOrder {
        secret: request.secret,
        node,
        kind,
        height,
        first,
        last,
        log_version,
    })
}

/// The kind that a word names.
fn kind_of(word: &str) -> Option<Kind>
    ensures some { IfSome result (λ k. word.now ≡ kind_word k) }
    ensures none { result ≡ None → IsNoKind word.now }
{
    if word == "server" {
        Some(Kind::Server)
    } else if word == "client" {
        Some(Kind::Client)
    } else {
        None
    }
}

/// The height in an option's word, or that of the kind where it isn't given: 12 of a server, 10 of a client.
fn height_of(word: Option<&str>, kind: Kind) -> Option<u32>
    ensures some { IfSome result (WritesOr 1 16 (default_height kind) (option_map (λ s. s.now) word.entry)) }
    ensures bounds { IfSome result (λ n. (1 ≤ n) × (n ≤ 16)) }
    ensures none { result ≡ None → IsNotWithin 1 16 (option_map (λ s. s.now) word.entry) }
{
    match word {
        Some(word) => number_within(word, 1, MOST_HEIGHT),
        None => Some(default_height(kind)),
    }
}

/// The height where none is named.
fn default_height(kind: Kind) -> u32
    ensures value { result ≡ default_height kind }
    ensures low { 1 ≤ result }
    ensures high { result ≤ 16 }
{
    match kind {
        Kind::Server => 12,
        Kind::Client => 10,
    }
}

/// The epochs in an option's word, or 1 alone where it isn't given.
fn epochs_of(word: Option<&str>) -> Option<(u32, u32)>
    ensures some { IfSome result (λ p.
        WritesRangeOr 1 4294967295 1 1 (option_map (λ s. s.now) word.entry) p.0 p.1) }
    ensures bounds { IfSome result (λ p. (1 ≤ p.0) × (p.0 ≤ p.1)) }
    ensures none { result ≡ None → IsNoRange 1 4294967295 (option_map (λ s. s.now) word.entry) }
{
    match word {
        Some(word) => range_within(word, 1, u32::MAX),
        None => Some((1, 1)),
    }
}

/// The version of the log in an option's word, or 1 where it isn't given.
fn version_of(word: Option<&str>) -> Option<LogVersion>
    ensures some { IfSome result (λ v. WritesOr 1 2 1 (option_map (λ s. s.now) word.entry) (log_number v)) }
    ensures none { result ≡ None → IsNotWithin 1 2 (option_map (λ s. s.now) word.entry) }
{
    let Some(word) = word else {
        return Some(LogVersion::One);
    };
    match number_within(word, 1, 2) {
        Some(1) => Some(LogVersion::One),
        Some(_) => Some(LogVersion::Two),
        None => None,
    }
}

/// Two numbers from the one to the other, the second no less than the first, if a word is their decimal
/// digits with `-` between; or the number twice whose decimal digits it is.
pub(crate) fn range_within(word: &str, least: u32, most: u32) -> Option<(u32, u32)>
    ensures some { IfSome result (λ p. WritesRange least most word.now p.0 p.1) }
    ensures bounds { IfSome result (λ p. (least ≤ p.0) × (p.0 ≤ p.1) × (p.1 ≤ most)) }
    ensures none { result ≡ None → ¬ (IsRange least most word.now) }
{
    if let Some(number) = number_within(word, least, most) {
        return Some((number, number));
    }
    let (first, last) = word.split_once('-')?;
    ordered(
        number_within(first, least, most),
        number_within(last, least, most),
    )
}

/// Both numbers, if there are two and the second is no less than the first.
fn ordered(first: Option<u32>, last: Option<u32>) -> Option<(u32, u32)>
    ensures some { IfSome result (λ p. (first ≡ Some p.0) × (last ≡ Some p.1) × (p.0 ≤ p.1)) }
    ensures none { result ≡ None → (a b : ℕ) → first ≡ Some a → last ≡ Some b → ¬ (a ≤ b) }
{
    match (first, last) {
        (Some(first), Some(last)) if first <= last => Some((first, last)),
        _ => None,
    }
}
