//! What is asked of a witness is done, and its results are written.

ghost use Rattle.std.specs.Prelude.{◌≡◌, ◌++◌, List, ℕ, IfOk, OnErr, OnOk, length, map, option_map};
ghost use Rattle.std.specs.Arc.{arc_value};
ghost use Rattle.xdr.specs.Item.{optional, spelling};
ghost use Rattle.xdr.specs.Writing.{Adds};
ghost use Rattle.witness_books.specs.node_book.Replies.{challenge_in, indication_in};
ghost use Rattle.peer_calls.specs.Arguments.{numbers_item, numbers_value};
ghost use Rattle.peer_calls.specs.WitnessRequests.{witness_ask};
ghost use Rattle.witness_books.specs.Books.{beginning_of};
ghost use Rattle.peer_calls.specs.Answers.{case_text, told_item};
ghost use Rattle.watching.specs.Answers.{Does, IsGreeted, MayDo, audit_of, case_file, case_results, case_sent};
ghost use Rattle.watching.specs.Answers.{message_text, messages_of, messages_text, seconds_of, shown_results};
ghost use Rattle.watching.specs.Answers.{standing_number, told_results, wanted_results};

use crate::bases::add_based;
use crate::standing::Standing;
use crate::told::NodeTold;
use authenticator::{Authenticator, Roster};
use challenge::{Challenge, Evidence};
use packets::{write_challenge, write_learn};
use peer_calls::{Greeting, MAX_CASE, Numbers, WitnessRequest};
use std::alloc::{AllocError, Global};
use std::sync::Arc;
use witness_books::Indication;
use witness_calls::{SignatureCache, write_case};
use xdr::Writer;

/// When the oldest open challenge to a node was opened.
#[derive(Clone, Copy, Debug)]
pub struct Opened {
    /// The node.
    pub node: u32,
    /// The reading of the clock, in seconds.
    pub at: u64,
}

/// What a witness answers by, besides its books.
#[derive(Drop)]
pub struct Host {
    /// The digest of the text of its roster.
    pub digest: [u8; 32],
    /// The reading of its clock, in seconds.
    pub time: u64,
    /// When the oldest open challenge to each node was opened, where one is open.
    pub opened: Vec<Opened>,
}

/// How many seconds ago the oldest open challenge to a node was opened; 0 of a node that isn't listed.
fn seconds_of(time: u64, opened: &[Opened], node: u32) -> u64
    ensures { result ≡ seconds_of time opened.now node }
{
    let mut rest = opened;
    while let [first, others @ ..] = rest {
        if first.node == node {
            return time.saturating_sub(first.at);
        }
        rest = others;
    }
    0
}

/// Has a request done, and appends its results. Where memory is refused, a part of them may stand.
pub(crate) fn add_results(
    standing: &mut Standing,
    alloc: Global,
    cache: &mut SignatureCache,
    host: &Host,
    request: &WitnessRequest<'_>,
    out: &mut Vec<u8>,
) -> Result<(), AllocError>
    ensures beginning { beginning_of standing.new.books ≡ beginning_of standing.old.books }
    ensures done { OnOk result ((results : List ℕ)
        × Does host.now standing.old (witness_ask request.now) results standing.new
        × (out.new.items ≡ out.old.items ++ results)) }
    ensures refused { OnErr result (MayDo standing.old (witness_ask request.now) standing.new) }
{
    match request {
        WitnessRequest::Null => Ok(()),
        WitnessRequest::Greet(greeting) => add_greeted(greeting, &host.digest, out),
        WitnessRequest::Deliver(packet) => {
            let became = standing.deliver(alloc, cache, packet)?;
            out.put_u32(became.number())
        }
        WitnessRequest::Wanted(asked) => {
            let challenges = standing.wanted(alloc, asked.node)?;
            add_wanted(&challenges, out)
        }
        WitnessRequest::Told(asked) => {
            let told = standing.told(alloc, asked.node)?;
            add_told(host, told, out)
        }
        WitnessRequest::Shown(asked) => add_shown(standing.shown(asked.node), out),
        WitnessRequest::Case(asked) => {
            let evidence = standing.evidence(alloc, asked.node)?;
            add_case(alloc, standing.books().roster(), evidence, out)
        }
        WitnessRequest::Base(asked) => add_based(standing.books(), alloc, asked, out),
    }
}

/// Appends whether both go by one roster.
fn add_greeted(greeting: &Greeting, own: &[u8; 32], out: &mut Vec<u8>) -> Result<(), AllocError>
    ensures { OnOk result ((results : List ℕ) × IsGreeted greeting.now.digest own.now results
        × (out.new.items ≡ out.old.items ++ results)) }
{
    if greeting.digest == *own {
        return out.put_u32(0);
    }
    out.put_u32(1)?;
    out.put_fixed(own)
}

/// Appends what a node is to answer: the audit that is open, if one is, and the messages that are.
fn add_wanted(challenges: &[Challenge], out: &mut Vec<u8>) -> Result<(), AllocError>
    ensures { Adds (wanted_results (map challenge_in challenges.now)) out.old.items result out.new.items }
{
    let Ok(count) = u32::try_from(count_messages(challenges)) else {
        return Err(AllocError);
    };
    add_audit(audit_among(challenges), out)?;
    out.put_u32(count)?;
    add_messages(challenges, out)
}

/// What the audit among some challenges asks for, if one is.
fn audit_among(challenges: &[Challenge]) -> Option<Numbers>
    ensures { option_map numbers_value result ≡ audit_of (map challenge_in challenges.now) }
{
    let mut rest = challenges;
    while let [challenge, others @ ..] = rest {
        if let Challenge::Audit { first, last } = challenge {
            return Some(Numbers {
                first: first.get(),
                last: last.get(),
            });
        }
        rest = others;
    }
    None
}

/// How many of some challenges are messages.
fn count_messages(challenges: &[Challenge]) -> usize
    ensures { result ≡ length (messages_of (map challenge_in challenges.now)) }
{
    let mut count = 0;
    let mut rest = challenges;
    while let [challenge, others @ ..] = rest {
        if let Challenge::Send(_) = challenge {
            count += 1;
        }
        rest = others;
    }
    count
}

/// Appends an audit, or that there is none.
fn add_audit(audit: Option<Numbers>, out: &mut Vec<u8>) -> Result<(), AllocError>
    ensures { Adds (spelling (optional numbers_item) (option_map numbers_value audit))
        out.old.items result out.new.items }
{
    let Some(numbers) = audit else {
        return out.put_bool(false);
    };
    out.put_bool(true)?;
    out.put_u64(numbers.first)?;
    out.put_u64(numbers.last)
}

/// Appends the packets of the messages among some challenges.
fn add_messages(challenges: &[Challenge], out: &mut Vec<u8>) -> Result<(), AllocError>
    ensures { Adds (messages_text (map challenge_in challenges.now)) out.old.items result out.new.items }
{
    let mut rest = challenges;
    while let [challenge, others @ ..] = rest {
        add_message(challenge, out)?;
        rest = others;
    }
    Ok(())
}

/// Appends the packet of a challenge's message, or nothing of an audit.
fn add_message(challenge: &Challenge, out: &mut Vec<u8>) -> Result<(), AllocError>
    ensures { Adds (message_text (challenge_in challenge.now)) out.old.items result out.new.items }
{
    match challenge {
        Challenge::Audit { first: _, last: _ } => Ok(()),
        Challenge::Send(envelope) => write_challenge(&envelope.view(), out),
    }
}

/// The number of an indication.
fn standing_number(indication: Indication) -> u32
    ensures { result ≡ standing_number (indication_in indication) }
{
    match indication {
        Indication::Trusted => 1,
        Indication::Suspected => 2,
        Indication::Exposed => 3,
    }
}

/// Appends what is told of a node, or of one who is no member.
fn add_told(host: &Host, told: Option<NodeTold>, out: &mut Vec<u8>) -> Result<(), AllocError>
    ensures { Adds (told_results host.now told) out.old.items result out.new.items }
{
    let Some(told) = told else {
        return add_standing(0, 0, 0, 0, out);
    };
    let Ok(count) = u32::try_from(told.open) else {
        return Err(AllocError);
    };
    let seconds = if count == 0 {
        0
    } else {
        seconds_of(host.time, &host.opened, told.node)
    };
    add_standing(
        standing_number(told.indication),
        count,
        told.end,
        seconds,
        out,
    )
}

/// Appends the words of what is told.
fn add_standing(
    standing: u32,
    count: u32,
    end: u64,
    seconds: u64,
    out: &mut Vec<u8>,
) -> Result<(), AllocError>
    ensures { Adds (spelling told_item (standing, (count, (end, seconds))))
        out.old.items result out.new.items }
{
    out.put_u32(standing)?;
    out.put_u32(count)?;
    out.put_u64(end)?;
    out.put_u64(seconds)
}

/// Appends the packet of what a node showed last, if it showed something.
fn add_shown(shown: Option<&Authenticator>, out: &mut Vec<u8>) -> Result<(), AllocError>
    ensures { Adds (shown_results (option_map (λ a. a.now) shown.entry)) out.old.items result out.new.items }
{
    let Some(authenticator) = shown else {
        return out.put_bool(false);
    };
    out.put_bool(true)?;
    write_learn(authenticator, out)
}

/// Appends the file with the evidence against a node, if there is some, or how many bytes it has where these are
/// too many.
fn add_case(
    alloc: Global,
    roster: &Roster,
    evidence: Option<Arc<Evidence>>,
    out: &mut Vec<u8>,
) -> Result<(), AllocError>
    ensures { Adds (case_results roster.now (option_map arc_value evidence)) out.old.items result out.new.items }
{
    let Some(evidence) = evidence else {
        return out.put_u32(0);
    };
    let file = file_of(alloc, roster, &evidence)?;
    add_file(&file, out)
}

/// The bytes of the file with some evidence.
fn file_of(alloc: Global, roster: &Roster, evidence: &Evidence) -> Result<Vec<u8>, AllocError>
    ensures { IfOk result (λ file. file.items ≡ case_file roster.now evidence.now) }
{
    let mut file = Vec::new(alloc);
    write_case(roster, evidence, &mut file)?;
    Ok(file)
}

/// Appends the bytes of a file, or how many they are where these are too many.
fn add_file(file: &[u8], out: &mut Vec<u8>) -> Result<(), AllocError>
    ensures { Adds (case_text (case_sent file.now)) out.old.items result out.new.items }
{
    if file.len() > MAX_CASE as usize {
        out.put_u32(2)?;
        return out.put_u64(file.len() as u64);
    }
    out.put_u32(1)?;
    out.put_opaque(file)
}
