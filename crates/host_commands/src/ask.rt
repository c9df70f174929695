//! `nfsacc ask`.

ghost use Rattle.std.specs.Prelude.{◌≡◌, ◌≤◌, IfNone, IfOk, IfSome, MatchResult, max};
ghost use Rattle.host_commands.specs.Findings.{rank};

use crate::assured::assured_in;
use crate::cases::{Wanting, fetch_case};
use crate::control::status_said;
use crate::findings::Finding;
use crate::greeting::{Side, common_roster, connect, report_call};
use crate::opening::{hold_rosters, try_evidence};
use command_line::{AskOrder, AskRequest, HostRefusal, ask_order};
use party_files::HeldRoster;
use peer_calls::{NodeNumber, Told, WitnessRequest};
use peer_connections::{CallFault, PeerCaller};
use program_output::{COMMAND_LINE, report_no_memory, report_output};
use shown_names::ShownName;
use std::alloc::{AllocError, Global};
use std::fs::File;
use std::net::{Net, TcpListener, TcpStream};
use std::random::RandomSource;
use std::rt::Files;
use witness_process::{Indication, NodeTold};
use xdr::texts::{TextFault, read_text};

/// The most bytes of an answer to TOLD.
const MOST_TOLD: u32 = 48;

/// Asks witnesses what they say of nodes, prints a line for each member by rising numbers, and gives the status for the
/// gravest finding: 0 where all are trusted, 7 where one is suspected, that of a witness or a gateway that can't be asked,
/// 8 where one is exposed. All witnesses are asked. Where a gateway is named, a line with what it says that a witness
/// assured it comes after that one's lines.
pub fn ask_witness<R>(rt: &R, request: &AskRequest<'_>) -> u8
where
    R: Files<File = File> + Print + Eprint + AllocGlobal + RandomSource + Clone + Drop,
    R: Net<Listener = TcpListener, Stream = TcpStream>,
{
    let order = match ask_order(rt.alloc(), request) {
        Ok(order) => order,
        Err(HostRefusal::NoMemory) => return report_no_memory(rt),
        Err(refusal) => {
            let _ = eprintln!(rt; "nfsacc: {refusal}");
            return COMMAND_LINE;
        }
    };
    match ask_by_order(rt, &order) {
        Ok(worst) => worst.status(),
        Err(status) => status,
    }
}

/// Asks by an order, and gives the gravest finding.
fn ask_by_order<R>(rt: &R, order: &AskOrder<'_>) -> Result<Finding, u8>
where
    R: Files<File = File> + Print + Eprint + AllocGlobal + RandomSource + Clone + Drop,
    R: Net<Listener = TcpListener, Stream = TcpStream>,
{
    let rosters = match order.rosters {
        Some(folder) => hold_rosters(rt, folder)?,
        None => Vec::new(rt.alloc()),
    };
    try_evidence(rt, order.evidence)?;
    let gateway = match order.state {
        Some(folder) => status_said(rt, folder),
        None => Ok(String::new(rt.alloc())),
    };
    let mut asking = Asking {
        order,
        rosters: rosters.as_slice(),
        gateway: text_or_none(&gateway),
        worst: worst_of(&gateway),
    };
    for witness in order.witnesses.as_slice() {
        asking.ask(rt, witness);
    }
    Ok(asking.worst)
}

/// What was said; no line where that failed.
fn text_or_none(said: &Result<String, u8>) -> &str {
    match said {
        Ok(text) => text.as_str(),
        Err(_) => "",
    }
}

/// What came of asking a gateway.
fn worst_of(said: &Result<String, u8>) -> Finding
    ensures { MatchResult said.now (λ text. result ≡ Finding.Trusted) (λ status. result ≡ Finding.Failed status) }
{
    match said {
        Ok(_) => Finding::Trusted,
        Err(status) => Finding::Failed(*status),
    }
}

/// What is asked, and what was found so far.
#[derive(Drop)]
struct Asking<'a> {
    order: &'a AskOrder<'a>,
    /// The rosters, of which each witness must have one; none where none are named.
    rosters: &'a [HeldRoster],
    /// How the gateway is, by its own words; no line where none is named, or none answers.
    gateway: &'a str,
    /// The gravest finding.
    worst: Finding,
}

impl<'a> Asking<'a> {
    /// Asks a witness, and says what it assured the gateway. What goes wrong is said, and noted.
    fn ask<R>(&mut self, rt: &R, witness: &str)
    where
        R: Files<File = File> + Print + Eprint + AllocGlobal + RandomSource + Clone + Drop,
        R: Net<Listener = TcpListener, Stream = TcpStream>,
        ensures graver { rank self.old.worst ≤ rank self.new.worst }
    {
        if let Err(status) = self.try_ask(rt, witness) {
            self.note(Finding::Failed(status));
        }
        if let Err(status) = self.tell_assured(rt, witness) {
            self.note(Finding::Failed(status));
        }
    }

    /// Prints what a witness assured the gateway, if that says something of it.
    fn tell_assured<R>(&self, rt: &R, witness: &str) -> Result<(), u8>
    where
        R: Print + Eprint + AllocGlobal,
    {
        match assured_in(self.gateway, witness) {
            Some(words) => print_said(rt, witness, self.is_alone(), words),
            None => Ok(()),
        }
    }

    /// Whether one witness is asked alone.
    fn is_alone(&self) -> bool {
        self.order.witnesses.len() == 1
    }

    /// Notes a finding.
    fn note(&mut self, finding: Finding)
        ensures { rank self.new.worst ≡ max (rank self.old.worst) (rank finding) }
    {
        self.worst = self.worst.or(finding);
    }

    /// Asks a witness of each node; or says what is wrong and gives the status for it. What was found before counts on.
    fn try_ask<R>(&mut self, rt: &R, witness: &str) -> Result<(), u8>
    where
        R: Files<File = File> + Print + Eprint + AllocGlobal + RandomSource + Clone + Drop,
        R: Net<Listener = TcpListener, Stream = TcpStream>,
        ensures graver { rank self.old.worst ≤ rank self.new.worst }
    {
        let mut caller = connect(rt, witness)?;
        let wanting = self.wanting(rt, &mut caller, witness)?;
        for node in self.order.first..=self.order.last {
            match told_of(rt.alloc(), &mut caller, node) {
                Ok(Some(told)) => self.take(rt, &mut caller, witness, wanting, &told)?,
                Ok(None) => {}
                Err(fault) => return Err(report_call(rt, witness, fault)),
            }
        }
        Ok(())
    }

    /// Greets a witness, where rosters are named: what evidence of it is wanted for, if it is.
    fn wanting<R>(
        &self,
        rt: &R,
        caller: &mut PeerCaller,
        witness: &str,
    ) -> Result<Option<Wanting<'a>>, u8>
    where
        R: Eprint + AllocGlobal,
    {
        if self.order.rosters.is_none() {
            return Ok(None);
        }
        let held = common_roster(rt, caller, Side::Witness, witness, self.rosters)?;
        match self.order.evidence {
            Some(folder) => Ok(Some(Wanting {
                folder,
                roster: &held.roster,
            })),
            None => Ok(None),
        }
    }

    /// Notes and prints what a witness says of a node, and takes its evidence where that is wanted.
    fn take<R>(
        &mut self,
        rt: &R,
        caller: &mut PeerCaller,
        witness: &str,
        wanting: Option<Wanting<'_>>,
        told: &NodeTold,
    ) -> Result<(), u8>
    where
        R: Files + Print + Eprint + AllocGlobal + RandomSource,
        ensures graver { rank self.old.worst ≤ rank self.new.worst }
        ensures suspected { told.now.indication ≡ Indication.Suspected → rank Finding.Suspected ≤ rank self.new.worst }
        ensures exposed { told.now.indication ≡ Indication.Exposed → rank Finding.Exposed ≤ rank self.new.worst }
    {
        self.note(Finding::of(told.indication));
        print_told(rt, witness, self.is_alone(), told)?;
        match wanting {
            Some(wanting) if told.indication == Indication::Exposed => {
                fetch_case(rt, caller, witness, told.node, wanting)
            }
            _ => Ok(()),
        }
    }
}

/// What the witness says of a node; none where it is no member.
fn told_of(
    alloc: Global,
    caller: &mut PeerCaller,
    node: u32,
) -> Result<Option<NodeTold>, CallFault> {
    let asked = WitnessRequest::Told(NodeNumber { node });
    let answer = caller.ask_witness(&asked, MOST_TOLD)?;
    match read_text::<Told>(alloc, answer.results()) {
        Ok(told) => as_told(node, &told),
        Err(TextFault::NoMemory) => Err(CallFault::NoMemory),
        Err(TextFault::NotAText) => Err(CallFault::NoSuccess),
    }
}

/// What is said of a node by these results.
fn as_told(node: u32, told: &Told) -> Result<Option<NodeTold>, CallFault>
    ensures none { IfOk result (λ o. IfNone o (told.now.standing ≡ 0)) }
    ensures node { IfOk result (λ o. IfSome o (λ t. t.node ≡ node)) }
    ensures trusted { IfOk result (λ o. IfSome o (λ t. t.indication ≡ Indication.Trusted → told.now.standing ≡ 1)) }
    ensures suspected { IfOk result (λ o. IfSome o (λ t. t.indication ≡ Indication.Suspected → told.now.standing ≡ 2)) }
    ensures exposed { IfOk result (λ o. IfSome o (λ t. t.indication ≡ Indication.Exposed → told.now.standing ≡ 3)) }
    ensures open { IfOk result (λ o. IfSome o (λ t. t.open ≡ told.now.open)) }
    ensures end { IfOk result (λ o. IfSome o (λ t. t.end ≡ told.now.end)) }
{
    let indication = match told.standing {
        0 => return Ok(None),
        1 => Indication::Trusted,
        2 => Indication::Suspected,
        3 => Indication::Exposed,
        _ => return Err(CallFault::NoSuccess),
    };
    Ok(Some(NodeTold {
        node,
        indication,
        open: told.open as usize,
        from: None,
        end: told.end,
    }))
}

/// Prints the line of a node, after the witness's address unless that one is asked alone.
fn print_told<R: Print + Eprint + AllocGlobal>(
    rt: &R,
    witness: &str,
    is_alone: bool,
    told: &NodeTold,
) -> Result<(), u8> {
    match told.line(rt.alloc()) {
        Ok(line) => print_said(rt, witness, is_alone, &line),
        Err(AllocError) => Err(report_no_memory(rt)),
    }
}

/// Prints words on a line, after the witness's address unless that one is asked alone.
fn print_said<R: Print + Eprint + AllocGlobal>(
    rt: &R,
    witness: &str,
    is_alone: bool,
    words: &str,
) -> Result<(), u8> {
    let Ok(line) = line_of(rt.alloc(), witness, is_alone, words) else {
        return Err(report_no_memory(rt));
    };
    match rt.println(line.as_str()) {
        Ok(()) => Ok(()),
        Err(error) => Err(report_output(rt, Some(error))),
    }
}

/// A line of these words, after the witness's address unless that one is asked alone.
fn line_of(
    alloc: Global,
    witness: &str,
    is_alone: bool,
    words: &str,
) -> Result<String, AllocError> {
    if is_alone {
        return String::from_str(alloc, words);
    }
    let witness = ShownName::new(witness);
    format!(in alloc; "{witness} {words}")
}
