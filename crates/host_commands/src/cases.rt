//! Evidence that a witness has, as it is fetched.

ghost use Rattle.std.specs.Prelude.{◌↔◌, IfOk, IsTrue};
ghost use Rattle.host_commands.specs.GoodCases.{IsGood, IsGoodCase, IsJudged};

use crate::greeting::report_call;
use authenticator::Roster;
use challenge::{Case as CaseFile, EvidenceFault, check_evidence, read_case as read_file};
use party_files::DurableShelf;
use peer_calls::{Case, MAX_CASE, NodeNumber, ResultsFault, WitnessRequest, read_case};
use peer_connections::{Answer, CallFault, PeerCaller};
use program_output::{report_file, report_no_memory};
use shown_names::ShownName;
use std::alloc::{AllocError, Global};
use std::random::RandomSource;
use std::rt::Files;
use witness_process::Shelf;

/// The most bytes of an answer to CASE beside those of the file.
const AROUND: u32 = 32;

/// Where evidence goes, and by which roster it is judged.
#[derive(Clone, Copy)]
pub(crate) struct Wanting<'a> {
    pub(crate) folder: &'a str,
    pub(crate) roster: &'a Roster,
}

/// Asks a witness for its evidence against a node, and puts it at `node-N.evidence` where it is good. Says why it isn't
/// put, and gives the status for that where the witness can't be asked further or the file can't be put.
pub(crate) fn fetch_case<R>(
    rt: &R,
    caller: &mut PeerCaller,
    witness: &str,
    node: u32,
    wanting: Wanting<'_>,
) -> Result<(), u8>
where
    R: Files + Eprint + AllocGlobal + RandomSource,
{
    let alloc = rt.alloc();
    let answer = match ask_case(caller, node) {
        Ok(answer) => answer,
        Err(fault) => return Err(report_call(rt, witness, fault)),
    };
    match read_case(alloc, answer.results()) {
        Ok(Case::Here(file)) => take_case(rt, witness, node, wanting, file),
        Ok(Case::NoCase) => Ok(say(rt, witness, node, Lack::None)),
        Ok(Case::TooLarge(length)) => Ok(say(rt, witness, node, Lack::TooLarge(length))),
        Err(ResultsFault::NoMemory) => Err(report_no_memory(rt)),
        Err(ResultsFault::Garbage) => Err(report_call(rt, witness, CallFault::NoSuccess)),
    }
}

/// Asks a witness for its evidence against a node.
fn ask_case(caller: &mut PeerCaller, node: u32) -> Result<Answer, CallFault> {
    let asked = WitnessRequest::Case(NodeNumber { node });
    caller.ask_witness(&asked, MAX_CASE + AROUND)
}

/// Puts a file of evidence where it is good.
fn take_case<R>(
    rt: &R,
    witness: &str,
    node: u32,
    wanting: Wanting<'_>,
    file: &[u8],
) -> Result<(), u8>
where
    R: Files + Eprint + AllocGlobal + RandomSource,
{
    match is_good_file(rt.alloc(), wanting.roster, node, file) {
        Ok(true) => put_case(rt, node, wanting, file),
        Ok(false) => Ok(say(rt, witness, node, Lack::NotGood)),
        Err(AllocError) => Err(report_no_memory(rt)),
    }
}

/// Whether bytes are a roster and evidence against a node that is accepted under it.
#[tactic(auto, using(crate::proofs::OfCases::judged, crate::proofs::OfCases::no_text))]
fn is_good_file(alloc: Global, roster: &Roster, node: u32, bytes: &[u8]) -> Result<bool, AllocError>
    ensures { IfOk result (IsJudged roster.now node bytes.now) }
{
    let mut copy = Vec::new(alloc);
    copy.extend_from_slice(bytes)?;
    let case = match read_file(alloc, copy) {
        Ok(case) => case,
        Err(EvidenceFault::Garbage) => return Ok(false),
        Err(EvidenceFault::NoMemory) => return Err(AllocError),
    };
    is_good(alloc, roster, node, &case)
}

/// Whether a case is of a roster, and its evidence is against a node and accepted under it.
fn is_good(alloc: Global, roster: &Roster, node: u32, case: &CaseFile) -> Result<bool, AllocError>
    ensures { IfOk result (λ good. IsTrue good ↔ IsGood roster.now node case.now) }
{
    if !roster.is_same(&case.roster) || case.evidence.node() != node {
        return Ok(false);
    }
    check_evidence(alloc, roster, &case.evidence)
}

/// Puts a file of good evidence in its place.
fn put_case<R>(rt: &R, node: u32, wanting: Wanting<'_>, file: &[u8]) -> Result<(), u8>
where
    R: Files + Eprint + AllocGlobal + RandomSource,
    requires { IsGoodCase wanting.roster.now node file.now }
{
    let folder = wanting.folder;
    let Ok(name) = format!(in rt.alloc(); "{folder}/node-{node}.evidence") else {
        return Err(report_no_memory(rt));
    };
    match DurableShelf::new(rt, rt.alloc()).put(&name, file) {
        Ok(()) => Ok(()),
        Err(error) => Err(report_file(rt, &name, &error)),
    }
}

/// Why no evidence is put.
#[derive(Clone, Copy)]
enum Lack {
    /// The witness has none.
    None,
    /// It has some of so many bytes, which it doesn't send.
    TooLarge(u64),
    /// It isn't accepted, or not under this roster, or not against this node.
    NotGood,
}

/// Says why no evidence against a node is put.
fn say(rt: &impl Eprint, witness: &str, node: u32, lack: Lack) {
    let witness = ShownName::new(witness);
    let _ = match lack {
        Lack::None => eprintln!(rt; "nfsacc: {witness}: it has no evidence against {node}"),
        Lack::TooLarge(length) => {
            eprintln!(rt;
                "nfsacc: {witness}: its evidence against {node} has {length} bytes, which it doesn't send"
            )
        }
        Lack::NotGood => eprintln!(rt; "nfsacc: {witness}: its evidence against {node} isn't good"),
    };
}
