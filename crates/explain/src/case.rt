//! What a file shows, in words.

use crate::base::add_base;
use crate::entry::add_all_entries;
use crate::facts::Facts;
use crate::file::File;
use crate::fork::{add_closing, add_showings, fork_words};
use crate::lack::lack_of;
use crate::log::{add_fault, add_premises};
use crate::places::Log;
use crate::roster::{accused_fact, add_digest, add_roster};
use crate::state::{add_no_state, add_state};
use challenge::{Case, Charge, Evidence, Finding, Fork, Mark, ReplayFault};
use secure_log::{LogVersion, Roster};
use std::alloc::Global;

/// What is told of a log beside what its finding rests on.
#[derive(Clone, Copy, Debug, PartialEq, Eq)]
pub struct Detail {
    /// Whether all its entries are listed.
    pub entries: bool,
    /// The number of the entry before which the node's state is shown, if one is asked for.
    pub state: Option<u64>,
}

/// What the words `no evidence` don't say.
pub const CLEARS_NOBODY: &str = "no evidence clears nobody: it does not say that a node is honest";

/// What a file shows that holds a case with a finding: its roster, who is accused of what, what was signed,
/// and why it is evidence or why it isn't.
pub fn case_facts(
    alloc: Global,
    file: &File,
    case: &Case,
    trusted: Option<&Roster>,
    detail: Detail,
    finding: Finding,
) -> Facts {
    let mut facts = Facts::new(alloc);
    add_case(&mut facts, file, case, trusted, detail);
    add_finding(&mut facts, &case.roster, &case.evidence, finding);
    facts
}

/// What a file shows whose roster isn't the one that is trusted.
pub fn rejected_facts(
    alloc: Global,
    file: &File,
    case: &Case,
    trusted: &Roster,
    detail: Detail,
) -> Facts {
    let mut facts = Facts::new(alloc);
    add_case(&mut facts, file, case, Some(trusted), detail);
    add_reason(&mut facts, "its roster is not the one that is trusted");
    facts
}

/// What is said of a file that holds no case: the item that begins at this byte doesn't decode.
pub fn no_case_facts(alloc: Global, file: &File, at: usize) -> Facts {
    let mut facts = Facts::new(alloc);
    file.add(&mut facts);
    facts.words("reason", "the file is not a roster with evidence after it");
    facts.number("first byte that does not decode", at as u64);
    facts.words("note", CLEARS_NOBODY);
    facts
}

/// Adds what a file says, without what is found in it.
fn add_case(facts: &mut Facts, file: &File, case: &Case, trusted: Option<&Roster>, detail: Detail) {
    file.add(facts);
    add_roster(facts, &case.roster);
    if let Some(trusted) = trusted {
        add_digest(facts, "trusted roster's sha256", trusted);
    }
    accused_fact(facts, &case.roster, case.evidence.node());
    match case.evidence.charge() {
        Charge::Fork(fork) => {
            facts.words("charge", fork_words(fork));
            add_showings(facts, &case.roster, fork);
            add_no_state(facts, detail.state);
        }
        Charge::Replay(log) => {
            facts.words("charge", "its log has a fault");
            let log = Log::new(&case.roster, log);
            add_log(facts, &log);
            add_detail(facts, &log, detail);
        }
        Charge::Based(based) => {
            facts.words("charge", "its log has a fault after a base");
            add_base(facts, &case.roster, based.base());
            let log = Log::after(&case.roster, based);
            add_log(facts, &log);
            add_detail(facts, &log, detail);
        }
    }
}

/// Adds which entries a log has, and what closes it.
fn add_log(facts: &mut Facts, log: &Log<'_>) {
    facts.group("log");
    facts.number("node", u64::from(log.node()));
    facts.place("first", log.audited.first().get());
    facts.hex("hash before it", &log.audited.opening());
    facts.number("count", log.entries().len() as u64);
    add_contents(facts, log);
    add_closing(facts, log.roster, log.version(), log.audited.closing());
    facts.end();
}

/// Adds which entries a file has, and what follows from them.
fn add_contents(facts: &mut Facts, log: &Log<'_>) {
    let mut draft = facts.draft();
    if log.base.is_some() {
        draft.words(
            "its entries after the base, which --entries lists; what is owed at an entry follows from ",
        );
        draft.words(
            "the base's state, in place of the one that the node begins with, and from the ",
        );
        draft.words("entries between, and --state K shows the state before entry K");
    } else if log.audited.first().get() == 1 {
        draft.words("all entries from 1 to ");
        draft.number(log.last_number());
        draft.words(
            ", which --entries lists; what is owed at an entry follows from those before it, and ",
        );
        draft.words("--state K shows the state before entry K");
    } else {
        draft.words("its entries, which --entries lists, without those before them");
    }
    facts.text("contents", draft);
}

/// Adds what is asked of a log.
fn add_detail(facts: &mut Facts, log: &Log<'_>, detail: Detail) {
    if detail.entries {
        add_all_entries(facts, log);
    }
    if log.is_whole() {
        add_state(facts, log, detail.state);
    } else {
        add_no_state(facts, detail.state);
    }
}

/// Adds why a file is no evidence.
fn add_reason(facts: &mut Facts, reason: &str) {
    facts.words("reason", reason);
    facts.words("note", CLEARS_NOBODY);
}

/// Adds what is found in evidence.
fn add_finding(facts: &mut Facts, roster: &Roster, evidence: &Evidence, finding: Finding) {
    match finding {
        Finding::TwoMarks { at, one, other } => {
            if let Charge::Fork(fork) = evidence.charge() {
                add_two_marks(facts, fork, at.get(), one, other);
            }
        }
        Finding::Fault(fault, number) => match evidence.charge() {
            Charge::Replay(log) => {
                let log = Log::new(roster, log);
                add_found_fault(facts, &log, fault, number.get(), &[LOG_RULES]);
            }
            Charge::Based(based) => {
                let log = Log::after(roster, based);
                add_found_fault(facts, &log, fault, number.get(), &[BASE_PREMISE, LOG_RULES]);
            }
            Charge::Fork(_) => {}
        },
        Finding::NotAccepted(why) => add_reason(facts, lack_of(roster, evidence, why).words()),
    }
}

/// What a fault in a log rests on.
const LOG_RULES: &str =
    "the rules of docs/CHECKING.md, which stand on RFC 1094, RFC 4506 and RFC 5531";

/// What one after a base rests on, too.
const BASE_PREMISE: &str =
    "the state at the base is the one whose digest the log has there, by the signature that closes the base's showing; another signature closes the entries after it, and what the log has before the base is not looked at";

/// Adds a fault that a replay finds in the log of a node, and what that rests on.
fn add_found_fault(
    facts: &mut Facts,
    log: &Log<'_>,
    fault: ReplayFault,
    number: u64,
    premises: &[&str],
) {
    add_fault(facts, log, fault, number);
    add_premises(facts, premises);
}

/// Adds two marks at one number; of one showing alone the hash that a log begins after, and its own.
fn add_two_marks(facts: &mut Facts, fork: &Fork, at: u64, one: Mark, other: Mark) {
    if fork.b.is_some() {
        facts.group(marks_name(fork.log_version));
        facts.place("number", at);
        add_mark(facts, "first showing", one);
        add_mark(facts, "second showing", other);
        facts.end();
        add_premises(facts, &[one_mark_rule(fork.log_version)]);
    } else {
        facts.group("hash before entry 1");
        add_mark(facts, "owed", other);
        add_mark(facts, "given", one);
        facts.end();
        add_premises(
            facts,
            &["the rules of docs/CHECKING.md: a log begins after 32 zero bytes"],
        );
    }
}

/// What two marks are called: in a log of version 1 each is a hash.
fn marks_name(version: LogVersion) -> &'static str {
    match version {
        LogVersion::One => "two hashes",
        LogVersion::Two => "two marks",
    }
}

/// Why a log doesn't show two marks at one number.
fn one_mark_rule(version: LogVersion) -> &'static str {
    match version {
        LogVersion::One => "the rules of docs/CHECKING.md: a log has one hash at each number",
        LogVersion::Two => {
            "the rules of docs/CHECKING.md: a log has one entry at each number, or none"
        }
    }
}

/// Adds what is shown at a number.
fn add_mark(facts: &mut Facts, name: &'static str, mark: Mark) {
    match mark {
        Mark::Hash(hash) => facts.hex(name, &hash),
        Mark::NoEntry => facts.words(name, "no entry"),
    }
}
