//! What the words of the command line ask for.

ghost use Rattle.std.specs.Prelude.{◌≡◌, ◌⊎◌, map, codes, None, Some, IfOk, IfErr, IfNone, IfSome};
ghost use Rattle.std.specs.Prelude.{string_bytes};
ghost use Rattle.std.specs.Prelude.{ℕ, List, [], true, false, unwrap_or, option_map};
ghost use Rattle.clap.specs.Faults.{fault_of};
ghost use Rattle.clap.specs.Kinds.{FailsBy};
ghost use Rattle.clap.specs.Walk.{first_of};
ghost use Rattle.clap.specs.Words.{app_of, kind_of, subcommand_name_of, subcommand_of};
ghost use Rattle.clap.specs.Words.{subcommand_rows_of};
ghost use Rattle.std.specs.List.{AllByRecursion};
ghost use Rattle.command_line.specs.Arguments.{row_app};
ghost use Rattle.command_line.specs.CommandLine.{base_command, check_command, commands, roster_command};
ghost use Rattle.command_line.specs.CommandLine.{rpc_command, run_command};
ghost use Rattle.command_line.specs.Keys.{keys_names};
ghost use Rattle.command_line.specs.Hosts.{hosts_names};
ghost use Rattle.command_line.specs.CommandLine.{asked_by, asked_in};
ghost use Rattle.command_line.specs.CommandLine.{is_set, is_told, rows_in};

use crate::arguments::{ArgumentRow, CommandRow, Form, flag, place, with_commands, word};
use crate::hosts::{
    AskRequest, GatewayRequest, ServerRequest, WitnessRequest, ask_row, gateway_row,
    hosts_request_in, server_row, status_row, stop_row, witness_row,
};
use crate::keys::{
    MemberRequest, RostersRequest, keys_request_in, member_row, rosters_row, secret_row,
};
use crate::serve::{ServeRequest, serve_request, serve_row};
use clap::error::ErrorKind;
use clap::{ArgMatches, Command, Error};
use shown_names::VERSION;
use std::alloc::{AllocError, Global};

/// What the command line asks for.
#[derive(Clone, Copy)]
pub enum Request<'a> {
    /// `nfsacc rpc`: records from standard input, replies to standard output.
    Rpc,
    /// `nfsacc check FILE`: whether a file is evidence.
    Check(CheckRequest<'a>),
    /// `nfsacc roster FILE`: the members of the roster in the file of this name; `-` is standard input.
    Roster(&'a str),
    /// `nfsacc base FILE`: whether the base in the file of this name, after a roster, is good; `-` is standard
    /// input.
    Base(&'a str),
    /// `nfsacc run FILE`: the lines of a script.
    Run(RunRequest<'a>),
    /// `nfsacc serve PORT COUNT`: clients over TCP.
    Serve(ServeRequest<'a>),
    /// `nfsacc secret FILE`: a file of secret bytes of this name.
    Secret(&'a str),
    /// `nfsacc member`: the lines that say a node's keys.
    Member(MemberRequest<'a>),
    /// `nfsacc rosters FILE`: the rosters of member lines.
    Rosters(RostersRequest<'a>),
    /// `nfsacc server`: a server on a host of its own.
    Server(ServerRequest<'a>),
    /// `nfsacc gateway`: a user's gateway to a server.
    Gateway(GatewayRequest<'a>),
    /// `nfsacc witness`: a witness on a host of its own.
    Witness(WitnessRequest<'a>),
    /// `nfsacc ask HOST:PORT`: what a witness knows.
    Ask(AskRequest<'a>),
    /// `nfsacc stop DIR`: an end of the process of the state folder of this name.
    Stop(&'a str),
    /// `nfsacc status DIR`: what the process of the state folder of this name says of itself.
    Status(&'a str),
}

/// What `nfsacc check` is asked.
#[derive(Clone, Copy)]
pub struct CheckRequest<'a> {
    /// The name of the file; `-` is standard input.
    pub file: &'a str,
    /// Whether what it shows is asked for, too.
    pub explain: bool,
    /// Whether all entries of the log are, too.
    pub entries: bool,
    /// The number of the entry before which the node's state is shown, as it is written, if one is named.
    pub state: Option<&'a str>,
    /// Whether one JSON object with both is asked for.
    pub json: bool,
    /// The name of the file with the roster that is trusted, if one is named; `-` is standard input.
    pub roster: Option<&'a str>,
}

/// What `nfsacc run` is asked.
#[derive(Clone, Copy)]
pub struct RunRequest<'a> {
    /// The name of the script's file; `-` is standard input.
    pub file: &'a str,
    /// The name of the file that the roster's text goes to, if one is named.
    pub roster_out: Option<&'a str>,
    /// What the names of the files that bases go to begin with, if it is given.
    pub base_out: Option<&'a str>,
    /// The name of the file with the base at which the first witness begins, if one is named.
    pub base: Option<&'a str>,
}

/// What the help of `run` ends with.
const RUN_EXAMPLE: &str = "Example:
  node 1 server 4
  node 2 client 4
  call 2 1 000000010000000000000002000186a3000000020000000000000000000000000000000000000000
  audit 1
  answer 1
  replay 1
  ask 1

Statuses: 0 done, 1 a fault in the input, 2 the command line, 3 no memory, 4 a device";

/// What the help of `check` ends with.
const CHECK_NOTES: &str =
    "The first line is `exposed N`, of the node N that the evidence names, or `no evidence`.

`exposed N` is worth as much as the file's roster: it must be the service's own, with all of its members, each
with its number, kind, height and key. --roster compares it as a whole. `no evidence` clears nobody.

Statuses: 0 exposed, 1 no evidence, 2 the command line or --roster, 3 no memory, 4 a device";

const CHECKED_HELP: &str =
    "A roster's text, and after it that of evidence; `-` reads it from standard input";

const ENTRIES_HELP: &str = "Says what the file shows, with all entries of the log";

const STATE_HELP: &str =
    "Says what the file shows, with the state of the node before entry K, from 1 on";

const TRUSTED_HELP: &str =
    "Takes evidence under the roster of this file alone; `-` reads it from standard input";

const ROSTER_HELP: &str =
    "A roster's text, alone or with that of evidence after it; `-` reads it from standard input";

const ROSTER_OUT_HELP: &str = "Writes the text of the nodes' roster to this file";

const BASE_HELP: &str =
    "A roster's text, and after it that of a base; `-` reads it from standard input";

const BASE_NOTES: &str =
    "The line is `base N K`, of the node N and the number K of its log at which a witness may begin, or `no base`.

Statuses: 0 a base, 1 no base, 2 the command line, 3 no memory, 4 a device";

const BASE_OUT_HELP: &str =
    "Writes the roster and the base of each CHECK that a line `mark` logs to PREFIX.N.K";

const BASE_IN_HELP: &str =
    "Lets the first witness begin at the base in this file, which stands after a roster there";

/// The row of the subcommand `rpc`.
fn rpc_row() -> CommandRow<'static>
    ensures { (row_app result).top ≡ rpc_command }
{
    CommandRow {
        name: "rpc",
        about: "Answers the RPC records of standard input on standard output, as the server of node 1",
        notes: None,
        arguments: &[],
    }
}

/// The arguments of `check`.
static CHECK_ARGUMENTS: [ArgumentRow<'static>; 6] = [
    flag!("explain", "Says what the file shows, too"),
    flag!("entries", ENTRIES_HELP),
    word!("state", "K", STATE_HELP),
    flag!("json", "Says all of it as one JSON object"),
    word!("roster", "FILE", TRUSTED_HELP),
    place!("file", "FILE", CHECKED_HELP),
];

/// The row of the subcommand `check`.
fn check_row() -> CommandRow<'static>
    ensures { row_app result ≡ check_command }
{
    CommandRow {
        name: "check",
        about: "Says whether a file is evidence that its roster accepts",
        notes: Some(CHECK_NOTES),
        arguments: &CHECK_ARGUMENTS,
    }
}

/// The arguments of `roster`.
static ROSTER_ARGUMENTS: [ArgumentRow<'static>; 1] = [place!("file", "FILE", ROSTER_HELP)];

/// The row of the subcommand `roster`.
fn roster_row() -> CommandRow<'static>
    ensures { row_app result ≡ roster_command }
{
    CommandRow {
        name: "roster",
        about: "Says whose keys a roster has, and the digest of its text",
        notes: None,
        arguments: &ROSTER_ARGUMENTS,
    }
}

/// The arguments of `base`.
static BASE_ARGUMENTS: [ArgumentRow<'static>; 1] = [place!("file", "FILE", BASE_HELP)];

/// The row of the subcommand `base`.
fn base_row() -> CommandRow<'static>
    ensures { row_app result ≡ base_command }
{
    CommandRow {
        name: "base",
        about: "Says whether a file has a base that is good under its roster",
        notes: Some(BASE_NOTES),
        arguments: &BASE_ARGUMENTS,
    }
}

/// The arguments of `run`.
static RUN_ARGUMENTS: [ArgumentRow<'static>; 4] = [
    word!("roster-out", "FILE", ROSTER_OUT_HELP),
    word!("base-out", "PREFIX", BASE_OUT_HELP),
    word!("base", "FILE", BASE_IN_HELP),
    place!(
        "file",
        "FILE",
        "The script; `-` reads it from standard input"
    ),
];

/// The row of the subcommand `run`.
fn run_row() -> CommandRow<'static>
    ensures { row_app result ≡ run_command }
{
    CommandRow {
        name: "run",
        about: "Runs a script of nodes, lies, forks and audits; `-` reads it from standard input",
        notes: Some(RUN_EXAMPLE),
        arguments: &RUN_ARGUMENTS,
    }
}

/// What `nfsacc` takes on its command line.
fn commands<'a>(alloc: Global) -> Result<Command<'a>, AllocError>
    ensures { IfOk result (λ c. app_of c ≡ commands) }
{
    let nfsacc = Command::new(alloc, "nfsacc")
        .version(VERSION)
        .about("An accountable file service: NFS version 2 whose servers can be held to account")
        .subcommand_required(true)
        .arg_required_else_help(true);
    let rows = [
        rpc_row(),
        check_row(),
        roster_row(),
        base_row(),
        run_row(),
        serve_row(),
        secret_row(),
        member_row(),
        rosters_row(),
        server_row(),
        gateway_row(),
        witness_row(),
        ask_row(),
        stop_row(),
        status_row(),
    ];
    with_commands(alloc, nfsacc, &rows)
}

/// The text of an argument that must be given.
pub(crate) fn text_of<'a>(matches: &ArgMatches<'a>, id: &str) -> &'a str
    ensures { result.now ≡ unwrap_or (first_of id.now (rows_in matches.now)) [] }
{
    matches.get_str(id).unwrap_or("")
}

/// Whether a flag is set.
pub(crate) fn flag_of(matches: &ArgMatches<'_>, id: &str) -> bool
    ensures { is_told id.now (rows_in matches.now) ≡ true
        → result ≡ is_set id.now (rows_in matches.now) }
{
    matches.get_flag(id)
}

/// What `check` is asked.
fn check_request<'a>(matches: &ArgMatches<'a>) -> CheckRequest<'a>
    ensures file { result.file.now ≡ unwrap_or (first_of (codes "file") (rows_in matches.now)) [] }
    ensures explain { is_told (codes "explain") (rows_in matches.now) ≡ true
        → result.explain ≡ is_set (codes "explain") (rows_in matches.now) }
    ensures entries { is_told (codes "entries") (rows_in matches.now) ≡ true
        → result.entries ≡ is_set (codes "entries") (rows_in matches.now) }
    ensures state { option_map (λ s. s.now) result.state
        ≡ first_of (codes "state") (rows_in matches.now) }
    ensures json { is_told (codes "json") (rows_in matches.now) ≡ true
        → result.json ≡ is_set (codes "json") (rows_in matches.now) }
    ensures roster { option_map (λ s. s.now) result.roster
        ≡ first_of (codes "roster") (rows_in matches.now) }
{
    CheckRequest {
        file: text_of(matches, "file"),
        explain: flag_of(matches, "explain"),
        entries: flag_of(matches, "entries"),
        state: matches.get_str("state"),
        json: flag_of(matches, "json"),
        roster: matches.get_str("roster"),
    }
}

/// What `run` is asked.
fn run_request<'a>(matches: &ArgMatches<'a>) -> RunRequest<'a>
    ensures file { result.file.now ≡ unwrap_or (first_of (codes "file") (rows_in matches.now)) [] }
    ensures roster_out { option_map (λ s. s.now) result.roster_out
        ≡ first_of (codes "roster-out") (rows_in matches.now) }
    ensures base_out { option_map (λ s. s.now) result.base_out
        ≡ first_of (codes "base-out") (rows_in matches.now) }
    ensures base { option_map (λ s. s.now) result.base ≡ first_of (codes "base") (rows_in matches.now) }
{
    RunRequest {
        file: text_of(matches, "file"),
        roster_out: matches.get_str("roster-out"),
        base_out: matches.get_str("base-out"),
        base: matches.get_str("base"),
    }
}

/// The request that is made, by the matches of words that are taken.
fn request_in<'a>(matches: &ArgMatches<'a>) -> Request<'a>
    ensures { (words : List (List ℕ)) → fault_of commands words ≡ []
        → subcommand_rows_of matches.now ≡ subcommand_of commands words
        → asked_in words ≡ Some (asked_by result) }
{
    if let Some(check) = matches.subcommand_matches("check") {
        return Request::Check(check_request(check));
    }
    if let Some(roster) = matches.subcommand_matches("roster") {
        return Request::Roster(text_of(roster, "file"));
    }
    if let Some(base) = matches.subcommand_matches("base") {
        return Request::Base(text_of(base, "file"));
    }
    if let Some(run) = matches.subcommand_matches("run") {
        return Request::Run(run_request(run));
    }
    if let Some(serve) = matches.subcommand_matches("serve") {
        return Request::Serve(serve_request(serve));
    }
    match more_request_in(matches) {
        Some(request) => request,
        None => Request::Rpc,
    }
}

/// The request of one of the commands of keys or of parties on hosts of their own, if it is one of them.
fn more_request_in<'a>(matches: &ArgMatches<'a>) -> Option<Request<'a>>
    ensures some { IfSome result (λ r. (words : List (List ℕ)) → fault_of commands words ≡ []
        → subcommand_rows_of matches.now ≡ subcommand_of commands words
        → asked_in words ≡ Some (asked_by r)) }
    ensures keys { IfNone result (AllByRecursion (λ name. subcommand_name_of matches.now ≡ Some name
        → ⊥) keys_names) }
    ensures hosts { IfNone result (AllByRecursion (λ name. subcommand_name_of matches.now ≡ Some name
        → ⊥) hosts_names) }
{
    match keys_request_in(matches) {
        Some(request) => Some(request),
        None => hosts_request_in(matches),
    }
}

/// The same as `parse`.
fn request_by_rules(alloc: Global, words: &[String]) -> Result<Request<'_>, Error>
    ensures ok { IfOk result (λ r. asked_in (map string_bytes words.now) ≡ Some (asked_by r)) }
    ensures kinds { FailsBy (fault_of commands (map string_bytes words.now)) result }
{
    let matches = commands(alloc)?.try_get_matches_from(words)?;
    Ok(request_in(&matches))
}

/// The request that the words of a command line make, the program's name first: `rpc` alone, or with `--`
/// after it, is `Rpc`; `check` with a file's name is `Check`, with or without `--explain`, `--entries`,
/// `--json`, `--state` with a word and `--roster` with another name, in any order; `roster` with a file's
/// name is `Roster`, `base` with one `Base`; `run` with a file's name is `Run`, with `--roster-out`,
/// `--base-out` and `--base`, each with another name, before it or after it, or without; `serve` with two
/// words is `Serve`, with its options before, between or after them; and so on for the commands of keys and of
/// parties on hosts of their own, whose help lists their options.
/// After `--` each word is a name. It comes exactly where clap's rules find no fault in the words, memory
/// aside, and has what they say the words hold.
/// The error says what is wrong with other words, or is the help or the version that they ask for: its kind
/// is one of those that the rules give, or OutOfMemory where memory was refused.
pub fn parse(alloc: Global, words: &[String]) -> Result<Request<'_>, Error>
    ensures ok { IfOk result (λ r. asked_in (map string_bytes words.now) ≡ Some (asked_by r)) }
    ensures err { IfErr result (λ e.
        (kind_of e ≡ ErrorKind.OutOfMemory) ⊎ (asked_in (map string_bytes words.now) ≡ None)) }
    ensures kinds { FailsBy (fault_of commands (map string_bytes words.now)) result }
{
    request_by_rules(alloc, words)
}
