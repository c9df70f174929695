//! What the words after `server`, `gateway`, `witness`, `ask`, `stop` and `status` ask for.

ghost use Rattle.std.specs.Prelude.{◌≡◌, codes, List, ℕ, [], IfNone, IfSome, Some, option_map, true};
ghost use Rattle.std.specs.Prelude.{unwrap_or};
ghost use Rattle.std.specs.List.{AllByRecursion};
ghost use Rattle.clap.specs.Faults.{fault_of};
ghost use Rattle.clap.specs.Walk.{first_of};
ghost use Rattle.clap.specs.Words.{subcommand_name_of, subcommand_of, subcommand_rows_of};
ghost use Rattle.command_line.specs.CommandLine.{asked_by, asked_in, commands, is_set, is_told, rows_in};
ghost use Rattle.command_line.specs.Arguments.{row_app};
ghost use Rattle.command_line.specs.Hosts.{ask_command, gateway_command, hosts_names, server_command};
ghost use Rattle.command_line.specs.Hosts.{status_command, stop_command, witness_command};

use crate::arguments::{ArgumentRow, CommandRow, Form, flag, needed, place, word};
use crate::request::{Request, flag_of, text_of};
use crate::serve::word_of;
use clap::ArgMatches;

/// What `nfsacc server` is asked, word by word.
#[derive(Clone, Copy)]
pub struct ServerRequest<'a> {
    /// The name of the file with the secret bytes.
    pub secret: &'a str,
    /// The name of the folder with the rosters.
    pub rosters: &'a str,
    /// The name of the folder of the control socket.
    pub state: &'a str,
    /// The node's number.
    pub node: &'a str,
    /// Where gateways connect.
    pub listen: &'a str,
    /// Where witnesses connect, if it is named.
    pub audit: Option<&'a str>,
    /// After how many calls the server logs a CHECK, if that is given.
    pub check_every: Option<&'a str>,
    /// Whether it is told how far the keys are.
    pub progress: bool,
    /// The name of the file that its lines go to as well, if one is named.
    pub log_file: Option<&'a str>,
}

/// What `nfsacc gateway` is asked, word by word.
#[derive(Clone, Copy)]
pub struct GatewayRequest<'a> {
    /// The name of the file with the secret bytes.
    pub secret: &'a str,
    /// The user's first and last number, or one alone.
    pub nodes: &'a str,
    /// The server's number, and where it listens.
    pub server: &'a str,
    /// The name of the folder with the rosters.
    pub rosters: &'a str,
    /// The name of the folder of the control socket.
    pub state: &'a str,
    /// Where witnesses listen, if some are named.
    pub witness: Option<&'a str>,
    /// Where local programs connect, if it is named.
    pub listen: Option<&'a str>,
    /// How often witnesses are told, if that is given.
    pub every: Option<&'a str>,
    /// How many calls are kept for what is still to be received, if that is given.
    pub reserve: Option<&'a str>,
    /// After how long a call is given up, if that is given.
    pub give_up: Option<&'a str>,
    /// Whether it is told what witnesses assure.
    pub progress: bool,
    /// The name of the file that its lines go to as well, if one is named.
    pub log_file: Option<&'a str>,
}

/// What `nfsacc witness` is asked, word by word.
#[derive(Clone, Copy)]
pub struct WitnessRequest<'a> {
    /// The name of the folder with the rosters.
    pub rosters: &'a str,
    /// Where servers give out their logs.
    pub at: &'a str,
    /// Where others connect.
    pub listen: &'a str,
    /// Where other witnesses listen, if some are named.
    pub witness: Option<&'a str>,
    /// How often servers are asked, if that is given.
    pub every: Option<&'a str>,
    /// After how long without an answer a node is said to be suspected, if that is given.
    pub patience: Option<&'a str>,
    /// For how long books stand beside those that went on from them by a base, if that is given.
    pub overlap: Option<&'a str>,
    /// The name of the folder that evidence goes to, if one is named.
    pub evidence: Option<&'a str>,
    /// The epoch, if it is named.
    pub epoch: Option<&'a str>,
    /// Whether it begins at the last base that each server gives.
    pub join: bool,
    /// The name of the folder of the control socket, if one is named.
    pub state: Option<&'a str>,
    /// The name of the file that its lines go to as well, if one is named.
    pub log_file: Option<&'a str>,
}

/// What `nfsacc ask` is asked, word by word.
#[derive(Clone, Copy)]
pub struct AskRequest<'a> {
    /// The name of the folder with the rosters, if one is named.
    pub rosters: Option<&'a str>,
    /// The first and the last number that is asked for, or one alone, if they are named.
    pub nodes: Option<&'a str>,
    /// The name of the folder that evidence goes to, if one is named.
    pub evidence: Option<&'a str>,
    /// The name of the folder of the control socket of this machine's gateway, if one is named.
    pub state: Option<&'a str>,
    /// Where witnesses listen.
    pub witness: &'a str,
}

const SERVER_SECRET_HELP: &str = "The party's file of 32 secret bytes";

const SERVER_ROSTERS_HELP: &str = "The folder with the roster of each epoch";

const SERVER_STATE_HELP: &str = "The folder of the control socket; nobody but its owner may use it";

const SERVER_NODE_HELP: &str = "The node's number, 1 to 64";

const SERVER_LISTEN_HELP: &str = "Where gateways connect, and witnesses without --audit";

const SERVER_AUDIT_HELP: &str = "Where witnesses connect";

const SERVER_CHECK_EVERY_HELP: &str =
    "Logs a CHECK after each N calls, 1 to 16384; none where it isn't given";

const SERVER_PROGRESS_HELP: &str =
    "Tells on standard error how far the keys are, each line with its time";

const GATEWAY_SECRET_HELP: &str = "The party's file of 32 secret bytes";

const GATEWAY_NODES_HELP: &str =
    "The user's numbers, as 2-9 or one alone, 1 to 64; each start takes the next one";

const GATEWAY_SERVER_HELP: &str = "The server's number, and where it listens";

const GATEWAY_ROSTERS_HELP: &str = "The folder with the roster of each epoch";

const GATEWAY_STATE_HELP: &str =
    "The folder of the control socket; nobody but its owner may use it";

const GATEWAY_WITNESS_HELP: &str = "Where witnesses listen: HOST:PORT, with commas between";

const GATEWAY_LISTEN_HELP: &str =
    "Where local programs connect, a loopback address; 127.0.0.1:2049 where none is named";

const GATEWAY_EVERY_HELP: &str =
    "How often witnesses are told, 1 to 86400; 10 where it isn't given";

const GATEWAY_RESERVE_HELP: &str =
    "How many calls are kept for what is still to be received, 0 to 16384; 0 where it isn't given";

const GATEWAY_GIVE_UP_HELP: &str =
    "After how long without a reply a call is given up, 1 to 4294967295; never where it isn't given";

const GATEWAY_PROGRESS_HELP: &str =
    "Tells on standard error up to where each witness assures replies, each line with its time";

const LOG_FILE_HELP: &str = "Adds each line that it says to this file, too, with its time in front";

const WITNESS_ROSTERS_HELP: &str = "The folder with the roster of each epoch";

const WITNESS_AT_HELP: &str = "Where servers give out their logs: N=HOST:PORT, with commas between";

const WITNESS_LISTEN_HELP: &str = "Where gateways, other witnesses and `ask` connect";

const WITNESS_OTHERS_HELP: &str =
    "Where other witnesses listen, to tell each other what was shown: HOST:PORT, with commas between";

const WITNESS_EVERY_HELP: &str =
    "How often servers and other witnesses are asked, 1 to 86400; 10 where it isn't given";

const WITNESS_PATIENCE_HELP: &str =
    "After how long without an answer a node is said to be suspected, 0 to 86400; 60 where it isn't given";

const WITNESS_OVERLAP_HELP: &str =
    "How long the books before a base are kept beside the new ones, 0 to 86400; 3600 where it isn't given";

const WITNESS_EVIDENCE_HELP: &str =
    "Writes node-N.evidence to this folder as soon as node N is exposed";

const WITNESS_EPOCH_HELP: &str =
    "The epoch; that which a server of --at greets with where none is named";

const WITNESS_JOIN_HELP: &str =
    "Begins at the last base that each server gives, as a witness that wasn't there before";

const WITNESS_STATE_HELP: &str =
    "The folder of the control socket; nobody but its owner may use it";

const ASK_ROSTERS_HELP: &str = "The folder with the rosters, one of which each witness must have";

const ASK_NODES_HELP: &str =
    "The first and the last number that is asked for, as 1-9, or one alone; all where none are named";

const ASK_EVIDENCE_HELP: &str =
    "Writes node-N.evidence to this folder where a witness has evidence that is good under a roster of --rosters";

const ASK_STATE_HELP: &str =
    "The folder of the control socket of this machine's gateway: after what a witness says comes what it assured that gateway";

const ASK_WITNESS_HELP: &str = "Where witnesses listen: HOST:PORT, with commas between";

const STOP_STATE_HELP: &str = "The folder of its control socket";

const STATUS_STATE_HELP: &str = "The folder of its control socket";

/// What the help of a party's process ends with.
const STATUSES: &str =
    "Statuses: 0 ended by `stop`, 1 a fault in the input, 2 the command line, 3 no memory, 4 a device, 5 keys used up, 6 the other
side can't be accepted";

/// What the help of `ask` ends with.
const ASK_NOTES: &str =
    "Each line is a node, what the witness says of it, how many challenges are open, and up to which number of its log it found
it sound. Of several witnesses each line begins with where its witness listens. With --state a line `assured to K` or
`assured of none` comes after them, as `status` has it of the gateway.

Statuses: 0 all are trusted, 2 the command line, 3 no memory, 4 no connection, or a device, 6 another roster, 7 somebody is
suspected, 8 somebody is exposed. Of several it is the first of 8, 6, 4, 3 and 7";

/// What the help of `status` ends with.
const STATUS_NOTES: &str =
    "Each line is a name, `:` and a value: the kind and the node, the epoch, keys left, calls, connections, the number of the
log that was audited to, and the memory.

Statuses: 0 done, 2 the command line, 3 no memory, 4 nobody answers";

/// The arguments of `server`.
static SERVER_ARGUMENTS: [ArgumentRow<'static>; 9] = [
    needed!("secret", "FILE", SERVER_SECRET_HELP),
    needed!("rosters", "DIR", SERVER_ROSTERS_HELP),
    needed!("state", "DIR", SERVER_STATE_HELP),
    needed!("node", "N", SERVER_NODE_HELP),
    needed!("listen", "ADDRESS:PORT", SERVER_LISTEN_HELP),
    word!("audit", "ADDRESS:PORT", SERVER_AUDIT_HELP),
    word!("check-every", "N", SERVER_CHECK_EVERY_HELP),
    flag!("progress", SERVER_PROGRESS_HELP),
    word!("log-file", "FILE", LOG_FILE_HELP),
];

/// The row of the subcommand `server`.
pub(crate) fn server_row() -> CommandRow<'static>
    ensures { row_app result ≡ server_command }
{
    CommandRow {
        name: "server",
        about: "Serves the files of a node to gateways, and its log to witnesses",
        notes: Some(STATUSES),
        arguments: &SERVER_ARGUMENTS,
    }
}

/// The arguments of `gateway`.
static GATEWAY_ARGUMENTS: [ArgumentRow<'static>; 12] = [
    needed!("secret", "FILE", GATEWAY_SECRET_HELP),
    needed!("nodes", "A-B", GATEWAY_NODES_HELP),
    needed!("server", "N=HOST:PORT", GATEWAY_SERVER_HELP),
    needed!("rosters", "DIR", GATEWAY_ROSTERS_HELP),
    needed!("state", "DIR", GATEWAY_STATE_HELP),
    word!("witness", "LIST", GATEWAY_WITNESS_HELP),
    word!("listen", "ADDRESS:PORT", GATEWAY_LISTEN_HELP),
    word!("every", "SECONDS", GATEWAY_EVERY_HELP),
    word!("reserve", "CALLS", GATEWAY_RESERVE_HELP),
    word!("give-up", "SECONDS", GATEWAY_GIVE_UP_HELP),
    flag!("progress", GATEWAY_PROGRESS_HELP),
    word!("log-file", "FILE", LOG_FILE_HELP),
];

/// The row of the subcommand `gateway`.
pub(crate) fn gateway_row() -> CommandRow<'static>
    ensures { row_app result ≡ gateway_command }
{
    CommandRow {
        name: "gateway",
        about: "Lets the programs of this machine use a server by NFS, as nodes of its user",
        notes: Some(STATUSES),
        arguments: &GATEWAY_ARGUMENTS,
    }
}

/// The arguments of `witness`.
static WITNESS_ARGUMENTS: [ArgumentRow<'static>; 12] = [
    needed!("rosters", "DIR", WITNESS_ROSTERS_HELP),
    needed!("at", "LIST", WITNESS_AT_HELP),
    needed!("listen", "ADDRESS:PORT", WITNESS_LISTEN_HELP),
    word!("witness", "LIST", WITNESS_OTHERS_HELP),
    word!("every", "SECONDS", WITNESS_EVERY_HELP),
    word!("patience", "SECONDS", WITNESS_PATIENCE_HELP),
    word!("overlap", "SECONDS", WITNESS_OVERLAP_HELP),
    word!("evidence", "DIR", WITNESS_EVIDENCE_HELP),
    word!("epoch", "E", WITNESS_EPOCH_HELP),
    flag!("join", WITNESS_JOIN_HELP),
    word!("state", "DIR", WITNESS_STATE_HELP),
    word!("log-file", "FILE", LOG_FILE_HELP),
];

/// The row of the subcommand `witness`.
pub(crate) fn witness_row() -> CommandRow<'static>
    ensures { row_app result ≡ witness_command }
{
    CommandRow {
        name: "witness",
        about: "Audits servers and gateways, and says what it knows of them",
        notes: Some(STATUSES),
        arguments: &WITNESS_ARGUMENTS,
    }
}

/// The arguments of `ask`.
static ASK_ARGUMENTS: [ArgumentRow<'static>; 5] = [
    word!("rosters", "DIR", ASK_ROSTERS_HELP),
    word!("nodes", "A-B", ASK_NODES_HELP),
    word!("evidence", "DIR", ASK_EVIDENCE_HELP),
    word!("state", "DIR", ASK_STATE_HELP),
    place!("witness", "LIST", ASK_WITNESS_HELP),
];

/// The row of the subcommand `ask`.
pub(crate) fn ask_row() -> CommandRow<'static>
    ensures { row_app result ≡ ask_command }
{
    CommandRow {
        name: "ask",
        about: "Asks witnesses what they know of nodes",
        notes: Some(ASK_NOTES),
        arguments: &ASK_ARGUMENTS,
    }
}

/// The arguments of `stop`.
static STOP_ARGUMENTS: [ArgumentRow<'static>; 1] = [place!("state", "DIR", STOP_STATE_HELP)];

/// The row of the subcommand `stop`.
pub(crate) fn stop_row() -> CommandRow<'static>
    ensures { row_app result ≡ stop_command }
{
    CommandRow {
        name: "stop",
        about: "Ends the server, the gateway or the witness of a state folder in order",
        notes: None,
        arguments: &STOP_ARGUMENTS,
    }
}

/// The arguments of `status`.
static STATUS_ARGUMENTS: [ArgumentRow<'static>; 1] = [place!("state", "DIR", STATUS_STATE_HELP)];

/// The row of the subcommand `status`.
pub(crate) fn status_row() -> CommandRow<'static>
    ensures { row_app result ≡ status_command }
{
    CommandRow {
        name: "status",
        about: "Says how the server, the gateway or the witness of a state folder is",
        notes: Some(STATUS_NOTES),
        arguments: &STATUS_ARGUMENTS,
    }
}

/// What `server` is asked.
fn server_request<'a>(matches: &ArgMatches<'a>) -> ServerRequest<'a>
    ensures secret { result.secret.now ≡ unwrap_or (first_of (codes "secret") (rows_in matches.now)) [] }
    ensures rosters { result.rosters.now ≡ unwrap_or (first_of (codes "rosters") (rows_in matches.now)) [] }
    ensures state { result.state.now ≡ unwrap_or (first_of (codes "state") (rows_in matches.now)) [] }
    ensures node { result.node.now ≡ unwrap_or (first_of (codes "node") (rows_in matches.now)) [] }
    ensures listen { result.listen.now ≡ unwrap_or (first_of (codes "listen") (rows_in matches.now)) [] }
    ensures audit { option_map (λ s. s.now) result.audit ≡ first_of (codes "audit") (rows_in matches.now) }
    ensures check_every { option_map (λ s. s.now) result.check_every
        ≡ first_of (codes "check-every") (rows_in matches.now) }
    ensures progress { is_told (codes "progress") (rows_in matches.now) ≡ true
        → result.progress ≡ is_set (codes "progress") (rows_in matches.now) }
    ensures log_file { option_map (λ s. s.now) result.log_file
        ≡ first_of (codes "log-file") (rows_in matches.now) }
{
    ServerRequest {
        secret: text_of(matches, "secret"),
        rosters: text_of(matches, "rosters"),
        state: text_of(matches, "state"),
        node: text_of(matches, "node"),
        listen: text_of(matches, "listen"),
        audit: word_of(matches, "audit"),
        check_every: word_of(matches, "check-every"),
        progress: flag_of(matches, "progress"),
        log_file: word_of(matches, "log-file"),
    }
}

/// What `gateway` is asked.
fn gateway_request<'a>(matches: &ArgMatches<'a>) -> GatewayRequest<'a>
    ensures secret { result.secret.now ≡ unwrap_or (first_of (codes "secret") (rows_in matches.now)) [] }
    ensures nodes { result.nodes.now ≡ unwrap_or (first_of (codes "nodes") (rows_in matches.now)) [] }
    ensures server { result.server.now ≡ unwrap_or (first_of (codes "server") (rows_in matches.now)) [] }
    ensures rosters { result.rosters.now ≡ unwrap_or (first_of (codes "rosters") (rows_in matches.now)) [] }
    ensures state { result.state.now ≡ unwrap_or (first_of (codes "state") (rows_in matches.now)) [] }
    ensures witness { option_map (λ s. s.now) result.witness
        ≡ first_of (codes "witness") (rows_in matches.now) }
    ensures listen { option_map (λ s. s.now) result.listen ≡ first_of (codes "listen") (rows_in matches.now) }
    ensures every { option_map (λ s. s.now) result.every ≡ first_of (codes "every") (rows_in matches.now) }
    ensures reserve { option_map (λ s. s.now) result.reserve
        ≡ first_of (codes "reserve") (rows_in matches.now) }
    ensures give_up { option_map (λ s. s.now) result.give_up
        ≡ first_of (codes "give-up") (rows_in matches.now) }
    ensures progress { is_told (codes "progress") (rows_in matches.now) ≡ true
        → result.progress ≡ is_set (codes "progress") (rows_in matches.now) }
    ensures log_file { option_map (λ s. s.now) result.log_file
        ≡ first_of (codes "log-file") (rows_in matches.now) }
{
    GatewayRequest {
        secret: text_of(matches, "secret"),
        nodes: text_of(matches, "nodes"),
        server: text_of(matches, "server"),
        rosters: text_of(matches, "rosters"),
        state: text_of(matches, "state"),
        witness: word_of(matches, "witness"),
        listen: word_of(matches, "listen"),
        every: word_of(matches, "every"),
        reserve: word_of(matches, "reserve"),
        give_up: word_of(matches, "give-up"),
        progress: flag_of(matches, "progress"),
        log_file: word_of(matches, "log-file"),
    }
}

/// What `witness` is asked.
fn witness_request<'a>(matches: &ArgMatches<'a>) -> WitnessRequest<'a>
    ensures rosters { result.rosters.now ≡ unwrap_or (first_of (codes "rosters") (rows_in matches.now)) [] }
    ensures at { result.at.now ≡ unwrap_or (first_of (codes "at") (rows_in matches.now)) [] }
    ensures listen { result.listen.now ≡ unwrap_or (first_of (codes "listen") (rows_in matches.now)) [] }
    ensures witness { option_map (λ s. s.now) result.witness
        ≡ first_of (codes "witness") (rows_in matches.now) }
    ensures every { option_map (λ s. s.now) result.every ≡ first_of (codes "every") (rows_in matches.now) }
    ensures patience { option_map (λ s. s.now) result.patience
        ≡ first_of (codes "patience") (rows_in matches.now) }
    ensures overlap { option_map (λ s. s.now) result.overlap
        ≡ first_of (codes "overlap") (rows_in matches.now) }
    ensures evidence { option_map (λ s. s.now) result.evidence
        ≡ first_of (codes "evidence") (rows_in matches.now) }
    ensures epoch { option_map (λ s. s.now) result.epoch ≡ first_of (codes "epoch") (rows_in matches.now) }
    ensures join { is_told (codes "join") (rows_in matches.now) ≡ true
        → result.join ≡ is_set (codes "join") (rows_in matches.now) }
    ensures state { option_map (λ s. s.now) result.state ≡ first_of (codes "state") (rows_in matches.now) }
    ensures log_file { option_map (λ s. s.now) result.log_file
        ≡ first_of (codes "log-file") (rows_in matches.now) }
{
    WitnessRequest {
        rosters: text_of(matches, "rosters"),
        at: text_of(matches, "at"),
        listen: text_of(matches, "listen"),
        witness: word_of(matches, "witness"),
        every: word_of(matches, "every"),
        patience: word_of(matches, "patience"),
        overlap: word_of(matches, "overlap"),
        evidence: word_of(matches, "evidence"),
        epoch: word_of(matches, "epoch"),
        join: flag_of(matches, "join"),
        state: word_of(matches, "state"),
        log_file: word_of(matches, "log-file"),
    }
}

/// What `ask` is asked.
fn ask_request<'a>(matches: &ArgMatches<'a>) -> AskRequest<'a>
    ensures rosters { option_map (λ s. s.now) result.rosters
        ≡ first_of (codes "rosters") (rows_in matches.now) }
    ensures nodes { option_map (λ s. s.now) result.nodes ≡ first_of (codes "nodes") (rows_in matches.now) }
    ensures evidence { option_map (λ s. s.now) result.evidence
        ≡ first_of (codes "evidence") (rows_in matches.now) }
    ensures state { option_map (λ s. s.now) result.state ≡ first_of (codes "state") (rows_in matches.now) }
    ensures witness { result.witness.now ≡ unwrap_or (first_of (codes "witness") (rows_in matches.now)) [] }
{
    let evidence = word_of(matches, "evidence");
    AskRequest {
        rosters: word_of(matches, "rosters"),
        nodes: word_of(matches, "nodes"),
        evidence,
        state: word_of(matches, "state"),
        witness: text_of(matches, "witness"),
    }
}

/// The request of one of these commands, if it is one of them.
pub(crate) fn hosts_request_in<'a>(matches: &ArgMatches<'a>) -> Option<Request<'a>>
    ensures some { IfSome result (λ r. (words : List (List ℕ)) → fault_of commands words ≡ []
        → subcommand_rows_of matches.now ≡ subcommand_of commands words
        → asked_in words ≡ Some (asked_by r)) }
    ensures none { IfNone result (AllByRecursion (λ name. subcommand_name_of matches.now ≡ Some name
        → ⊥) hosts_names) }
{
    if let Some(server) = matches.subcommand_matches("server") {
        return Some(Request::Server(server_request(server)));
    }
    if let Some(gateway) = matches.subcommand_matches("gateway") {
        return Some(Request::Gateway(gateway_request(gateway)));
    }
    if let Some(witness) = matches.subcommand_matches("witness") {
        return Some(Request::Witness(witness_request(witness)));
    }
    if let Some(ask) = matches.subcommand_matches("ask") {
        return Some(Request::Ask(ask_request(ask)));
    }
    if let Some(stop) = matches.subcommand_matches("stop") {
        return Some(Request::Stop(text_of(stop, "state")));
    }
    if let Some(status) = matches.subcommand_matches("status") {
        return Some(Request::Status(text_of(status, "state")));
    }
    None
}
