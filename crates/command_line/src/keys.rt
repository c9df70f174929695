//! What the words after `secret`, `member` and `rosters` ask for.

ghost use Rattle.std.specs.Prelude.{◌≡◌, codes, List, ℕ, [], IfNone, IfSome, Some, option_map};
ghost use Rattle.std.specs.Prelude.{unwrap_or};
ghost use Rattle.std.specs.List.{AllByRecursion};
ghost use Rattle.clap.specs.Faults.{fault_of};
ghost use Rattle.clap.specs.Walk.{first_of};
ghost use Rattle.clap.specs.Words.{subcommand_name_of, subcommand_of, subcommand_rows_of};
ghost use Rattle.command_line.specs.CommandLine.{asked_by, asked_in, commands, rows_in};
ghost use Rattle.command_line.specs.Arguments.{row_app};
ghost use Rattle.command_line.specs.Keys.{keys_names, member_command, rosters_command, secret_command};

use crate::arguments::{ArgumentRow, CommandRow, Form, needed, place, word};
use crate::request::{Request, text_of};
use crate::serve::word_of;
use clap::ArgMatches;

/// What `nfsacc member` is asked, word by word.
#[derive(Clone, Copy)]
pub struct MemberRequest<'a> {
    /// The name of the file with the secret bytes.
    pub secret: &'a str,
    /// The node's number.
    pub node: &'a str,
    /// What the node does.
    pub kind: &'a str,
    /// The height of its trees of keys, if it is named.
    pub height: Option<&'a str>,
    /// The first and the last epoch, or one alone, if they are named.
    pub epochs: Option<&'a str>,
    /// The version of its log, if it is named.
    pub log_version: Option<&'a str>,
}

/// What `nfsacc rosters` is asked, word by word.
#[derive(Clone, Copy)]
pub struct RostersRequest<'a> {
    /// The name of the folder that the rosters go to.
    pub out: &'a str,
    /// The name of the file with the lines; `-` is standard input.
    pub file: &'a str,
}

const SECRET_FILE_HELP: &str = "The file, which must not be there; nobody but its owner may use it";

const MEMBER_SECRET_HELP: &str = "The party's file of 32 secret bytes";

const MEMBER_NODE_HELP: &str = "The node's number, 1 to 64";

const MEMBER_KIND_HELP: &str = "What the node does: server or client";

const MEMBER_HEIGHT_HELP: &str =
    "The height of its trees of keys, 1 to 16; 12 of a server and 10 of a client where none is named";

const MEMBER_EPOCHS_HELP: &str =
    "The first and the last epoch, as 1-8, or one alone, 1 to 4294967295; 1 where none is named";

const MEMBER_LOG_VERSION_HELP: &str = "The version of its log, 1 or 2; 1 where none is named";

const ROSTERS_OUT_HELP: &str = "The folder that the rosters go to, each as epoch-E.roster";

const ROSTERS_FILE_HELP: &str =
    "The member lines of all parties; `-` reads them from standard input";

/// What the help of `member` ends with.
const MEMBER_NOTES: &str =
    "The line of an epoch is `member N KIND H epoch E` and the 64 hexadecimal digits of the key, with `log 2` after H where
the log is of version 2. Nothing of it is secret. Making it takes as long as making the keys of `serve` with this height.

Statuses: 0 done, 1 a fault in the secret bytes, 2 the command line, 3 no memory, 4 a device";

/// What the help of `rosters` ends with.
const ROSTERS_NOTES: &str =
    "Each epoch of which there is a line must have all numbers that there are. The digests that are printed are compared by
all parties: evidence counts under a roster whose digest its reader knows.

Statuses: 0 done, 1 a fault in the lines, 2 the command line, 3 no memory, 4 a device";

/// The arguments of `secret`.
static SECRET_ARGUMENTS: [ArgumentRow<'static>; 1] = [place!("file", "FILE", SECRET_FILE_HELP)];

/// The row of the subcommand `secret`.
pub(crate) fn secret_row() -> CommandRow<'static>
    ensures { row_app result ≡ secret_command }
{
    CommandRow {
        name: "secret",
        about: "Makes a file of 32 random bytes, of which all keys of one party are made",
        notes: None,
        arguments: &SECRET_ARGUMENTS,
    }
}

/// The arguments of `member`.
static MEMBER_ARGUMENTS: [ArgumentRow<'static>; 6] = [
    needed!("secret", "FILE", MEMBER_SECRET_HELP),
    needed!("node", "N", MEMBER_NODE_HELP),
    needed!("kind", "KIND", MEMBER_KIND_HELP),
    word!("height", "H", MEMBER_HEIGHT_HELP),
    word!("epochs", "A-B", MEMBER_EPOCHS_HELP),
    word!("log-version", "V", MEMBER_LOG_VERSION_HELP),
];

/// The row of the subcommand `member`.
pub(crate) fn member_row() -> CommandRow<'static>
    ensures { row_app result ≡ member_command }
{
    CommandRow {
        name: "member",
        about: "Says the keys of a node, a line for each epoch",
        notes: Some(MEMBER_NOTES),
        arguments: &MEMBER_ARGUMENTS,
    }
}

/// The arguments of `rosters`.
static ROSTERS_ARGUMENTS: [ArgumentRow<'static>; 2] = [
    needed!("out", "DIR", ROSTERS_OUT_HELP),
    place!("file", "FILE", ROSTERS_FILE_HELP),
];

/// The row of the subcommand `rosters`.
pub(crate) fn rosters_row() -> CommandRow<'static>
    ensures { row_app result ≡ rosters_command }
{
    CommandRow {
        name: "rosters",
        about: "Makes the roster of each epoch of the parties' member lines",
        notes: Some(ROSTERS_NOTES),
        arguments: &ROSTERS_ARGUMENTS,
    }
}

/// What `member` is asked.
fn member_request<'a>(matches: &ArgMatches<'a>) -> MemberRequest<'a>
    ensures secret { result.secret.now ≡ unwrap_or (first_of (codes "secret") (rows_in matches.now)) [] }
    ensures node { result.node.now ≡ unwrap_or (first_of (codes "node") (rows_in matches.now)) [] }
    ensures kind { result.kind.now ≡ unwrap_or (first_of (codes "kind") (rows_in matches.now)) [] }
    ensures height { option_map (λ s. s.now) result.height ≡ first_of (codes "height") (rows_in matches.now) }
    ensures epochs { option_map (λ s. s.now) result.epochs ≡ first_of (codes "epochs") (rows_in matches.now) }
    ensures log_version { option_map (λ s. s.now) result.log_version
        ≡ first_of (codes "log-version") (rows_in matches.now) }
{
    MemberRequest {
        secret: text_of(matches, "secret"),
        node: text_of(matches, "node"),
        kind: text_of(matches, "kind"),
        height: word_of(matches, "height"),
        epochs: word_of(matches, "epochs"),
        log_version: word_of(matches, "log-version"),
    }
}

/// What `rosters` is asked.
fn rosters_request<'a>(matches: &ArgMatches<'a>) -> RostersRequest<'a>
    ensures out { result.out.now ≡ unwrap_or (first_of (codes "out") (rows_in matches.now)) [] }
    ensures file { result.file.now ≡ unwrap_or (first_of (codes "file") (rows_in matches.now)) [] }
{
    RostersRequest {
        out: text_of(matches, "out"),
        file: text_of(matches, "file"),
    }
}

/// The request of `secret`, `member` or `rosters`, if it is one of them.
pub(crate) fn keys_request_in<'a>(matches: &ArgMatches<'a>) -> Option<Request<'a>>
    ensures some { IfSome result (λ r. (words : List (List ℕ)) → fault_of commands words ≡ []
        → subcommand_rows_of matches.now ≡ subcommand_of commands words
        → asked_in words ≡ Some (asked_by r)) }
    ensures none { IfNone result (AllByRecursion (λ name. subcommand_name_of matches.now ≡ Some name
        → ⊥) keys_names) }
{
    if let Some(secret) = matches.subcommand_matches("secret") {
        return Some(Request::Secret(text_of(secret, "file")));
    }
    if let Some(member) = matches.subcommand_matches("member") {
        return Some(Request::Member(member_request(member)));
    }
    if let Some(rosters) = matches.subcommand_matches("rosters") {
        return Some(Request::Rosters(rosters_request(rosters)));
    }
    None
}
