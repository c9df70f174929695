//! What the words after `serve` ask for.

ghost use Rattle.std.specs.Prelude.{◌≡◌, codes, [], true, false, option_map, unwrap_or};
ghost use Rattle.clap.specs.Walk.{first_of};
ghost use Rattle.command_line.specs.Arguments.{row_app};
ghost use Rattle.command_line.specs.Serve.{serve_command};
ghost use Rattle.command_line.specs.CommandLine.{is_set, is_told, rows_in};

use crate::arguments::{ArgumentRow, CommandRow, Form, flag, place, word};
use crate::request::{flag_of, text_of};
use clap::ArgMatches;

/// What `nfsacc serve` is asked, word by word. `serve_order` reads the numbers among them.
#[derive(Clone, Copy)]
pub struct ServeRequest<'a> {
    /// The port that is listened on; 0 lets the system choose.
    pub port: &'a str,
    /// How many connections are served.
    pub count: &'a str,
    /// The address that is listened on, if one is named.
    pub address: Option<&'a str>,
    /// The height of the server's tree of keys, if it is named.
    pub server_height: Option<&'a str>,
    /// The height of each client's tree of keys, if it is named.
    pub client_height: Option<&'a str>,
    /// The name of the file with the secret bytes of which all keys are made, if one is named.
    pub master: Option<&'a str>,
    /// The name of the file that the roster's text goes to, if one is named.
    pub roster_out: Option<&'a str>,
    /// The name of the folder that evidence goes to, if one is named.
    pub evidence: Option<&'a str>,
    /// The name of the folder that the control socket is made in, if one is named.
    pub control: Option<&'a str>,
    /// How many seconds a connection may be silent, if that is given.
    pub idle: Option<&'a str>,
    /// The version of the logs, if it is named.
    pub log_version: Option<&'a str>,
    /// The name of the folder that bases go to, if one is named.
    pub base_out: Option<&'a str>,
    /// After how many calls the server logs a CHECK, if that is given.
    pub check_every: Option<&'a str>,
    /// Whether it is told how far the keys and the audits are.
    pub progress: bool,
}

const PORT_HELP: &str = "The port; 0 lets the system choose";

const COUNT_HELP: &str = "How many connections are served, 1 to 16";

const ADDRESS_HELP: &str = "The address that is listened on; 127.0.0.1 where none is named";

const SERVER_HEIGHT_HELP: &str =
    "The height of the server's tree of keys, 1 to 15; 12 where none is named";

const CLIENT_HEIGHT_HELP: &str =
    "The height of each client's tree of keys, 1 to 15; 10 where none is named";

const MASTER_HELP: &str =
    "A file of 32 secret bytes that all keys are made of, as `nfsacc secret` makes it";

const ROSTER_OUT_HELP: &str =
    "Writes the text of the nodes' roster to this file, before it listens";

const BASE_OUT_HELP: &str =
    "Writes the roster and the base of each CHECK of the server to node-1.K.base in this folder";

const CHECK_EVERY_HELP: &str =
    "Logs a CHECK at the server after each N calls, 1 to 16384; none where it isn't given";

const EVIDENCE_HELP: &str = "Writes node-N.evidence to this folder as soon as node N is exposed";

const CONTROL_HELP: &str =
    "Listens on the Unix socket DIR/control, at whose word `stop` the run comes to its end";

const IDLE_HELP: &str =
    "Ends a connection on which nothing came for so many seconds, 1 to 86400; none where it isn't given";

const LOG_VERSION_HELP: &str = "The version of the logs, 1 or 2; 1 where none is named";

const PROGRESS_HELP: &str =
    "Tells on standard error which keys are made and which logs are audited, each line with its time";

/// What the help of `serve` ends with.
const SERVE_HELP: &str =
    "A call takes two keys of its client and two of the server. Once keys of height H are used up no more calls are answered:
   H   calls   seconds     MiB
   1       1     0.001     0.6
   2       2     0.001     1.2
   3       4     0.002     2.4
   4       8     0.004     4.8
   5      16      0.01      10
   6      32      0.02      19
   7      64      0.03      38
   8     128      0.06      77
   9     256       0.1     154
  10     512       0.3     307
  11    1024       0.5     614
  12    2048       1.1    1229
  13    4096       2.1    2458
  14    8192       4.2    4915
  15   16384       8.4    9830
The seconds are what one processor takes to make the keys, which up to four do at once. The MiB are what a run takes in its
end once that many short calls were made: the logs of both nodes, what the witness keeps of them, and its journal. The
longest records take up to 1.4 times as much.

A client takes no more keys of the server than it has itself, whatever it sends. So no client can use up the server's keys
where COUNT times 2 to the client's height is at most 2 to the server's: with the heights that aren't named, where COUNT is
at most 4.

Each connection is a client of its own, whose log is audited when the connection ends. In the end everybody is, and a line
says of each node whether it is trusted, suspected or exposed.

Without --master node N's master secret is 28 zero bytes and N: anybody can sign for each node, so that is for tests and
trials on this machine alone. With it that secret is the SHA-256 of the file's 32 bytes, N in four and the number of the run
in four. That number is noted in FILE.spent before the first key is made, so no run uses the keys of another one. No other
process may use the file meanwhile, and nobody but its owner ever.

With --control DIR the run ends in order once DIR/control is sent the word `stop` and a line feed: no further connection is
accepted, those that stand end after the calls that were read of them, and everybody is audited. DIR must be there, and
nobody but its owner may use it. A signal ends the run at once, and nobody is audited.

Statuses: 0 done, 1 a fault in the input, 2 the command line, 3 no memory, 4 a device";

/// The arguments of `serve`.
static SERVE_ARGUMENTS: [ArgumentRow<'static>; 14] = [
    word!("address", "ADDRESS", ADDRESS_HELP),
    word!("server-height", "H", SERVER_HEIGHT_HELP),
    word!("client-height", "H", CLIENT_HEIGHT_HELP),
    word!("master", "FILE", MASTER_HELP),
    word!("roster-out", "FILE", ROSTER_OUT_HELP),
    word!("evidence", "DIR", EVIDENCE_HELP),
    word!("control", "DIR", CONTROL_HELP),
    word!("idle", "SECONDS", IDLE_HELP),
    word!("log-version", "V", LOG_VERSION_HELP),
    word!("base-out", "DIR", BASE_OUT_HELP),
    word!("check-every", "N", CHECK_EVERY_HELP),
    flag!("progress", PROGRESS_HELP),
    place!("port", "PORT", PORT_HELP),
    place!("count", "COUNT", COUNT_HELP),
];

/// The row of the subcommand `serve`.
pub(crate) fn serve_row() -> CommandRow<'static>
    ensures { row_app result ≡ serve_command }
{
    CommandRow {
        name: "serve",
        about: "Serves clients over TCP, and audits each of them",
        notes: Some(SERVE_HELP),
        arguments: &SERVE_ARGUMENTS,
    }
}

/// What `serve` is asked.
pub(crate) fn serve_request<'a>(matches: &ArgMatches<'a>) -> ServeRequest<'a>
    ensures port { result.port.now ≡ unwrap_or (first_of (codes "port") (rows_in matches.now)) [] }
    ensures count { result.count.now ≡ unwrap_or (first_of (codes "count") (rows_in matches.now)) [] }
    ensures address { option_map (λ s. s.now) result.address ≡ first_of (codes "address") (rows_in matches.now) }
    ensures server { option_map (λ s. s.now) result.server_height
        ≡ first_of (codes "server-height") (rows_in matches.now) }
    ensures client { option_map (λ s. s.now) result.client_height
        ≡ first_of (codes "client-height") (rows_in matches.now) }
    ensures master { option_map (λ s. s.now) result.master ≡ first_of (codes "master") (rows_in matches.now) }
    ensures roster_out { option_map (λ s. s.now) result.roster_out
        ≡ first_of (codes "roster-out") (rows_in matches.now) }
    ensures evidence { option_map (λ s. s.now) result.evidence
        ≡ first_of (codes "evidence") (rows_in matches.now) }
    ensures control { option_map (λ s. s.now) result.control
        ≡ first_of (codes "control") (rows_in matches.now) }
    ensures idle { option_map (λ s. s.now) result.idle ≡ first_of (codes "idle") (rows_in matches.now) }
    ensures log_version { option_map (λ s. s.now) result.log_version
        ≡ first_of (codes "log-version") (rows_in matches.now) }
    ensures base_out { option_map (λ s. s.now) result.base_out
        ≡ first_of (codes "base-out") (rows_in matches.now) }
    ensures check_every { option_map (λ s. s.now) result.check_every
        ≡ first_of (codes "check-every") (rows_in matches.now) }
    ensures progress { is_told (codes "progress") (rows_in matches.now) ≡ true
        → result.progress ≡ is_set (codes "progress") (rows_in matches.now) }
{
    ServeRequest {
        port: text_of(matches, "port"),
        count: text_of(matches, "count"),
        address: word_of(matches, "address"),
        server_height: word_of(matches, "server-height"),
        client_height: word_of(matches, "client-height"),
        master: word_of(matches, "master"),
        roster_out: word_of(matches, "roster-out"),
        evidence: word_of(matches, "evidence"),
        control: word_of(matches, "control"),
        idle: word_of(matches, "idle"),
        log_version: word_of(matches, "log-version"),
        base_out: word_of(matches, "base-out"),
        check_every: word_of(matches, "check-every"),
        progress: flag_of(matches, "progress"),
    }
}

/// The word of an option, if it is given.
pub(crate) fn word_of<'a>(matches: &ArgMatches<'a>, id: &str) -> Option<&'a str>
    ensures { option_map (λ s. s.now) result ≡ first_of id.now (rows_in matches.now) }
{
    matches.get_str(id)
}
