//! What evidence lacks that isn't accepted.

ghost use Rattle.std.specs.Prelude.{◌≡◌, ◌↔◌, IsTrue, List};
ghost use Rattle.authenticator.specs.declared.member.Member.{Member};
ghost use Rattle.challenge.specs.evidence_spec.Evidence.{charge_version};
ghost use Rattle.challenge.specs.declared.finding.NotAccepted.TheVariants.{NoTwoMarks};
ghost use Rattle.explain.specs.Lacks.{BeginsAtZero, HasNoKey, IsLack, IsZeroFork, lacking};

use challenge::{Charge, Evidence, Fork, NotAccepted};
use secure_log::{LogVersion, Roster};

/// What evidence lacks first: as `NotAccepted`, and more of three of these.
#[derive(Clone, Copy, Debug, PartialEq, Eq)]
pub enum Lack {
    /// A showing or the log is of another node than the evidence.
    AnotherNode,
    /// The roster has the node, and its log is of another version than the evidence.
    OtherVersion,
    /// The log doesn't begin with the first entry, after 32 zero bytes.
    NotFromStart,
    /// A showing begins at 0: there is no entry of that number.
    BeginsAtZero,
    /// What is shown skips what a log of its version may not, or doesn't end in its closing's node, word and
    /// hash; without links, in its closing's node, number and hash.
    NotClosed,
    /// The roster has no key of the node, so nothing says who signed.
    NoKey,
    /// A closing's signature doesn't verify by the node's key.
    NotSigned,
    /// No two hashes are shown at the number, of a log of version 1.
    NoTwoHashes,
    /// No two marks are shown at the number, of a log of version 2.
    NoTwoMarks,
    /// A base is not good, though its showing is closed.
    NoGoodBase,
    /// The log doesn't begin right after the base, with the hash that the base shows there.
    NotFromBase,
    /// A replay finds no fault.
    NoFault,
}

impl Lack {
    /// What is lacking, in words.
    pub fn words(self) -> &'static str {
        match self {
            Lack::AnotherNode => "what is shown is of another node",
            Lack::OtherVersion => "the evidence is of another log version than the node's",
            Lack::NotFromStart => "the log is not shown from its first entry on",
            Lack::BeginsAtZero =>
                "a showing begins at number 0, and a log's first entry is number 1",
            Lack::NotClosed => "what is shown does not end in what closes it",
            Lack::NoKey => "the roster has no key of the node, so nobody can tell who signed",
            Lack::NotSigned => "what closes it does not verify by the node's key",
            Lack::NoTwoHashes => "no two hashes are shown at the number",
            Lack::NoTwoMarks => "no two marks are shown at the number",
            Lack::NoGoodBase => "the base is not a good one",
            Lack::NotFromBase => "the log does not go on from the base",
            Lack::NoFault => "the log has no fault",
        }
    }
}

/// What evidence lacks under a roster, of which this is found.
pub fn lack_of(roster: &Roster, evidence: &Evidence, why: NotAccepted) -> Lack
    ensures same { lacking result ≡ why }
    ensures more { IsLack roster.now evidence.now result }
{
    match why {
        NotAccepted::AnotherNode => Lack::AnotherNode,
        NotAccepted::OtherVersion => Lack::OtherVersion,
        NotAccepted::NotFromStart => Lack::NotFromStart,
        NotAccepted::NotClosed if begins_at_zero(evidence) => Lack::BeginsAtZero,
        NotAccepted::NotClosed => Lack::NotClosed,
        NotAccepted::NotSigned if has_no_key(roster, evidence) => Lack::NoKey,
        NotAccepted::NotSigned => Lack::NotSigned,
        NotAccepted::NoTwoMarks => no_two(evidence),
        NotAccepted::NoGoodBase => Lack::NoGoodBase,
        NotAccepted::NotFromBase => Lack::NotFromBase,
        NotAccepted::NoFault => Lack::NoFault,
    }
}

/// What is lacking where no two marks are shown: in a log of version 1 each mark is a hash.
fn no_two(evidence: &Evidence) -> Lack
    ensures same { lacking result ≡ NoTwoMarks }
    ensures more { (ms : List Member) → IsLack ms evidence.now result }
{
    match shown_version(evidence) {
        LogVersion::One => Lack::NoTwoHashes,
        LogVersion::Two => Lack::NoTwoMarks,
    }
}

/// The version of the log that evidence shows.
fn shown_version(evidence: &Evidence) -> LogVersion
    ensures { result ≡ charge_version evidence.now.charge }
{
    match evidence.charge() {
        Charge::Fork(fork) => fork.log_version,
        Charge::Replay(log) => log.log_version(),
        Charge::Based(based) => based.base().log_version(),
    }
}

/// Whether the showing that doesn't end in its closing begins at 0: the first one, or the second where the
/// first ends in its own.
fn begins_at_zero(evidence: &Evidence) -> bool
    ensures { IsTrue result ↔ BeginsAtZero evidence.now.charge }
{
    match evidence.charge() {
        Charge::Fork(fork) => is_zero_fork(fork),
        Charge::Replay(_) => false,
        Charge::Based(based) => based.base().showing().first() == 0,
    }
}

fn is_zero_fork(fork: &Fork) -> bool
    ensures { IsTrue result ↔ IsZeroFork fork.now.log_version fork.now.a fork.now.b }
{
    match &fork.b {
        Some(b) => fork.a.first() == 0 || (fork.a.ends(fork.log_version) && b.first() == 0),
        None => fork.a.first() == 0,
    }
}

/// Whether the roster has no member of the evidence's node.
fn has_no_key(roster: &Roster, evidence: &Evidence) -> bool
    ensures { IsTrue result ↔ HasNoKey roster.now evidence.now.node }
{
    roster.member(evidence.node()).is_none()
}
