//! Evidence.

ghost use Rattle.std.specs.Prelude.{◌≡◌, ◌<◌, ◌^◌, IfNone, IfSome, IsTrue, false, option_map};
ghost use Rattle.xdr.specs.Item.{Fits, choice, optional};
ghost use Rattle.authenticator.specs.declared.member.LogVersion.TheVariants.{One, Two};
ghost use Rattle.evidence_showings.specs.evidence_spec.Showing.{links_follow, showing_item, showing_value};
ghost use Rattle.evidence_showings.specs.evidence_spec.Evidence.{evidence_item, evidence_value};
ghost use Rattle.evidence_showings.specs.evidence_spec.Evidence.{charge_value, evidence_text};
ghost use Rattle.evidence_showings.specs.evidence_spec.Evidence.{fork_charge, is_whole_charge};
ghost use Rattle.evidence_showings.specs.evidence_spec.Evidence.{second_follows};
ghost use Rattle.evidence_showings.specs.evidence_spec.Evidence as spec;
ghost use Rattle.challenge.specs.Charges.{charge_in, fork_in};

use crate::based::BasedReplay;
use authenticator::{LogVersion, Number};
use evidence_showings::{MAX_AUDITED, Showing};
use secure_log::BoundedSegment;
use std::marker::Model;

/// A log that was audited, of either version: as a segment, but of at most `MAX_AUDITED` entries (65,536).
pub type AuditedLog = BoundedSegment<MAX_AUDITED>;

/// Two marks at one number of a log: one showing shows each. A mark is a hash, or in a log of version 2 also
/// that no entry has the number. With one showing alone, it shows another hash than 32 zero bytes at 0,
/// whatever `at` is.
#[derive(Drop)]
pub struct Fork {
    /// The version of the log.
    pub log_version: LogVersion,
    /// The number.
    pub at: Number,
    /// What shows a mark there.
    pub a: Showing,
    /// What shows another, if `a` alone isn't enough.
    pub b: Option<Showing>,
}

/// What is shown against a node.
#[derive(Drop)]
pub enum Charge {
    /// That it keeps two logs.
    Fork(Fork),
    /// That its log isn't honest: a replay finds a fault in it.
    Replay(AuditedLog),
    /// That its log isn't honest after a base: a replay from the base's state finds a fault in it.
    Based(BasedReplay),
}

/// Evidence against a node, which has a text. Nothing else is checked of it: `check_evidence`
/// tells whether it is accepted.
#[derive(Drop)]
pub struct Evidence {
    node: u32,
    charge: Charge,
}

impl Model for Evidence {
    ghost use Rattle.evidence_showings.specs.evidence_spec.Evidence.{EvidenceParts};

    ghost Value = { EvidenceParts };

    ghost use Rattle.std.specs.Prelude.{IsTrue};
    ghost use Rattle.evidence_showings.specs.evidence_spec.Evidence.{charge_value, is_whole_charge};
    ghost use Rattle.challenge.specs.Charges.{charge_in};

    ghost view = { λ e. record { node = e.node; charge = charge_in e.charge } };

    ghost invariant = { λ e. IsTrue (is_whole_charge (charge_value (charge_in e.charge))) };
}

impl Evidence {
    /// Evidence against this node. None where it would have no text: a replay has an entry and begins at 1 or
    /// later, and a link of a fork of a log of version 2 skips at most `evidence_showings::MAX_SKIPPED`
    /// numbers and has a number of at most 32 bits.
    pub fn new(node: u32, charge: Charge) -> Option<Evidence>
        ensures some { IfSome result (λ e. e ≡ record { node = node; charge = charge_in charge }) }
        ensures whole { IfSome result (λ _. IsTrue (is_whole_charge (charge_value (charge_in charge)))) }
        ensures none { IfNone result (is_whole_charge (charge_value (charge_in charge)) ≡ false) }
    {
        if !charge.is_whole() {
            return None;
        }
        Some(Evidence { node, charge })
    }

    /// Evidence of a charge that has a text.
    pub(crate) fn of_whole(node: u32, charge: Charge) -> Evidence
        requires { IsTrue (is_whole_charge (charge_value (charge_in charge))) }
        ensures { result ≡ record { node = node; charge = charge_in charge } }
    {
        Evidence { node, charge }
    }

    /// The node.
    pub fn node(&self) -> u32
        ensures { result ≡ self.now.node }
    {
        self.node
    }

    /// What is shown against it.
    pub fn charge(&self) -> &Charge
        ensures { charge_in result.now ≡ self.now.charge }
    {
        &self.charge
    }

    /// Tells a caller's proof that it has a text, as its type keeps it. It changes nothing and takes no
    /// memory; of a fork of a log of version 2 it goes over the links once, of other evidence it reads
    /// nothing.
    pub fn has_text(&self)
        ensures fits { Fits evidence_item (evidence_value self.now) }
        ensures whole { IsTrue (evidence_text.test (evidence_value self.now)) }
    {
        is_word(self.node);
        self.charge.fits();
    }
}

impl Charge {
    /// Whether evidence of it has a text: a log has an entry and begins at 1 or later, and a fork has one.
    fn is_whole(&self) -> bool
        ensures { result ≡ is_whole_charge (charge_value (charge_in self.now)) }
    {
        match self {
            Charge::Fork(fork) => fork.is_whole(),
            Charge::Replay(log) => log.is_whole(),
            Charge::Based(based) => based.is_whole(),
        }
    }

    /// Tells a caller's proof that each part of a charge that has a text has a spelling. As `has_text`, it
    /// goes over the links of a fork of a log of version 2, and reads nothing of other charges.
    fn fits(&self)
        requires { IsTrue (is_whole_charge (charge_value (charge_in self.now))) }
        ensures { Fits (choice spec.is_charge spec.charge_item) (charge_value (charge_in self.now)) }
    {
        match self {
            Charge::Fork(fork) => fork.fits(),
            Charge::Replay(log) => log.fits(),
            Charge::Based(based) => based.fits(),
        }
    }
}

impl Fork {
    /// Whether it has a text of its log's version. Every fork of a log of version 1 has one.
    fn is_whole(&self) -> bool
        ensures { result ≡ is_whole_charge (fork_charge self.now.log_version (fork_in self.now)) }
    {
        match self.log_version {
            LogVersion::One => true,
            LogVersion::Two => self.a.has_words() && second_has_words(&self.b),
        }
    }

    /// Each part has a spelling, as the types of its parts keep it: tells a caller's proof. Of a log of
    /// version 2 it looks at each link once.
    fn fits(&self)
        requires { IsTrue (is_whole_charge (fork_charge self.now.log_version (fork_in self.now))) }
        ensures { Fits (choice spec.is_charge spec.charge_item)
            (fork_charge self.now.log_version (fork_in self.now)) }
    {
        match self.log_version {
            LogVersion::One => self.has_text(),
            LogVersion::Two => self.has_words(),
        }
    }

    /// As `fits`, of a log of version 1.
    fn has_text(&self)
        ensures { Fits (spec.fork_item One) (spec.fork_value One (fork_in self.now)) }
    {
        let _at = self.at.get();
        self.a.has_text();
        if let Some(b) = &self.b {
            b.has_text();
        }
    }

    /// As `fits`, of a log of version 2.
    fn has_words(&self)
        requires a { IsTrue (links_follow Two (showing_value Two self.now.a)) }
        requires b { IsTrue (second_follows (option_map (showing_value Two) self.now.b)) }
        ensures { Fits (spec.fork_item Two) (spec.fork_value Two (fork_in self.now)) }
    {
        let _at = self.at.get();
        let _a = self.a.has_words();
        let _b = second_has_words(&self.b);
    }
}

/// Whether a second showing has a text of a log of version 2, if there is one.
fn second_has_words(second: &Option<Showing>) -> bool
    ensures follow { result ≡ second_follows (option_map (showing_value Two) second.now) }
    ensures text { IsTrue result →
        Fits (optional (showing_item Two)) (option_map (showing_value Two) second.now) }
{
    match second {
        Some(showing) => showing.has_words(),
        None => true,
    }
}

/// A node's number is a word: does nothing, and tells a caller's proof.
fn is_word(n: u32)
    ensures { n < 2 ^ 32 }
{}
