//! Evidence as a text (RFC 4506).

ghost use Rattle.std.specs.Prelude.{◌≡◌, IfOk, IsTrue, option_map};
ghost use Rattle.xdr.specs.Item.{choice, optional, spelling};
ghost use Rattle.xdr.specs.Writing.{Adds, Writes};
ghost use Rattle.xdr.specs.Texts.Text.{IsText};
ghost use Rattle.authenticator.specs.declared.member.LogVersion.TheVariants.{One, Two};
ghost use Rattle.secure_log.specs.Versioned.{versioned_value};
ghost use Rattle.evidence_showings.specs.evidence_spec.Showing.{links_follow, showing_item, showing_value};
ghost use Rattle.evidence_showings.specs.evidence_spec.Evidence.{evidence_item, evidence_value};
ghost use Rattle.evidence_showings.specs.evidence_spec.Evidence.{evidence_text, fork_charge, fork_value};
ghost use Rattle.evidence_showings.specs.evidence_spec.Evidence.{based_value, charge_item, charge_value};
ghost use Rattle.evidence_showings.specs.evidence_spec.Evidence.{is_charge};
ghost use Rattle.evidence_showings.specs.evidence_spec.Evidence.{is_whole_charge, replay_charge};
ghost use Rattle.evidence_showings.specs.evidence_spec.Evidence.{second_follows};
ghost use Rattle.challenge.specs.Charges.{charge_in, fork_in};

use crate::based::BasedReplay;
use crate::evidence::{AuditedLog, Charge, Evidence, Fork};
use authenticator::LogVersion;
use evidence_showings::Showing;
use std::alloc::{AllocError, Global};
use xdr::{Writer, all_or_nothing};

impl Evidence {
    /// The text. `read_evidence` reads it back as this evidence where a fork says no more than its text, as
    /// each that was read does; a log never says more. `AllocError` comes only where a growth was refused.
    pub fn evidence_text(&self, alloc: Global) -> Result<Vec<u8>, AllocError>
        ensures { IfOk result (λ text. IsText evidence_text (evidence_value self.now) text.items) }
    {
        self.has_text();
        let mut text = Vec::new(alloc);
        self.write(&mut text)?;
        Ok(text)
    }

    /// Appends the text. Where memory was refused the bytes are as they were.
    pub fn write(&self, out: &mut Vec<u8>) -> Result<(), AllocError>
        ensures { Writes evidence_item (evidence_value self.now) out.old.items result out.new.items }
    {
        let start = out.len();
        let written = add_evidence(self, out);
        all_or_nothing(out, start, written)
    }
}

fn add_evidence(evidence: &Evidence, out: &mut Vec<u8>) -> Result<(), AllocError>
    ensures { Adds (spelling evidence_item (evidence_value evidence.now)) out.old.items result out.new.items }
{
    evidence.has_text();
    out.put_u32(evidence.node())?;
    add_charge(evidence.charge(), out)
}

fn add_charge(charge: &Charge, out: &mut Vec<u8>) -> Result<(), AllocError>
    requires { IsTrue (is_whole_charge (charge_value (charge_in charge.now))) }
    ensures { Adds (spelling (choice is_charge charge_item) (charge_value (charge_in charge.now)))
        out.old.items result out.new.items }
{
    match charge {
        Charge::Fork(fork) => add_fork(fork, out),
        Charge::Replay(log) => add_replay(log, out),
        Charge::Based(based) => add_based(based, out),
    }
}

fn add_fork(fork: &Fork, out: &mut Vec<u8>) -> Result<(), AllocError>
    requires { IsTrue (is_whole_charge (fork_charge fork.now.log_version (fork_in fork.now))) }
    ensures { Adds (spelling (choice is_charge charge_item) (fork_charge fork.now.log_version (fork_in fork.now)))
        out.old.items result out.new.items }
{
    match fork.log_version {
        LogVersion::One => add_plain_fork(fork, out),
        LogVersion::Two => add_worded_fork(fork, out),
    }
}

fn add_plain_fork(fork: &Fork, out: &mut Vec<u8>) -> Result<(), AllocError>
    ensures { Adds (spelling (choice is_charge charge_item) (1, fork_value One (fork_in fork.now)))
        out.old.items result out.new.items }
{
    out.put_u32(1)?;
    fork.at.write(out)?;
    fork.a.write(out)?;
    add_second(&fork.b, out)
}

fn add_second(second: &Option<Showing>, out: &mut Vec<u8>) -> Result<(), AllocError>
    ensures { Adds (spelling (optional (showing_item One)) (option_map (showing_value One) second.now))
        out.old.items result out.new.items }
{
    match second {
        Some(showing) => {
            out.put_bool(true)?;
            showing.write(out)
        }
        None => out.put_bool(false),
    }
}

fn add_worded_fork(fork: &Fork, out: &mut Vec<u8>) -> Result<(), AllocError>
    requires a { IsTrue (links_follow Two (showing_value Two fork.now.a)) }
    requires b { IsTrue (second_follows (option_map (showing_value Two) fork.now.b)) }
    ensures { Adds (spelling (choice is_charge charge_item) (3, fork_value Two (fork_in fork.now)))
        out.old.items result out.new.items }
{
    out.put_u32(3)?;
    fork.at.write(out)?;
    add_words(&fork.a, out)?;
    add_worded_second(&fork.b, out)
}

fn add_words(showing: &Showing, out: &mut Vec<u8>) -> Result<(), AllocError>
    requires { IsTrue (links_follow Two (showing_value Two showing.now)) }
    ensures { Adds (spelling (showing_item Two) (showing_value Two showing.now)) out.old.items result
        out.new.items }
{
    let _has_words = showing.has_words();
    showing.write_words(out)
}

fn add_worded_second(second: &Option<Showing>, out: &mut Vec<u8>) -> Result<(), AllocError>
    requires { IsTrue (second_follows (option_map (showing_value Two) second.now)) }
    ensures { Adds (spelling (optional (showing_item Two)) (option_map (showing_value Two) second.now))
        out.old.items result out.new.items }
{
    match second {
        Some(showing) => {
            out.put_bool(true)?;
            add_words(showing, out)
        }
        None => out.put_bool(false),
    }
}

fn add_replay(log: &AuditedLog, out: &mut Vec<u8>) -> Result<(), AllocError>
    ensures { Adds (spelling (choice is_charge charge_item) (replay_charge log.now.log_version log.now))
        out.old.items result out.new.items }
{
    match log.log_version() {
        LogVersion::One => add_plain_replay(log, out),
        LogVersion::Two => add_worded_replay(log, out),
    }
}

fn add_plain_replay(log: &AuditedLog, out: &mut Vec<u8>) -> Result<(), AllocError>
    requires { log.now.log_version ≡ One }
    ensures { Adds (spelling (choice is_charge charge_item) (2, versioned_value One log.now))
        out.old.items result out.new.items }
{
    out.put_u32(2)?;
    log.write(out)
}

fn add_worded_replay(log: &AuditedLog, out: &mut Vec<u8>) -> Result<(), AllocError>
    requires { log.now.log_version ≡ Two }
    ensures { Adds (spelling (choice is_charge charge_item) (4, versioned_value Two log.now))
        out.old.items result out.new.items }
{
    out.put_u32(4)?;
    log.write(out)
}

fn add_based(based: &BasedReplay, out: &mut Vec<u8>) -> Result<(), AllocError>
    ensures { Adds (spelling (choice is_charge charge_item)
        (5, based_value based.now.base.log_version based.now.base based.now.log))
        out.old.items result out.new.items }
{
    out.put_u32(5)?;
    based.add_to(out)
}
