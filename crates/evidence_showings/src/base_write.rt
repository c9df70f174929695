//! Bases as texts (RFC 4506).

ghost use Rattle.std.specs.Prelude.{◌≡◌, ◌≤◌, IsTrue, length};
ghost use Rattle.xdr.specs.Item.{opaque, pair, spelling};
ghost use Rattle.xdr.specs.Writing.{Adds, Writes};
ghost use Rattle.authenticator.specs.Numbers.{number_item};
ghost use Rattle.authenticator.specs.declared.member.LogVersion.TheVariants.{One, Two};
ghost use Rattle.evidence_spec.specs.Base.{BaseParts, MAX_STATE, base_item, base_value, begun_item, begun_value};
ghost use Rattle.evidence_spec.specs.Showing.{links_follow, showing_item, showing_value};
ghost use Rattle.evidence_showings.specs.Bases.{HasBaseText};

use crate::base_text::BaseText;
use crate::showing::Showing;
use authenticator::{LogVersion, Number};
use std::alloc::AllocError;
use xdr::{Writer, all_or_nothing};

impl BaseText {
    /// Appends the text. Where memory was refused the bytes are as they were.
    pub fn write(&self, out: &mut Vec<u8>) -> Result<(), AllocError>
        ensures { Writes base_item (base_value self.now) out.old.items result out.new.items }
    {
        self.has_text();
        write_base(
            self.log_version(),
            self.showing(),
            self.at(),
            self.state(),
            out,
        )
    }
}

/// Appends the text of a base of these parts, of which the words of the showing follow in a log of version 2,
/// and the state has at most `MAX_STATE` bytes. Where memory was refused the bytes are as they were.
pub fn write_base(
    log_version: LogVersion,
    showing: &Showing,
    at: Number,
    state: &[u8],
    out: &mut Vec<u8>,
) -> Result<(), AllocError>
    requires words { IsTrue (links_follow log_version (showing_value log_version showing.now)) }
    requires few { length state.now ≤ MAX_STATE }
    ensures has { HasBaseText (record {
      log_version = log_version;
      showing = showing.now;
      at = at;
      state = state.now;
    }) }
    ensures text { Writes base_item (base_value (record {
      log_version = log_version;
      showing = showing.now;
      at = at;
      state = state.now;
    })) out.old.items result out.new.items }
{
    showing.has_text();
    at.fits();
    let start = out.len();
    let written = add_base(log_version, showing, at, state, out);
    all_or_nothing(out, start, written)
}

fn add_base(
    log_version: LogVersion,
    showing: &Showing,
    at: Number,
    state: &[u8],
    out: &mut Vec<u8>,
) -> Result<(), AllocError>
    requires few { length state.now ≤ MAX_STATE }
    requires words { IsTrue (links_follow log_version (showing_value log_version showing.now)) }
    ensures { Adds (spelling base_item (base_value (record {
      log_version = log_version;
      showing = showing.now;
      at = at;
      state = state.now;
    }))) out.old.items result out.new.items }
{
    match log_version {
        LogVersion::One => add_plain_base(showing, at, state, out),
        LogVersion::Two => add_worded_base(showing, at, state, out),
    }
}

fn add_plain_base(
    showing: &Showing,
    at: Number,
    state: &[u8],
    out: &mut Vec<u8>,
) -> Result<(), AllocError>
    requires { length state.now ≤ MAX_STATE }
    ensures { Adds (spelling base_item (1, (showing_value One showing.now, (at, state.now))))
        out.old.items result out.new.items }
{
    out.put_u32(1)?;
    showing.write(out)?;
    add_state(at, state, out)
}

fn add_worded_base(
    showing: &Showing,
    at: Number,
    state: &[u8],
    out: &mut Vec<u8>,
) -> Result<(), AllocError>
    requires words { IsTrue (links_follow Two (showing_value Two showing.now)) }
    requires few { length state.now ≤ MAX_STATE }
    ensures { Adds (spelling base_item (2, (showing_value Two showing.now, (at, state.now))))
        out.old.items result out.new.items }
{
    out.put_u32(2)?;
    let _has_words = showing.has_words();
    showing.write_words(out)?;
    add_state(at, state, out)
}

/// Appends the number of a base and the bytes of the state there.
fn add_state(at: Number, state: &[u8], out: &mut Vec<u8>) -> Result<(), AllocError>
    requires { length state.now ≤ MAX_STATE }
    ensures { Adds (spelling (pair number_item (opaque MAX_STATE)) (at, state.now))
        out.old.items result out.new.items }
{
    at.write(out)?;
    out.put_opaque(state)
}
