//! The states of bases.

ghost use Rattle.std.specs.Prelude.{◌≡◌, ◌↔◌, ℕ, IfNone, IfOk, IfSome, IsTrue, List, option_map};
ghost use Rattle.replay.specs.replay_spec.state_spec.StateText.{IsStateText};
ghost use Rattle.evidence_showings.specs.Showings.{Ends};
ghost use Rattle.secure_log.specs.LogEntries.Chain.{zeros};
ghost use Rattle.evidence_showings.specs.evidence_spec.Base.{HasState, IsBaseOf, SendsLieBelow};
ghost use Rattle.evidence_showings.specs.evidence_spec.Showing.{Shows, shown_logged};
ghost use Rattle.challenge.specs.BaseStates.{HasNoCheck, HasNoState, IsStateOf};
ghost use Rattle.challenge.specs.BaseStates.{LinkIs, link_at};
ghost use Rattle.authenticator.specs.Numbers.{number_in};
ghost use Rattle.secure_log.specs.declared.log_entries.entry.Entry.TheVariants.{Check};

use authenticator::{LogVersion, Member, is_same_hash};
use evidence_showings::{BaseText, EntryKind, MAX_KNOWN, Mark, ShownLink};
use replay::{
    State, StateFault, a_text_has_one_state, read_parts, read_state, state_digest, state_kind,
};
use secure_log::log_entries::Entry;
use std::alloc::{AllocError, Global};

/// The state of a base whose showing ends in its closing; None where it has none. `AllocError` comes only
/// where a growth was refused.
pub(crate) fn state_of(alloc: Global, base: &BaseText) -> Result<Option<State>, AllocError>
    requires { Ends base.now.log_version base.now.showing }
    ensures some { IfOk result (λ o. IfSome o (λ s. HasState base.now s.state)) }
    ensures none { IfOk result (λ o. IfNone o (HasNoState base.now)) }
{
    a_text_has_one_state();
    if !begins_with_zeros(base) {
        return Ok(None);
    }
    let Some(link) = link_at_number(base) else {
        return Ok(None);
    };
    bytes_state(alloc, base, link)
}

/// Whether a base that is of a member's node, with its state, is of the version of the member's log and of
/// its kind.
pub(crate) fn is_base_of(base: &BaseText, state: &State, member: &Member) -> bool
    ensures { IsTrue result ↔ IsBaseOf base.now state.now.state member.now }
{
    base.log_version() == member.log_version && state_kind(state) == member.kind
}

/// Whether a showing shows no other hash at 0 than 32 zero bytes.
#[tactic(auto, unfolding(secure_log::specs::LogEntries::Chain::zeros))]
fn begins_with_zeros(base: &BaseText) -> bool
    requires { Ends base.now.log_version base.now.showing }
    ensures { IsTrue result ↔ ((mark : List ℕ) → Shows base.now.showing 0 mark → mark ≡ zeros) }
{
    let zeros = Mark::Hash([0; 32]);
    match base.showing().mark_at(base.log_version(), 0) {
        Some(mark) => mark.is_same(&zeros),
        None => true,
    }
}

/// The link of a CHECK at a base's number, if its showing has one there.
fn link_at_number(base: &BaseText) -> Option<&ShownLink>
    requires { Ends base.now.log_version base.now.showing }
    ensures some { IfSome result (λ l. LinkIs base.now l.now) }
    ensures none { IfNone result (HasNoCheck base.now) }
{
    let showing = base.showing();
    let Some(link) = find_link(showing.first() - 1, showing.links(), base.at().get()) else {
        return None;
    };
    if link.kind().number() != EntryKind::Check.number() {
        return None;
    }
    Some(link)
}

/// The link with a number, of links after another number.
fn find_link(before: u64, links: &[ShownLink], number: u64) -> Option<&ShownLink>
    ensures { option_map (λ l. l.now) result ≡ link_at before links.now number }
{
    if number < before {
        return None;
    }
    let mut left = number - before;
    for place in 0..links.len() {
        let link = &links[place];
        let taken = 1 + u64::from(link.skipped());
        if taken == left {
            return Some(link);
        }
        if taken > left {
            return None;
        }
        left -= taken;
    }
    None
}

/// Whether a link is that of a CHECK with this digest.
fn is_check_of(link: &ShownLink, digest: &[u8; 32]) -> bool
    ensures { IsTrue result ↔ (link.now ≡ shown_logged (record {
      skipped = link.now.skipped;
      entry = Check digest.now;
    })) }
{
    let check = Entry::Check { digest: *digest };
    link.is_same(&ShownLink::of_logged(link.skipped(), &check))
}

/// The state whose text a base's bytes are, where the base has it. The showing shows no other hash at 0 than
/// 32 zero bytes, and the link is that of a CHECK at the base's number.
fn bytes_state(
    alloc: Global,
    base: &BaseText,
    link: &ShownLink,
) -> Result<Option<State>, AllocError>
    requires zero { (mark : List ℕ) → Shows base.now.showing 0 mark → mark ≡ zeros }
    requires link { LinkIs base.now link.now }
    ensures some { IfOk result (λ o. IfSome o (λ s. HasState base.now s.state)) }
    ensures none { IfOk result (λ o. IfNone o (HasNoState base.now)) }
{
    a_text_has_one_state();
    match read_state(alloc, base.state()) {
        Ok(state) => match has_state(alloc, base, link, &state) {
            Ok(true) => Ok(Some(state)),
            Ok(false) => Ok(None),
            Err(AllocError) => Err(AllocError),
        },
        Err(StateFault::NoMemory) => Err(AllocError),
        Err(_) => Ok(None),
    }
}

/// Whether a base has a state whose text its bytes are.
fn has_state(
    alloc: Global,
    base: &BaseText,
    link: &ShownLink,
    state: &State,
) -> Result<bool, AllocError>
    requires zero { (mark : List ℕ) → Shows base.now.showing 0 mark → mark ≡ zeros }
    requires link { LinkIs base.now link.now }
    requires text { IsStateText state.now.state base.now.state }
    ensures { IfOk result (λ b. IsTrue b ↔ HasState base.now state.now.state) }
{
    if !knows_few(alloc, base, state)? {
        return Ok(false);
    }
    let digest = state_digest(alloc, state)?;
    Ok(is_check_of(link, &digest))
}

/// Whether a state whose text a base's bytes are is of the showing's node and knows few messages, of which
/// those sent have numbers below the base's.
fn knows_few(alloc: Global, base: &BaseText, state: &State) -> Result<bool, AllocError>
    requires { IsStateText state.now.state base.now.state }
    ensures { IfOk result (λ b. IsTrue b ↔ IsStateOf base.now state.now.state) }
{
    if state.node() != base.showing().node() {
        return Ok(false);
    }
    if state.received().len() > MAX_KNOWN as usize || state.sends().len() > MAX_KNOWN as usize {
        return Ok(false);
    }
    let (version, number) = (base.log_version(), base.at().get());
    sends_lie_below(alloc, version, state, base.state(), number)
}

/// Whether the words of a state's sends have numbers below one, in a log of a version. They are read from the
/// state's text.
fn sends_lie_below(
    alloc: Global,
    version: LogVersion,
    state: &State,
    text: &[u8],
    number: u64,
) -> Result<bool, AllocError>
    requires { IsStateText state.now.state text.now }
    ensures { IfOk result (λ b. IsTrue b ↔ SendsLieBelow version state.now.state number) }
{
    // The text is a state's: its parts are refused only where memory runs out.
    let Ok(parts) = read_parts(alloc, text) else {
        return Err(AllocError);
    };
    for place in 0..parts.sends.len() {
        let word = parts.sends[place].seq;
        if number_of(version, word) >= number {
            return Ok(false);
        }
    }
    Ok(true)
}

/// The number in a word of 64 bits, in a log of a version.
fn number_of(version: LogVersion, word: u64) -> u64
    ensures { result ≡ number_in version word }
{
    match version {
        LogVersion::One => word,
        LogVersion::Two => word % 4_294_967_296,
    }
}
