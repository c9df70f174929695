//! The authenticators of each member with the greatest number that a witness was shown.

ghost use Rattle.std.specs.Prelude.{◌≡◌, None, IfOk, length, option_map, replicate};
ghost use Rattle.watching.specs.Shown.{is_later, later, shown_in, with_shown};

use authenticator::{Authenticator, LogVersion, Member};
use std::alloc::{AllocError, Global};

/// That nothing was shown, so many times.
pub(crate) fn nothing_shown(
    alloc: Global,
    count: usize,
) -> Result<Vec<Option<Authenticator>>, AllocError>
    ensures { IfOk result (λ v. v.items ≡ replicate count None) }
{
    let mut shown = Vec::new(alloc);
    for _place in 0..count {
        if shown.push(None).is_err() {
            return Err(AllocError);
        }
    }
    Ok(shown)
}

/// Keeps an authenticator as what its node showed last, where its number is greater.
pub(crate) fn note_shown(
    members: &[Member],
    shown: &mut [Option<Authenticator>],
    authenticator: Authenticator,
)
    requires { length shown.old ≡ length members.now }
    ensures { shown.new ≡ with_shown members.now authenticator shown.old }
{
    for place in 0..members.len() {
        if members[place].node == authenticator.node {
            put_later(&members[place], &mut shown[place], authenticator);
            return;
        }
    }
}

/// Puts an authenticator in the place of what its node showed before, where its number is greater.
fn put_later(member: &Member, shown: &mut Option<Authenticator>, authenticator: Authenticator)
    ensures { shown.new ≡ later member.now.log_version shown.old authenticator }
{
    if is_later(member.log_version, shown, &authenticator) {
        *shown = Some(authenticator);
    }
}

/// Whether the number of an authenticator is greater than that of what was shown before.
fn is_later(
    version: LogVersion,
    shown: &Option<Authenticator>,
    authenticator: &Authenticator,
) -> bool
    ensures { result ≡ is_later version shown.now authenticator.now }
{
    match shown {
        Some(before) => {
            before.word.number(version).get() < authenticator.word.number(version).get()
        }
        None => true,
    }
}

/// What a node showed last, if it is a member.
pub(crate) fn shown_of<'a>(
    members: &[Member],
    shown: &'a [Option<Authenticator>],
    node: u32,
) -> Option<&'a Authenticator>
    requires { length shown.now ≡ length members.now }
    ensures { option_map (λ a. a.now) result ≡ shown_in members.now node shown.now }
{
    for place in 0..members.len() {
        if members[place].node == node {
            return shown[place].as_ref();
        }
    }
    None
}
