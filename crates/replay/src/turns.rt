//! Whether it is an entry's turn.

ghost use Rattle.std.specs.Prelude.{◌≡◌};
ghost use Rattle.checkpoint.specs.state_machine.Machines.{machine_in};
ghost use Rattle.authenticator.specs.Signing.{is_same};
ghost use Rattle.checkpoint.specs.state_spec.State.{clock_in};
ghost use Rattle.replay_spec.specs.Stepping.{is_bad_form, is_clock, is_clock_back, is_out_of_turn};
ghost use Rattle.replay_spec.specs.Stepping.{is_send, is_send_of, is_wrong_reply, shows_no_time};

use checkpoint::{Machine, Stage};
use secure_log::log_entries::Entry;

/// A server heard a message and the entry isn't CLOCK, or it heard none and the entry is CLOCK; or a CLOCK's
/// microseconds are above 999,999.
pub(crate) fn is_bad_form(machine: &Machine, entry: &Entry) -> bool
    ensures { result ≡ is_bad_form (machine_in machine.now) entry.now }
{
    is_out_of_turn(machine, entry) || shows_no_time(entry)
}

/// A server heard a message and the entry isn't CLOCK, or it heard none and the entry is CLOCK.
fn is_out_of_turn(machine: &Machine, entry: &Entry) -> bool
    ensures { result ≡ is_out_of_turn (machine_in machine.now) entry.now }
{
    match machine {
        Machine::Server(_, Stage::Heard { .. }) => !is_clock(entry),
        Machine::Server(_, _) => is_clock(entry),
        Machine::Client(_) => false,
    }
}

/// A CLOCK's microseconds are above 999,999.
fn shows_no_time(entry: &Entry) -> bool
    ensures { result ≡ shows_no_time entry.now }
{
    match entry {
        Entry::Clock { microseconds, .. } => *microseconds > 999_999,
        _ => false,
    }
}

/// A server owes no reply and the entry is SEND; or it owes one, and the entry isn't the SEND of it.
pub(crate) fn is_wrong_reply(machine: &Machine, entry: &Entry) -> bool
    ensures { result ≡ is_wrong_reply (machine_in machine.now) entry.now }
{
    match machine {
        Machine::Server(_, Stage::Owes { to, body }) => !is_send_of(*to, body.bytes(), entry),
        Machine::Server(_, _) => is_send(entry),
        Machine::Client(_) => false,
    }
}

/// A CLOCK is before the last reading.
pub(crate) fn is_clock_back(machine: &Machine, entry: &Entry) -> bool
    ensures { result ≡ is_clock_back (machine_in machine.now) entry.now }
{
    let Entry::Clock {
        seconds,
        microseconds,
    } = entry
    else {
        return false;
    };
    let last = machine.clock();
    *seconds < last.seconds() || (*seconds == last.seconds() && *microseconds < last.microseconds())
}

fn is_clock(entry: &Entry) -> bool
    ensures { result ≡ is_clock entry.now }
{
    matches!(entry, Entry::Clock { .. })
}

fn is_send(entry: &Entry) -> bool
    ensures { result ≡ is_send entry.now }
{
    matches!(entry, Entry::Send { .. })
}

/// The entry is the SEND of this body to this node.
fn is_send_of(whom: u32, reply: &[u8], entry: &Entry) -> bool
    ensures { result ≡ is_send_of whom reply.now entry.now }
{
    match entry {
        Entry::Send { to, body } => *to == whom && is_same(body.bytes(), reply),
        _ => false,
    }
}

/// The texts are the same.
pub(crate) fn is_same(a: &[u8], b: &[u8]) -> bool
    ensures { result ≡ is_same a.now b.now }
{
    a == b
}
