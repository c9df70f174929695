//! States that nodes begin with.

ghost use Rattle.std.specs.Prelude.{◌≡◌, IfOk};
ghost use Rattle.std.specs.FinMap.{len};
ghost use Rattle.replay_spec.specs.Opening.{opening_of};

use authenticator::{Kind, Member};
use checkpoint::State;
use std::alloc::{AllocError, Global};

/// The state that a member begins with, before the first entry of its log: a server's files are the directory
/// `/` and in it the regular file `hello`, with nothing mounted and no reply owed; its clock and a client's
/// are at 0, and no message is received or sent. `AllocError` comes only where a growth was refused.
pub fn opening_state(alloc: Global, member: &Member) -> Result<State, AllocError>
    ensures state { IfOk result (λ state. state.state ≡ opening_of member.now) }
    ensures none_received { IfOk result (λ state. len state.state.received ≡ 0) }
    ensures none_sent { IfOk result (λ state. len state.state.sends ≡ 0) }
{
    match member.kind {
        Kind::Server => State::opening_server(alloc, member.node),
        Kind::Client => Ok(State::opening_client(alloc, member.node)),
    }
}
