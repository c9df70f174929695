//! What entries show of other nodes' logs.

ghost use Rattle.std.specs.Prelude.{◌≡◌, IfOk};
ghost use Rattle.replay_spec.specs.Stepping.{shown_by};

use crate::messages::acknowledged_hash;
use authenticator::Authenticator;
use checkpoint::State;
use secure_log::log_entries::{Entry, message_hash};
use std::alloc::{AllocError, Global};

/// The authenticator that an entry after a state shows, with a copy of the signature: a RECV its sender's,
/// an ACK that of the receiver of its message, if that was sent. Other entries show none.
pub(crate) fn shown_by(
    alloc: Global,
    state: &State,
    entry: &Entry,
) -> Result<Option<Authenticator>, AllocError>
    ensures { IfOk result (λ shown. shown ≡ shown_by state.now.state entry.now) }
{
    match entry {
        Entry::Recv {
            from,
            seq,
            prev,
            body,
            signature,
        } => Ok(Some(Authenticator {
            node: *from,
            word: *seq,
            hash: message_hash(state.node(), *seq, prev, &body.digest()),
            signature: signature.signature().try_clone(alloc)?,
        })),
        Entry::Ack {
            to: _,
            seq,
            mine,
            number,
            prev,
            signature,
        } => {
            let Some(message) = state.sends().get(seq.get()) else {
                return Ok(None);
            };
            Ok(Some(Authenticator {
                node: message.to(),
                word: *number,
                hash: acknowledged_hash(state.node(), *seq, &message, mine, *number, prev),
                signature: signature.signature().try_clone(alloc)?,
            }))
        }
        _ => Ok(None),
    }
}
