//! What a server answers to an envelope.

ghost use Rattle.std.specs.Prelude.{◌≡◌, OnOk};

use crate::trouble::Trouble;
use peer_calls::{Delivered, read_delivered};
use remote_sharing::{Carried, CourierFault};
use std::alloc::{AllocError, Global};

/// The refusals of a server that has too few keys or numbers left.
const KEYS_USED_UP: u32 = 4;

const GAP_TOO_WIDE: u32 = 6;

/// What a server answers to an envelope.
#[derive(Clone, Copy)]
pub(crate) enum Delivery {
    Carried(Carried),
    /// It refuses it, by this number.
    Refused(u32),
}

/// Takes the results of DELIVER: the texts of an acknowledgement and of a reply's envelope, if there is one, are
/// written, in place of what the bytes were.
pub(crate) fn take_delivered(
    alloc: Global,
    results: &[u8],
    ack: &mut Vec<u8>,
    reply: &mut Vec<u8>,
) -> Result<Delivery, Trouble> {
    match read_delivered(alloc, results)? {
        Delivered::Taken {
            ack: text,
            reply: None,
        } => {
            put(text, ack)?;
            reply.clear();
            Ok(Delivery::Carried(Carried::Acknowledged))
        }
        Delivered::Taken {
            ack: text,
            reply: Some(envelope),
        } => {
            put(text, ack)?;
            put(envelope, reply)?;
            Ok(Delivery::Carried(Carried::Answered))
        }
        Delivered::Refused(number) => Ok(Delivery::Refused(number)),
    }
}

/// Writes a text in place of what the bytes were.
fn put(text: &[u8], out: &mut Vec<u8>) -> Result<(), AllocError>
    ensures { OnOk result (out.new.items ≡ text.now) }
{
    out.clear();
    out.extend_from_slice(text)
}

/// What came of a delivery, as a courier tells it.
pub(crate) fn told(delivery: Delivery) -> Result<Carried, CourierFault> {
    match delivery {
        Delivery::Carried(carried) => Ok(carried),
        Delivery::Refused(KEYS_USED_UP | GAP_TOO_WIDE) => Err(CourierFault::KeysUsedUp),
        Delivery::Refused(_) => Err(CourierFault::Refused),
    }
}
