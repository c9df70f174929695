//! Why a call of a server on another host gave no answer.

ghost use Rattle.std.specs.Prelude.{◌≡◌};
ghost use Rattle.remote.specs.Links.{call_fault, courier_fault, link_fault};

use crate::courier::CourierFault;
use crate::fault::AcceptFault;
use nodes::LinkFault;
use thiserror::Error;

/// Why a call of a server on another host gave no answer.
#[derive(Clone, Copy, Debug, PartialEq, Eq, Error)]
pub enum CallFault {
    /// It wasn't begun, by the client's fault, or since there is no way to the server.
    #[error("not begun")]
    NotBegun(LinkFault),
    /// It was begun, and nothing came back for it.
    #[error("not carried")]
    Uncarried(CourierFault),
    /// What came back was refused, the last time that it was carried.
    #[error("refused")]
    Refused(AcceptFault),
}

impl CallFault {
    /// The same as a fault of the link.
    pub fn link_fault(self) -> LinkFault
        ensures { result ≡ call_fault self }
    {
        match self {
            CallFault::NotBegun(fault) => fault,
            CallFault::Uncarried(fault) => of_courier(fault),
            CallFault::Refused(why) => of_refusal(why),
        }
    }
}

/// Why nothing came back, as a fault of the link.
fn of_courier(fault: CourierFault) -> LinkFault
    ensures { result ≡ courier_fault fault }
{
    match fault {
        CourierFault::KeysUsedUp => LinkFault::KeysUsedUp,
        CourierFault::NoMemory => LinkFault::NoMemory,
        CourierFault::Refused | CourierFault::Lost => LinkFault::Failed,
    }
}

/// Why what came back was refused, as a fault of the link.
fn of_refusal(why: AcceptFault) -> LinkFault
    ensures { result ≡ link_fault why }
{
    match why {
        AcceptFault::KeysUsedUp => LinkFault::KeysUsedUp,
        AcceptFault::NoMemory => LinkFault::NoMemory,
        _ => LinkFault::Failed,
    }
}
