//! The thread that reports to witnesses.

use crate::context::{Context, Shared};
use crate::run::Ending;
use crate::trouble::{Trouble, spelled_digest};
use crate::witness_peer::WitnessPeer;
use assurance::Keeper;
use peer_connections::Phase;
use std::alloc::{AllocError, Global};
use std::io::Write;
use std::net::{Net, TcpListener, TcpStream};
use std::sync::Wait;
use std::time::Duration;

/// How many milliseconds pass between two looks at the phase, and how many such looks there are in a second.
const LOOK: u64 = 100;

const LOOKS_OF_A_SECOND: u64 = 10;

/// The keys that a call takes of its client.
const KEYS_OF_A_CALL: u32 = 2;

/// Reports to witnesses.
#[derive(Drop)]
pub(crate) struct Reporter<K> {
    witnesses: Vec<WitnessPeer>,
    /// How many seconds pass between two reports.
    every: u32,
    /// How many messages that witnesses ask for may still be received.
    reserve: u32,
    /// Who keeps what a witness refuses as below its base.
    keeper: K,
}

impl<K: Keeper + Drop> Reporter<K> {
    /// Reports to witnesses at these addresses, every so many seconds. At most `reserve` messages are received for
    /// them. What one refuses as below its base goes to the keeper.
    pub(crate) fn new(
        alloc: Global,
        addresses: Vec<String>,
        every: u32,
        reserve: u32,
        keeper: K,
    ) -> Result<Reporter<K>, AllocError> {
        let mut witnesses = Vec::new(alloc);
        for address in addresses {
            witnesses.push(WitnessPeer::new(address))?;
        }
        Ok(Reporter {
            witnesses,
            every,
            reserve,
            keeper,
        })
    }

    /// Reports until the process no longer serves.
    pub(crate) fn run<R, T, W, E>(&mut self, shared: Shared<'_, R, T, W, E>)
    where
        R: Wait + Net<Listener = TcpListener, Stream = TcpStream>,
        T: std::time::Clock,
        W: Write,
        E: Write,
    {
        for _ in 0..u64::MAX {
            self.report(shared);
            if !waits(shared, self.every) {
                return;
            }
        }
    }

    /// Reports to each witness. Where one can't be reached that is said once, and it is tried again at the next
    /// report, also one that goes by another roster.
    pub(crate) fn report<R, T, W, E>(&mut self, shared: Shared<'_, R, T, W, E>)
    where
        R: Wait + Net<Listener = TcpListener, Stream = TcpStream>,
        T: std::time::Clock,
        W: Write,
        E: Write,
    {
        for witness in &mut self.witnesses {
            report_to(shared, witness, &mut self.reserve, &mut self.keeper);
        }
    }
}

/// Waits until the next report is due after so many seconds, or at once, or the process no longer serves, and has the
/// serving end where the client's keys are used up. Whether it still serves.
fn waits<R, T, W, E>(shared: Shared<'_, R, T, W, E>, seconds: u32) -> bool
where
    R: Wait,
    T: std::time::Clock,
    W: Write,
    E: Write,
{
    let looks = u64::from(seconds.max(1)).saturating_mul(LOOKS_OF_A_SECOND);
    for _ in 0..looks {
        look_at_keys(shared);
        if !shared.context.is_serving() {
            return false;
        }
        if shared.context.has_urgent_news() {
            return true;
        }
        shared.context.clock.sleep(Duration::from_millis(LOOK));
    }
    true
}

/// Ends the serving where the client has fewer keys left than a call takes.
fn look_at_keys<R, T, W, E>(shared: Shared<'_, R, T, W, E>)
where
    R: Wait,
    W: Write,
    E: Write,
{
    let client = shared.client.lock(shared.context.rt);
    if client.client().client().node().left() < KEYS_OF_A_CALL {
        shared.context.end(Phase::KeysUsedUp);
    }
}

/// Reports to a witness, and says what goes wrong; and which replies it answers for, where that is to be said.
fn report_to<R, T, W, E, K>(
    shared: Shared<'_, R, T, W, E>,
    witness: &mut WitnessPeer,
    reserve: &mut u32,
    keeper: &mut K,
)
where
    R: Wait + Net<Listener = TcpListener, Stream = TcpStream>,
    T: std::time::Clock,
    W: Write,
    E: Write,
    K: Keeper,
{
    let Err(trouble) = witness.report(shared, reserve, keeper) else {
        witness.has_failed = false;
        if shared.context.progress {
            witness.say_progress(shared.context);
        }
        return;
    };
    if let Trouble::OwnPutBack(_) = &trouble {
        let _before = shared.context.end_by(Ending::PutBack);
    }
    if !witness.has_failed {
        let Context { alloc, .. } = shared.context;
        let line = trouble_line(alloc, witness.address(), &trouble);
        shared.context.say(line);
    }
    witness.has_failed = true;
}

/// The line that says what is wrong with a witness.
fn trouble_line(alloc: Global, address: &str, trouble: &Trouble) -> Result<String, AllocError> {
    match trouble {
        Trouble::OtherRoster(digest) => {
            let digest = spelled_digest(alloc, digest)?;
            format!(in alloc; "nfsacc: witness {address} greets another roster {digest}\n")
        }
        Trouble::OwnPutBack(_) => format!(in alloc; "nfsacc: {trouble}\n"),
        _ => format!(in alloc; "nfsacc: witness {address}: {trouble}\n"),
    }
}
