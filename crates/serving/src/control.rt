//! The control socket, by which a run can be told to stop.

use crate::connection::ConnectionContext;
use crate::phase::Phase;
use auditing::Shelf;
use sockets::says_stop;
use std::io::Write;
use std::os::unix::net::UnixListener;
use std::sync::Wait;
use std::time::Duration;

/// How many milliseconds pass between two looks at the socket.
const PAUSE: u64 = 100;

/// Waits for the command to stop until all connections have ended, and stops the run when it comes.
pub(crate) fn attend<'a, R, T, E, S>(
    context: ConnectionContext<'a, R, T, E, S>,
    control: &UnixListener,
)
where
    R: Wait,
    T: std::time::Clock,
    E: Write,
    S: Shelf,
{
    // A socket that blocks would keep the run from ending.
    if control.set_nonblocking(true).is_err() {
        return;
    }
    for _ in 0..u64::MAX {
        if context.phase() != Phase::Serving {
            return;
        }
        match control.accept() {
            Ok((caller, _)) => {
                if says_stop(&caller) {
                    context.stop();
                }
            }
            Err(_) => context.clock.sleep(Duration::from_millis(PAUSE)),
        }
    }
}
