//! Whether a local program's connection has ended.

use remote_sharing::Presence;
use std::io;
use std::net::TcpStream;

/// A local program's connection, which another thread reads and writes.
#[derive(Drop)]
pub(crate) struct LocalStream {
    stream: TcpStream,
}

impl LocalStream {
    /// The connection of a stream, of which this is another handle.
    pub(crate) fn new(stream: TcpStream) -> LocalStream {
        LocalStream { stream }
    }

    /// Whether the system reports an error of it, or its end. Where bytes wait to be read before its end, that isn't
    /// seen.
    fn is_closed(&self) -> bool {
        if let Ok(Some(_)) = self.stream.take_error() {
            return true;
        }
        let mut byte = [0];
        match self.stream.peek(&mut byte) {
            Ok(count) => count == 0,
            Err(error) => error.kind() != io::ErrorKind::WouldBlock,
        }
    }
}

/// The other thread waits for the call in flight meanwhile, and neither reads nor writes.
impl Presence for LocalStream {
    fn has_ended(&self) -> bool {
        if self.stream.set_nonblocking(true).is_err() {
            return false;
        }
        let has_ended = self.is_closed();
        let _ = self.stream.set_nonblocking(false);
        has_ended
    }
}
