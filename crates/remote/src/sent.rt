//! What is kept of a call to tell its acknowledgement and its reply by.

ghost use Rattle.std.specs.Prelude.{◌≡◌, ◌↔◌, ◌<◌, IsTrue, MatchOption, length, take};
ghost use Rattle.remote.specs.Sent.{IsXidOwed};

use authenticator::Word;
use rpc::read_call;

/// What is kept of a call to tell its acknowledgement and its reply by.
#[derive(Clone, Copy)]
pub(crate) struct Sent {
    /// Its word in the client's log.
    pub(crate) word: Word,
    /// Its transaction id, where a reply is owed to it.
    pub(crate) xid: Option<[u8; 4]>,
}

/// The transaction id that the reply to these bytes has, their first four, if a reply is owed: to a call
/// (RFC 5531, section 9), and to nothing else. Takes no memory.
pub(crate) fn xid_owed(bytes: &[u8]) -> Option<[u8; 4]>
    ensures { IsXidOwed bytes.now result }
{
    match read_call(bytes) {
        Ok(_) => first_four(bytes),
        Err(_) => None,
    }
}

/// The first four bytes, if there are so many.
fn first_four(bytes: &[u8]) -> Option<[u8; 4]>
    ensures { MatchOption result (length bytes.now < 4) (λ four. four ≡ take 4 bytes.now) }
{
    match bytes.split_first_chunk::<4>() {
        Some((four, _)) => Some(*four),
        None => None,
    }
}

/// Whether bytes begin with a transaction id. Takes no memory.
pub(crate) fn has_xid(bytes: &[u8], xid: &[u8; 4]) -> bool
    ensures { IsTrue result ↔ (take 4 bytes.now ≡ xid.now) }
{
    match bytes.split_first_chunk::<4>() {
        Some((first, _)) => first.as_slice() == xid.as_slice(),
        None => false,
    }
}
