//! What a gateway's own log says of the server.

use crate::news::shown_by;
use authenticator::Authenticator;
use nodes::ClientNode;
use std::alloc::{AllocError, Global};

/// The last that a server signed, as the client's log shows it, if it shows something of it.
pub(crate) fn last_of_server(
    alloc: Global,
    client: &ClientNode,
    server: u32,
) -> Result<Option<Authenticator>, AllocError> {
    for entry in client.node().log().entries().iter().rev() {
        if let Some(shown) = shown_by(alloc, client, entry)? {
            if shown.node == server {
                return Ok(Some(shown));
            }
        }
    }
    Ok(None)
}
