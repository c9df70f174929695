//! The order for a run of the service.

use node_keys::Masters;
use serve_options::ServeOptions;
use std::os::unix::net::UnixListener;

/// The order for a run of the service.
#[derive(Clone, Copy, Debug)]
pub struct Order<'a> {
    /// The options of the run.
    pub options: ServeOptions<'a>,
    /// What the nodes' master secrets are made of.
    pub masters: Masters,
    /// The control socket, by which the run can be told to stop, if there is one.
    pub control: Option<&'a UnixListener>,
}
