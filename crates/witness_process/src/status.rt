//! How a witness is.

use crate::context::Context;
use peer_connections::Teller;
use std::alloc::{AllocError, Global};
use std::sync::Wait;
use std::time::Clock;

/// Who knows how a witness is.
#[derive(Drop)]
pub(crate) struct WitnessTeller<'a, R, T, W, E, S> {
    pub(crate) context: Context<'a, R, T, W, E, S>,
}

impl<R: Wait, T: Clock, W, E, S> Teller for WitnessTeller<'_, R, T, W, E, S> {
    fn tell(&self, alloc: Global) -> Result<String, AllocError> {
        let epoch = self.context.settings.epoch;
        let mut text = format!(in alloc; "kind: witness\nepoch: {epoch}\n")?;
        self.context.lock().tell_nodes(alloc, &mut text)?;
        Ok(text)
    }
}
