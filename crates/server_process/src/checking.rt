//! When a server logs its state.

ghost use Rattle.std.specs.Prelude.{◌≡◌};
ghost use Rattle.server_process.specs.Checking.{counted, is_due};

/// After how many new messages a server logs its state, if it does, and how many it received since it last did.
#[derive(Clone, Copy, Debug)]
pub(crate) struct Checking {
    every: Option<u64>,
    since: u64,
}

impl Checking {
    /// That of a server that has received nothing.
    pub(crate) fn new(every: Option<u64>) -> Checking
        ensures every { result.every ≡ every }
        ensures since { result.since ≡ 0 }
    {
        Checking { every, since: 0 }
    }

    /// One more new message was received: whether its state is to be logged now. The messages are counted anew then.
    pub(crate) fn is_due(&mut self) -> bool
        ensures due { result ≡ is_due self.old.every self.old.since }
        ensures every { self.new.every ≡ self.old.every }
        ensures since { self.new.since ≡ counted self.old.every self.old.since }
    {
        let Some(every) = self.every else {
            return false;
        };
        if self.since < every.saturating_sub(1) {
            self.since += 1;
            return false;
        }
        self.since = 0;
        true
    }
}
