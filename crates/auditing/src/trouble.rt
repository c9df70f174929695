//! What went wrong with the program itself.

ghost use Rattle.std.specs.Prelude.{◌≢◌};
ghost use Rattle.auditing.specs.declared.trouble.Trouble.TheVariants as troubles;

/// What went wrong with the program itself. The service and the audits go on; the status tells it in the end.
#[derive(Clone, Copy, Debug, PartialEq, Eq)]
pub enum Trouble {
    /// Nothing.
    None,
    /// A file could not be put in its place, or no connection was accepted.
    Device,
    /// Memory was refused.
    NoMemory,
}

impl Trouble {
    /// This, or that a device failed, where nothing went wrong before.
    pub(crate) fn or_device(self) -> Trouble
        ensures { result ≢ troubles.None }
    {
        match self {
            Trouble::None | Trouble::Device => Trouble::Device,
            Trouble::NoMemory => Trouble::NoMemory,
        }
    }
}
