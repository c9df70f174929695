//! What a witness is shown.

ghost use Rattle.std.specs.Prelude.{◌≡◌};
ghost use Rattle.assurance.specs.Passing.{number_of};

/// What a node's signature is of, by the log of the client that has it.
#[derive(Clone, Copy, Debug)]
pub enum ShownOf {
    /// The receipt of a call, which has this number in the log of the node that signed.
    Receipt { number: u64 },
    /// A message, which has this number there: a reply, if it is the server that is called.
    Reply { number: u64 },
}

impl ShownOf {
    /// The number.
    pub fn number(self) -> u64
        ensures { result ≡ number_of self }
    {
        match self {
            ShownOf::Receipt { number } | ShownOf::Reply { number } => number,
        }
    }
}
