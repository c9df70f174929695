//! What a terminal may show of names that somebody else chose, and the version that programs show.
#![tactic(auto)]

mod laws;
mod name;
mod version;

pub use laws::names_are_printed;
pub use name::ShownName;
pub use version::VERSION;
