//! The version.

/// The program's version, as `--version` and explanations show it.
pub const VERSION: &str = "0.1.0";
