//! Whole texts of items: a value that is spelled by all of the bytes, and passes a test.

pub mod laws;
mod text;

pub use text::{FromText, TextFault, read_text};
