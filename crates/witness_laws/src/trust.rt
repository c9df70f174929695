//! An honest node is never exposed.

pub mod laws;
