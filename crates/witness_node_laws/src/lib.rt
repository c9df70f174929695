//! Nodes and witnesses: what an honest node does exposes it nowhere, and its answers are accepted.
#![tactic(auto)]

pub mod laws;
mod texts;
