//! What a witness may say of a node, and what it answers, as definitions.
#![tactic(auto)]

pub use evidence_spec::laws::{a_base_is_of_the_log, accepted_evidence_proves};
