//! What is taken of a stream of records, and what is written for them, whatever is owed.
#![tactic(auto)]
