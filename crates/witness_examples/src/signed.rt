//! Histories of values that are really signed.

pub mod answers;
pub mod audits;
pub mod bases;
pub mod books;
pub mod faults;
pub mod messages;
