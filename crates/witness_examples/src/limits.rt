//! Long histories of whole audits, and what a witness answers after them.

pub mod limits;
pub mod two_books;
