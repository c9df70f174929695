//! What holds of the texts of records (RFC 5531, section 11).

pub mod laws;
