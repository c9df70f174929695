//! What holds of honest logs: their messages, and the logs of servers that answer as they owe.

pub mod laws;
