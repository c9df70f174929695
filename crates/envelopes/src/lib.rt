//! Messages between nodes and their acknowledgements, as texts that are signed.
#![tactic(auto)]

mod acknowledgement;
mod checks;
mod envelope;
pub mod laws;
mod message;
mod text;

pub use acknowledgement::{Ack, AckRef};
pub use checks::{acknowledged_by, check_ack, check_envelope, sent_by};
pub use envelope::{Envelope, EnvelopeRef};
pub use message::Message;
pub use secure_log::{
    Authenticator, Checked, ClosedSegment, Refusal, Roster, Segment, SegmentFault, check,
    check_segment,
};
