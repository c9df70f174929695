//! Calls at a witness: a pass with all that its steps need, the packets that it is
//! handed, and where its files go.
#![tactic(auto)]

mod asked;
mod caller;
mod closing;
mod opening;
pub mod packet_texts;
mod replays;
mod said;
mod shelf;
mod told;

pub use asked::Asked;
pub use caller::Caller;
pub use challenge::{Evidence, write_case};
pub use closing::close;
pub use opening::{open_witness, start_witness};
pub use replays::{Outcome, Replayed};
pub use said::{Said, indication_word};
pub use shelf::Shelf;
pub use told::Told;
pub use witness_service::{
    Closed, Pass, ReceiptFault, SignatureCache, StartFault, WitnessService, admit,
};
