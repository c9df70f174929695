//! What the program says beside its results, and its exit statuses.
#![tactic(auto)]

mod devices;
mod errors;
mod logging;
mod reports;
mod statuses;
mod times;

pub use devices::Remembering;
pub use errors::{ErrorWriter, TimedErrors};
pub use logging::{LogFile, Logged};
pub use reports::{report_file, report_name, report_no_memory, report_output, report_words};
pub use statuses::{
    COMMAND_LINE, DEVICE, EXPOSED, INPUT_FAULT, KEYS_USED_UP, NO_MEMORY, NOT_ACCEPTED, SUSPECTED,
};
pub use times::time_now;
