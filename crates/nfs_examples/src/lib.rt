//! Worked calls, by which the definitions of effects are held against values.
#![tactic(auto)]

mod at_limits;
mod linked;
mod rows;

pub use at_limits::{any_name_is_made, any_text_is_written, the_last_number_and_cookie};
pub use linked::{a_link_and_a_directory_after, one_file_under_two_names};
pub use rows::{
    changes_on_small_files, files_made_and_removed, names_below_a_renamed_directory,
    pages_round_a_removal, reads_of_the_opening,
};
