//! What the file of an archive stands for: records of commands and of images of the store, and so a
//! past; or where the file is damaged. Definitions (`specs/`) and their laws.
#![tactic(auto)]

mod laws;

pub use laws::{a_file_opens_or_is_damaged, records_go_on, sound_records_are_a_history};
