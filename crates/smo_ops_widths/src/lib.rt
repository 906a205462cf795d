//! How wide the tables of a version are where they are read from another, and the measure of what
//! makes a version.
#![tactic(auto)]

mod dead;
mod measure;
mod names;
mod new_version;
mod operator;
mod read_version;
mod size;
mod way;
mod width;
mod widths;

pub use new_version::{MAX_MEASURE, widest};
pub use read_version::widths_between;
pub use size::size_of;
pub use width::TableWidth;
