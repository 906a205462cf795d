//! A counter of steps, and the one call that makes one. A crate that does not list this one counts
//! in the counters that it is handed, and in no other.
#![tactic(auto)]

mod counter;

pub use counter::{Steps, fresh_steps};
