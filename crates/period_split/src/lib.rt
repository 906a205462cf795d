//! The periods of the versions inside a slice of time: where a query asks which version (PRIMA
//! 2008).
#![tactic(auto)]

mod period_part;

pub use period_part::split;
