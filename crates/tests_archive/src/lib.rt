//! What no script can say of an archive, and only running shows: how often a query reads and which
//! of its texts are borrowed, which version is in force, and the pieces that stand for a table.
//!
//! Every other case is a script with its replies, in the crates whose names begin with `cases_`.
#![tactic(auto)]

#[cfg(test)]
mod archive;
#[cfg(test)]
mod counter;
#[cfg(test)]
mod version;
