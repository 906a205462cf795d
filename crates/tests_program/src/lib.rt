//! What no script can say of the program's ends, and only running shows: sources and sinks that
//! fail at chosen calls, runs over them of texts of more than a megabyte and of scripts that are
//! cut at every byte, the adapters over files, and the words of a call with ample memory.
//!
//! Every other case is a script with its replies, in the crates whose names begin with `cases_`.
#![tactic(auto)]

#[cfg(test)]
mod adapter;
#[cfg(test)]
mod device;
#[cfg(test)]
mod file_disk;
#[cfg(test)]
mod run;
#[cfg(test)]
mod word;
