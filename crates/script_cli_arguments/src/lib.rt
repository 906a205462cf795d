//! What the words of a call ask the program for.
#![tactic(auto)]

mod number;
mod parser;
mod request;

pub use request::{GREATEST_SIZE, JOURNAL_LIMIT, Mode, Request, SAMPLE_SIZE, asked};
