//! Plays scripts that stand as cases in one text, each over an archive of its own.
//!
//! A line `== name` begins a case: its script is the lines after that line, each with its line
//! break, up to the next line that begins a case or a setup. A line `=. name` begins a setup, whose
//! script stands before that of each case after it that a line `=+ name` begins, up to the next
//! setup. A line `=- KIND` begins a case whose book has a rule that finds no memory, whatever it is
//! asked, and a line `=~ KIND` one whose book has a rule that answers its pieces in the opposite
//! order: the rule of that kind of operator, as `MERGE TABLE`.
//!
//! What is played is `run` itself, over a source in memory that hands out small chunks and a sink
//! in memory.
#![tactic(auto)]

mod block;
mod odd_rule;
mod oddity;
mod player;
mod run;

pub use player::play;
pub use run::run_with_rules;
pub use script_cli::{FileDisk, ReaderSource, Status, Word, WriterSink};
