//! Scripts, as they come in: cut into statements, wherever the chunks in which they come begin and
//! end, and each statement read from its text.
//!
//! A statement goes up to the next `;` that stands neither in a text literal nor in a comment. A
//! contract sees a splitter as what it knows of the current statement; `specs/Script.antt` reads a
//! whole script.
//!
//! The grammar of statements stands in `specs/Productions.antt`, over those of expressions,
//! conditions, operators and queries, and at which tokens a count passes its limit in
//! `specs/StatementOverflows.antt`. What a text is read as is defined twice: as a function
//! (`reading`), and in the words of the grammar (`IsReading`, in `specs/Reading.antt`). Laws say
//! that the two are one.
#![tactic(auto)]

mod change_reader;
mod inverse_reader;
mod laws;
mod mode;
mod session_reader;
mod splitter;
mod statement;
mod statement_laws;
mod statement_reader;

pub use laws::{
    clean_is_blanks_and_comments, script_is_its_statements, statements_are_of_a_script,
};
pub use splitter::{Cut, Splitter, Tail};
pub use statement::{ReadFault, Statement};
pub use statement_laws::{
    limits_are_kept, readings_are_of_the_grammar, readings_are_one, statements_are_correct,
    statements_are_read, texts_are_lexed,
};
pub use statement_reader::next_statement;
pub use temporal_lang::{check_aggregate, check_query_counts, count_nodes, refusal_behind};
