//! The texts of operators: each is read from tokens, and has one canonical text, which is printed.
//!
//! The grammar of the twelve operators stands in `specs/Productions.antt`, over the one of
//! expressions and conditions of the lexer's crate; `specs/OperatorReader.antt` reads it from left
//! to right. The canonical texts stand in `specs/Texts.antt`, and those of expressions and
//! conditions, for all who print such, in `specs/TreeTexts.antt`.
#![tactic(auto)]

mod laws;
mod op_printer;
mod operator_reader;
mod parse;
mod tree_printer;

pub use laws::{operator_counts_add_up, operators_are_correct, printed_operators_are_read};
pub use op_printer::{op_text, write_columns, write_names};
pub use operator_reader::operator;
pub use parse::parse_op;
pub use tree_printer::{put, write_cond, write_expr};
