//! What a script is, said apart from the splitter, and the laws by which the splitter keeps to it.
//! Definitions (`specs/`) and their laws.
#![tactic(auto)]

mod laws;

pub use laws::{
    a_clean_tail_is_a_gap, a_script_is_read_in_one_way, a_statement_has_no_open_text,
    texts_of_the_lexer_are_texts,
};
