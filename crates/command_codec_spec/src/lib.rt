//! The bytes of commands: which bytes spell which name, value, expression, condition, operator,
//! change and command, what of them can be written, and what bytes are that are no whole spelling.
//!
//! The spelling stands in `specs/Spelling.antt`, and what has one in `specs/Valid.antt`. Readers
//! from the start stand in `specs/Reader.antt`. `IsCorrectParser` of `specs/Reading.antt` joins
//! both: what a reader reads is spelled so, what is spelled so is read, whatever follows, and where
//! nothing is read the byte is the first with which no spelling goes on.
#![tactic(auto)]

mod laws;

pub use laws::{
    a_command_has_one_encoding, accepted_commands_can_be_written, bytes_are_one_thing,
    no_encoding_is_a_prefix, parts_are_read,
};
