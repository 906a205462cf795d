//! Commands as bytes: writing them. Which bytes they are says command_codec_spec, with its laws.
//!
//! `encode` writes a command, `encode_changes` and `encode_operator` one by its parts, and
//! `put_name`, `put_value` and `put_op` append a part, all or none. The functions `put`, `put_u32`,
//! `put_u64` and those that begin with `write` are for who writes a larger format into a buffer of
//! its own.
#![tactic(auto)]

mod change_writer;
mod command_writer;
mod operator_writer;
mod part;
mod size;
mod tree_writer;

pub use command_writer::{encode, encode_changes, encode_operator, put_op};
pub use operator_writer::{write_op, write_ops};
pub use part::{put, put_name, put_u32, put_u64, put_value, write_borrowed, write_name};
pub use size::{borrowed_size, name_size, op_size, ops_size};
