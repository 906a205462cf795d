//! Commands as bytes, written and read.
//!
//! command_codec_writer writes them; here they are read: `decode` a command that is all of the
//! bytes, and `read_name`, `read_value` and `read_op` a part that begins at a place. Which bytes
//! they are says command_codec_spec, with its laws. `Reader` goes over bytes from the start, and
//! `name`, `value`, `op` and `ops` read a part from it, for who reads a larger format.
#![tactic(auto)]

mod command_reader;
mod decoder;
mod fault;
mod field;
mod list;
mod operator_reader;
mod part;
mod reader;
mod tree_reader;
mod value_reader;

pub use command_codec_writer::{
    encode, encode_changes, encode_operator, put_name, put_op, put_value,
};
pub use decoder::decode;
pub use fault::CodecFault;
pub use field::{borrowed_name, column_type, name, sign, value};
pub use operator_reader::{op, ops};
pub use part::{read_name, read_op, read_value};
pub use reader::{Alphabet, ReadStop, Reader, Unexpected};
pub use tree_reader::{MOST_LEVELS, cond_tag, expr_tag, part_count};
pub use value_reader::{borrowed_text, borrowed_value};
