//! What programs of cases share: lines that are played in turn, words, values, bytes in
//! hexadecimal, numbers, and answers in groups.
#![tactic(auto)]

mod group;
mod hex;
mod numeral;
mod player;
mod value;
mod word;

pub use group::Groups;
pub use hex::{read_hex, write_hex};
pub use numeral::{read_number, with_number, write_number};
pub use player::{LinePlayer, play_lines};
pub use value::{read_value, text_value};
pub use word::first_word;
