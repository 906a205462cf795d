//! The bytes of store images: which bytes are an image, where others break, and the past that an
//! image shows.
//!
//! What an image has stands in `specs/Images.antt`, with what holds of it; its bytes in
//! `specs/Spelling.antt`. The reader from the start (`specs/Reader.antt`) says where bytes that are
//! no image break: each item is checked by what was read before it.
#![tactic(auto)]

mod laws;

pub use laws::{
    a_past_is_what_it_shows, an_image_has_its_length, an_image_is_what_is_read,
    an_image_shows_a_past, bytes_are_an_image_or_break,
};
