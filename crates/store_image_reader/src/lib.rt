//! Store images, read from the start.
//!
//! `read` answers what an image has, or the place of the first byte of what breaks it: each
//! version, lifeline, key and entry is checked by what was read before it. Which bytes are an
//! image, and where others break, says store_image_spec (`specs/Reader.antt` there). Where a count
//! is cut off, or an item is not as it must be, its reader stands again at its first byte.
#![tactic(auto)]

mod count;
mod due;
mod entry;
mod fault;
mod image;
mod key;
mod line;
mod stamp;
mod version;

pub use due::{DueLine, due_lines};
pub use fault::ImageFault;
pub use image::{ReadImage, read};
pub use line::{ReadLine, last_number};
