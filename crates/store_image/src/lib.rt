//! Images of an archive's groups, written and read.
//!
//! `image_of` writes the image of groups into one buffer of just its bytes, and `read_image` makes
//! groups again of the bytes of an image, or says where they break. Which bytes are an image says
//! store_image_spec; that the image of groups shows just the past that they represent, a law here.
#![tactic(auto)]

mod image_of_store;
mod image_source;
mod laws;
mod size;

pub use image_of_store::image_of;
pub use image_source::read_image;
pub use laws::an_image_shows_its_archive;
pub use store_image_reader::ImageFault;
