//! Pieces of rewritten queries, and what is done with them: copied, substituted in, unfolded by
//! views, and explained.
#![tactic(auto)]

mod atom_fill;
mod choice;
mod explained;
mod laws;
mod name;
mod output;
mod piece;
mod reference;
mod sameness;
mod substitution;
mod unfolded;
mod view;

pub use atom_fill::column_of;
pub use choice::unfold_by;
pub use explained::Explained;
pub use laws::{substitution_puts_a_value, the_same_pieces_are_equal};
pub use piece::{Piece, copy_pieces};
pub use sameness::{same_form, same_pieces};
pub use substitution::{needs, substitute};
pub use unfolded::append_parts;
pub use view::{TableViews, View};
