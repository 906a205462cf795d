//! Rules that take pieces through the operators of one kind each, boxed or not, and a book of one
//! rule for each kind.
#![tactic(auto)]

mod book;
mod kind;
mod rule;

pub use book::{BookFault, RuleBook};
pub use kind::{kind_of, same_kind};
pub use rule::Rule;
