//! Which conditions are dead: a top-level part is FALSE, or the parts that compare just one column
//! with a constant leave no value of its type. Exactly, over all values of the type, and without
//! memory.
#![tactic(auto)]

mod bound;
mod column;
mod condition;
mod earlier;
mod laws;
mod lower_bound;
mod part;
mod trial;

pub use condition::is_dead;
pub use laws::a_dead_condition_holds_of_no_values;
