//! What queries mean: the definitions that contracts cite (`specs/`), and their laws. What a query
//! lists over all of history, apart from any way of computing it; what is wrong with one, in the
//! one order; and whether one is accepted after a past. What its branches answer over one database
//! is said in plain_answers_spec.
//!
//! Nothing runs here. Each function is proved and does nothing; crates above make their proofs of
//! the lemmas of `proofs/`.
#![tactic(auto)]

mod laws;

pub use laws::{
    a_query_is_refused_for_want_of_an_inverse_alone, first_loss_is_at_the_least_moment,
    listing_is_the_one_list,
};
