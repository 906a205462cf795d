//! The law of losses: databases that agree but for what is lost still do behind each step of a way,
//! and what is not lost is answered alike over both. So no answer shows the constant that a dropped
//! column is filled with. Definitions (`specs/`) and their laws.
#![tactic(auto)]

mod laws;

pub use laws::{databases_agree_up_to_losses, no_answer_shows_a_filling};
