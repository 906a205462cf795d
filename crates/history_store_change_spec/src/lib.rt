//! What the keys and writes of a stored table stand for, and what a change makes of them:
//! definitions and laws.
#![tactic(auto)]
