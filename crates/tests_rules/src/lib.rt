//! What is below an archive, with ample memory: the boxed rules and their book, pieces, inverses of
//! operators, and an expression read from tokens.
//!
//! Every other case is a script with its replies, in the crates whose names begin with `cases_`.
#![tactic(auto)]

#[cfg(test)]
mod expression;
#[cfg(test)]
mod inverse;
#[cfg(test)]
mod operator;
#[cfg(test)]
mod piece;
#[cfg(test)]
mod rule;
