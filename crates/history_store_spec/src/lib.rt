//! What is kept of a table: the periods of its keys and the entries of its columns, and the
//! relation that they stand for at each moment; definitions.
#![tactic(auto)]
