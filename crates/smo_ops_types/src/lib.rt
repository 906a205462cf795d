//! Schema modification operators, changes of rows, commands and versions as the program holds them,
//! with their copies, and the faults of the calls that take them.
//!
//! A contract sees an operator, a change and a command as plain mirrors of them
//! (`specs/Operators.antt`, `specs/Changes.antt`, `specs/Commands.antt`).
#![tactic(auto)]

mod change;
mod command;
mod copy;
mod op;
mod version;

pub use change::{Change, ChangeFault};
pub use command::{Body, Command};
pub use copy::copy_sets;
pub use op::{InverseFault, Op, OpFault};
pub use version::{Version, Versions};
