//! What statements are read from and what replies are written to.
//!
//! A contract sees of a source the bytes that are left in it, of a sink the bytes that it was
//! given, each where the object tells them, and of both how often they failed.
#![tactic(auto)]

mod borrowed;
mod device;
mod memory;
mod sure;
mod writer;

pub use device::{Sink, Source};
pub use memory::{MemSink, MemSource};
pub use prima_base::Failed;
pub use sure::{SureSink, SureSource};
pub use writer::put_all;
