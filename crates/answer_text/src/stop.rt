//! Why a reply was not put whole.

/// Why a reply was not put whole: the sink failed, or memory ran out.
#[derive(Clone, Copy, PartialEq, Eq)]
pub enum PutStop {
    WriteFault,
    NoMemory,
}
