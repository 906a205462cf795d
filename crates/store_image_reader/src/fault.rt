use thiserror::Error;

/// Why bytes are no image. A place counts the bytes from 0.
#[derive(Clone, Copy, Debug, PartialEq, Eq, Error)]
pub enum ImageFault {
    /// At this place begins the first part, version, lifeline, key or entry that is not as it must
    /// be, or what stands after an image; or the bytes end there.
    #[error("no image goes on at {0}")]
    BadAt(u64),
    /// Memory ran out.
    #[error("out of memory")]
    NoMemory,
}
