/// A condition of KEEP on the period of an answer's entry, which is cut to the slice of the query.
/// Of two bounds the first is the least moment or length that is kept, and the second the first
/// that is not; a second bound of `FOREVER` sets no upper limit.
#[derive(Clone, Copy, PartialEq, Eq)]
pub enum Keep {
    /// The start lies between the bounds.
    Starting(u64, u64),
    /// The end lies between the bounds.
    Ending(u64, u64),
    /// The number of moments lies between the bounds; a period that still goes on lasts `FOREVER`.
    Lasting(u64, u64),
    /// The period has the moment.
    Covering(u64),
    /// The period has a moment between the bounds.
    Overlapping(u64, u64),
}
