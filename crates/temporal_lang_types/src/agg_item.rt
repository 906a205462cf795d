/// What is asked of the rows of a group. A place is that of an output, counted from 1.
#[derive(Clone, Copy, PartialEq, Eq)]
pub enum AggItem {
    /// How many rows there are.
    Count,
    /// The least value of the output.
    Min(u32),
    /// The greatest value of the output.
    Max(u32),
    /// The sum of the output.
    Sum(u32),
}
