/// How a period stands to another one. `FOREVER` counts as its number.
#[derive(Clone, Copy, PartialEq, Eq)]
pub enum Relation {
    /// The first ends before the second starts, with a moment between them.
    Before,
    /// The first ends where the second starts.
    Meets,
    /// The first starts before the second, and ends inside it.
    Overlaps,
    /// The first starts before the second, and ends after it.
    Contains,
    /// Both have the same moments.
    Equals,
}
