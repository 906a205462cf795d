use crate::{Period, Val};

/// What an aggregate has of the rows of a group.
#[derive(Drop)]
pub enum AggValue<'a> {
    /// How many rows there are.
    Count(u64),
    /// The least or the greatest value of an output.
    Of(Val<'a>),
    /// The sum of an output.
    Sum(i128),
}

/// A group, what the aggregates have of its rows, in the order in which they were asked for, and a
/// period in which that stays the same. The values may be borrowed from a store.
#[derive(Drop)]
pub struct AggRow<'a> {
    /// The first values of the rows, which are those of the group.
    pub group: Vec<Val<'a>>,
    /// What each aggregate has.
    pub values: Vec<AggValue<'a>>,
    /// When that is so.
    pub period: Period,
}
