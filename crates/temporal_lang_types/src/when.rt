/// Which moments a query asks of.
#[derive(Clone, Copy, PartialEq, Eq)]
pub enum When {
    /// All of them.
    Always,
    /// This one. `AS OF now` is the last one, `FOREVER - 1`.
    AsOf(u64),
    /// From the first bound on, up to and not at the second.
    During(u64, u64),
}
