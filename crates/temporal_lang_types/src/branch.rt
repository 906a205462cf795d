use cond_expr::{Cond, Expr};
use prima_base::Name;

/// A branch of a query: for each choice of one row per item that meets the condition, the values of
/// the outputs.
#[derive(Drop)]
pub struct Branch {
    /// The outputs, in written order.
    pub outs: Vec<Expr>,
    /// The items of the FROM, in written order: of each its table and its alias, which is the
    /// table's name where none is given.
    pub from: Vec<(Name, Name)>,
    /// The condition; TRUE where none is given.
    pub cond: Cond,
}
