use cond_expr::{Cond, Expr};
use prima_base::{CallFault, Name, Refusal, Value};

/// A change of one table's rows. Each reference in a condition or an expression is to atom 0, the
/// table.
#[derive(Drop)]
pub enum Change {
    /// One row more, by its columns' names in any order. A row that is there changes nothing.
    Insert {
        table: Name,
        cells: Vec<(Name, Value)>,
    },
    /// The rows that meet the condition go.
    Delete {
        table: Name,
        cond: Cond,
    },
    /// Each row that meets the condition has the named columns computed from what the row was.
    Update {
        table: Name,
        sets: Vec<(Name, Expr)>,
        cond: Cond,
    },
}

/// Why a change is not accepted: the first of the refusals 22, 27, 23, 35 and 25 in the one order,
/// or memory ran out.
pub type ChangeFault = CallFault<Refusal>;

impl Change {
    ghost use Rattle.std.specs.Prelude.{◌≡◌};
    ghost use Rattle.smo_ops_types.specs.Changes.{change_of, table_of};

    /// The table that the change is of.
    pub fn table(&self) -> &Name
        ensures { result.now ≡ table_of (change_of self.now) }
    {
        match self {
            Change::Insert { table, .. } => table,
            Change::Delete { table, .. } => table,
            Change::Update { table, .. } => table,
        }
    }
}
