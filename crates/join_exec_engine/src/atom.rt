ghost use Rattle.std.specs.Prelude.{length};
ghost use Rattle.prima_base.specs.Timed.{entries_of};
ghost use Rattle.join_exec_spec.specs.Fitting.{Fit, fit_once, AreOwn, own_once};

use cond_expr::Column;
use prima_base_rows::TimedRows;

/// An atom: its number, its columns, and its rows with periods, each of one value a column. The
/// values are valid.
#[derive(Drop)]
pub struct Atom<'a> {
    pub number: u32,
    pub columns: Vec<Column>,
    pub rows: TimedRows<'a>,
    pub ghost own: { AreOwn number columns.items } by { own_once number columns.items },
    pub ghost fit: { Fit (length columns.items) (entries_of rows.items) } by { fit_once (length columns.items) (entries_of rows.items) },
}
