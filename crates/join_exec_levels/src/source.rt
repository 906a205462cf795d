ghost use Rattle.prima_base.specs.Timed.{entries_of};
ghost use Rattle.join_exec_spec.specs.Fitting.{Fit, fit_once};

use prima_base::TimedRow;

/// Rows with periods, each of so many values. The values are valid.
#[derive(Drop)]
pub struct Source<'a> {
    pub width: usize,
    pub rows: Vec<TimedRow<'a>>,
    pub ghost fit: { Fit width (entries_of rows.items) } by { fit_once width (entries_of rows.items) },
}
