use crate::{Period, Val, compare_vals};
use std::cmp::Ordering;

/// A row and the period in which it holds. Its values may be borrowed from a store.
#[derive(Drop)]
pub struct TimedRow<'a> {
    pub values: Vec<Val<'a>>,
    pub period: Period,
}

impl TimedRow<'_> {
    ghost use Rattle.std.specs.Prelude.{◌≡◌};
    ghost use Rattle.prima_base.specs.Timed.{timed_cmp};

    /// Compares by row, then start, then end.
    pub fn compare(&self, other: &TimedRow<'_>) -> Ordering
        ensures { result ≡ timed_cmp self.now other.now }
    {
        let starts = self.period.start().cmp(&other.period.start());
        let ends = self.period.end().cmp(&other.period.end());
        compare_vals(&self.values, &other.values).then(starts.then(ends))
    }
}

impl PartialEq for TimedRow<'_> {
    ghost use Rattle.std.specs.Ordering.{eq_by_cmp};
    ghost use Rattle.prima_base.specs.Timed.{timed_cmp};
    ghost use Rattle.prima_base.specs.TimedLaws.{timed_eq_per};

    ghost eq = { eq_by_cmp timed_cmp };

    ghost laws = { timed_eq_per };

    fn eq(&self, other: &TimedRow<'_>) -> bool {
        self.compare(other) == Ordering::Equal
    }
}

impl Eq for TimedRow<'_> {
    ghost use Rattle.prima_base.specs.TimedLaws.{timed_eq_equiv};

    ghost laws = { timed_eq_equiv };
}

impl PartialOrd for TimedRow<'_> {
    ghost use Rattle.std.specs.Prelude.{Some};
    ghost use Rattle.prima_base.specs.Timed.{timed_cmp};
    ghost use Rattle.prima_base.specs.TimedLaws.{timed_po};

    ghost partial_cmp = { λ x y. Some (timed_cmp x y) };

    ghost laws = { timed_po };

    fn partial_cmp(&self, other: &TimedRow<'_>) -> Option<Ordering> {
        Some(self.compare(other))
    }
}

impl Ord for TimedRow<'_> {
    ghost use Rattle.std.specs.Prelude.{refl};
    ghost use Rattle.prima_base.specs.Timed.{timed_cmp};
    ghost use Rattle.prima_base.specs.TimedLaws.{timed_total};

    ghost cmp = { timed_cmp };

    ghost total = { timed_total };

    ghost matches_partial_cmp = { λ x y. refl };

    ghost matches_eq = { λ x y. refl };

    fn cmp(&self, other: &TimedRow<'_>) -> Ordering {
        self.compare(other)
    }
}
