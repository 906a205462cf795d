//! The periods that a query names: each has a moment.

ghost use Rattle.std.specs.Prelude.{◌≡◌, map};
ghost use Rattle.smo_ops_spec.specs.First.{first_refusal};
ghost use Rattle.temporal_lang_spec.specs.Checking.{bounds_fault, when_fault, keep_fault};
ghost use Rattle.temporal_lang_spec.specs.Checking.{period_tests};
ghost use Rattle.prima_base.specs.Faults.{IsTested};

use crate::{Keep, QueryFault, When};
use prima_base::Refusal;

fn check_bounds(start: u64, end: u64) -> Result<(), QueryFault>
    ensures { IsTested (bounds_fault start end) result }
{
    if start < end {
        return Ok(());
    }
    Err(QueryFault::Refused(Refusal::EmptyPeriod(start, end)))
}

fn check_when(when: When) -> Result<(), QueryFault>
    ensures { IsTested (when_fault when) result }
{
    match when {
        When::Always | When::AsOf(_) => Ok(()),
        When::During(start, end) => check_bounds(start, end),
    }
}

fn check_keep(keep: Keep) -> Result<(), QueryFault>
    ensures { IsTested (keep_fault keep) result }
{
    match keep {
        Keep::Covering(_) => Ok(()),
        Keep::Starting(start, end)
        | Keep::Ending(start, end)
        | Keep::Lasting(start, end)
        | Keep::Overlapping(start, end) => check_bounds(start, end),
    }
}

fn check_keeps(keep: &[Keep]) -> Result<(), QueryFault>
    ensures { IsTested (first_refusal (map keep_fault keep.now)) result }
{
    for condition in keep {
        check_keep(*condition)?;
    }
    Ok(())
}

/// Each period has a moment: the slice, and then the conditions of KEEP in their order. Else the
/// refusal tells the first that has none.
pub(crate) fn check_periods(when: When, keep: &[Keep]) -> Result<(), QueryFault>
    ensures { IsTested (first_refusal (period_tests when keep.now)) result }
{
    check_when(when)?;
    check_keeps(keep)
}
