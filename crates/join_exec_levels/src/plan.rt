//! How the rows of one more list are looked up beside a choice, and which parts of the condition
//! are tested then.

ghost use Rattle.std.specs.Prelude.{◌≡◌, ◌+◌, ◌++◌, true, List, length, IfOk};
ghost use Rattle.prima_base.specs.declared.value.Value.{Value as OneValue};
ghost use Rattle.cond_expr.specs.Seen.{test};
ghost use Rattle.cond_expr.specs.Faults.{test_references};
ghost use Rattle.join_exec_spec.specs.Placing.{all_below};
ghost use Rattle.join_exec_spec.specs.Keeping.{meets_all, values_at, borrowed_tests};
ghost use Rattle.join_exec_levels.specs.Places.{own_keys, other_keys};

use crate::place::{is_after, is_settled, key_places};
use cond_expr::{Column, Cond};
use prima_base::NoMemory;
use std::alloc::Global;

/// Places in a choice, and in a row, that have the same values in all that meets the condition.
#[derive(Drop)]
pub(crate) struct Keys {
    pub(crate) own: Vec<usize>,
    pub(crate) other: Vec<usize>,
}

/// The places by which rows of so many values are looked up beside a choice of so many: those of
/// each part that is an equality of a column of the one with a column of the other.
pub(crate) fn keys_of(
    alloc: Global,
    columns: &[Column],
    parts: &[&Cond],
    taken: usize,
    width: usize,
) -> Result<Keys, NoMemory>
    ensures own { IfOk result (λ k. k.own.items ≡ own_keys columns.now
        (borrowed_tests parts.now) taken width) }
    ensures other { IfOk result (λ k. k.other.items ≡ other_keys columns.now
        (borrowed_tests parts.now) taken width) }
    ensures same { (p y c : List OneValue) → length p ≡ taken → length y ≡ width
        → meets_all columns.now (borrowed_tests parts.now) ((p ++ y) ++ c) ≡ true
        → IfOk result (λ k. values_at k.other.items y ≡ values_at k.own.items p) }
{
    let mut own = Vec::new(alloc);
    let mut other = Vec::new(alloc);
    for part in parts {
        if let Some((a, b)) = key_places(columns, part, taken, width) {
            own.push(a)?;
            other.push(b)?;
        }
    }
    Ok(Keys { own, other })
}

// Whether the part is first decided where a choice of so many values gets so many more, and not by
// its look-up. A part that speaks of these alone is no longer open: the rows have met it before the
// join.
fn is_due(
    alloc: Global,
    columns: &[Column],
    part: &Cond,
    taken: usize,
    width: usize,
) -> Result<bool, NoMemory>
    ensures { IfOk result (λ b. b ≡ true → all_below columns.now (taken + width)
        (test_references (test part.now)) ≡ true) }
{
    if key_places(columns, part, taken, width).is_some() {
        return Ok(false);
    }
    if is_settled(alloc, columns, part, taken, 0)? {
        return Ok(false);
    }
    if is_after(alloc, columns, part, taken)? {
        return Ok(false);
    }
    is_settled(alloc, columns, part, taken, width)
}

/// The parts that are tested as soon as a row of so many values stands after a choice of so many.
pub(crate) fn tests_of<'c>(
    alloc: Global,
    columns: &[Column],
    parts: &[&'c Cond],
    taken: usize,
    width: usize,
) -> Result<Vec<&'c Cond>, NoMemory>
    ensures { (p y c : List OneValue) → length p ≡ taken → length y ≡ width
        → meets_all columns.now (borrowed_tests parts.now) ((p ++ y) ++ c) ≡ true
        → IfOk result (λ t. meets_all columns.now (borrowed_tests t.items) (p ++ y) ≡ true) }
{
    let mut tests = Vec::new(alloc);
    for part in parts {
        if is_due(alloc, columns, part, taken, width)? {
            tests.push(*part)?;
        }
    }
    Ok(tests)
}
