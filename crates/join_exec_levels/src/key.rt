//! Keys by which rows are looked up.

ghost use Rattle.std.specs.Prelude.{◌≡◌, IfOk, map};
ghost use Rattle.prima_base.specs.Order.{shown, is_borrowed};
ghost use Rattle.join_exec_spec.specs.Keeping.{value_at, values_at, lies_at};

use prima_base::{NoMemory, Val, compare_vals};
use std::alloc::Global;
use std::cmp::Ordering;
use std::marker::Model;

/// Values by which rows are looked up. A contract sees the list of the values that they show.
#[derive(Drop)]
pub(crate) struct Key<'a> {
    values: Vec<Val<'a>>,
}

impl<'a> Model for Key<'a> {
    ghost use Rattle.std.specs.Prelude.{List, map};
    ghost use Rattle.prima_base.specs.declared.value.Value.{Value as OneValue};
    ghost use Rattle.prima_base.specs.Order.{shown};

    ghost Value = { List OneValue };

    ghost view = { λ k. map shown k.values.items };
}

impl<'a> Key<'a> {
    ghost use Rattle.std.specs.Prelude.{◌≡◌, map};
    ghost use Rattle.prima_base.specs.Order.{shown};

    /// The key of the values. It takes no allocator, so no text of theirs can be copied: what they
    /// have borrowed stays borrowed.
    pub(crate) fn of(values: Vec<Val<'a>>) -> Key<'a>
        ensures { result ≡ map shown values.entry.items }
    {
        Key { values }
    }
}

impl PartialEq for Key<'_> {
    ghost use Rattle.std.specs.Ordering.{eq_by_cmp};
    ghost use Rattle.prima_base.specs.Order.{row_cmp};
    ghost use Rattle.prima_base.specs.OrderLaws.{row_eq_per};

    ghost eq = { eq_by_cmp (row_cmp) };

    ghost laws = { row_eq_per };

    fn eq(&self, other: &Key<'_>) -> bool {
        self.cmp(other) == Ordering::Equal
    }
}

impl Eq for Key<'_> {
    ghost use Rattle.prima_base.specs.OrderLaws.{row_eq_equiv};

    ghost laws = { row_eq_equiv };
}

impl PartialOrd for Key<'_> {
    ghost use Rattle.std.specs.Prelude.{Some};
    ghost use Rattle.prima_base.specs.Order.{row_cmp};
    ghost use Rattle.prima_base.specs.OrderLaws.{row_po};

    ghost partial_cmp = { λ x y. Some (row_cmp x y) };

    ghost laws = { row_po };

    fn partial_cmp(&self, other: &Key<'_>) -> Option<Ordering> {
        Some(self.cmp(other))
    }
}

impl Ord for Key<'_> {
    ghost use Rattle.std.specs.Prelude.{refl};
    ghost use Rattle.prima_base.specs.Order.{row_cmp};
    ghost use Rattle.prima_base.specs.OrderLaws.{row_total};

    ghost cmp = { row_cmp };

    ghost total = { row_total };

    ghost matches_partial_cmp = { λ x y. refl };

    ghost matches_eq = { λ x y. refl };

    #[tactic(auto, using(join_exec_spec::proofs::ShownOrder::by_shown))]
    fn cmp(&self, other: &Key<'_>) -> Ordering {
        compare_vals(&self.values, &other.values)
    }
}

// The value at the place. A borrowed text stays borrowed.
fn value_at<'a>(values: &[Val<'a>], place: usize) -> Result<Val<'a>, NoMemory>
    ensures value { IfOk result (λ v. shown v ≡ value_at (map shown values.now) place) }
    ensures same { IfOk result (λ v. is_borrowed v ≡ lies_at values.now place) }
{
    match values.get(place) {
        Some(value) => value.copy(),
        None => Ok(Val::Int(0)),
    }
}

/// The values at the places. A borrowed text stays borrowed, so that a key of them has no text of
/// its own but where the row has one there.
pub(crate) fn values_at<'a>(
    alloc: Global,
    places: &[usize],
    values: &[Val<'a>],
) -> Result<Vec<Val<'a>>, NoMemory>
    ensures values { IfOk result (λ v. map shown v.items
        ≡ values_at places.now (map shown values.now)) }
    ensures same { IfOk result (λ v. map is_borrowed v.items
        ≡ map (lies_at values.now) places.now) }
{
    let mut picked = Vec::with_capacity(alloc, places.len())?;
    for place in places {
        let value = value_at(values, *place)?;
        picked.push(value)?;
    }
    Ok(picked)
}
