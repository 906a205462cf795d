ghost use Rattle.std.specs.Prelude.{◌≡◌, ◌↔◌, true, map};
ghost use Rattle.prima_base.specs.Groups.{amount};

use prima_base::AggValue;

// Whether both are the same.
fn is_same(value: &AggValue<'_>, other: &AggValue<'_>) -> bool
    ensures { (result ≡ true) ↔ (amount value.now ≡ amount other.now) }
{
    match (value, other) {
        (AggValue::Count(n), AggValue::Count(m)) => n == m,
        (AggValue::Of(v), AggValue::Of(w)) => v == w,
        (AggValue::Sum(n), AggValue::Sum(m)) => n == m,
        _ => false,
    }
}

/// Whether both lists have the same.
pub(crate) fn are_same(values: &[AggValue<'_>], others: &[AggValue<'_>]) -> bool
    ensures { (result ≡ true) ↔ (map amount values.now ≡ map amount others.now) }
{
    match (values, others) {
        ([], []) => true,
        ([value, values @ ..], [other, others @ ..]) => {
            is_same(value, other) && are_same(values, others)
        }
        _ => false,
    }
}
