ghost use Rattle.std.specs.Prelude.{◌≡◌};
ghost use Rattle.std.specs.List.{list_any};
ghost use Rattle.cond_expr_dead.specs.Earlier.{parts_before};

use crate::part::{PartTest, some_part_of};
use cond_expr::Cond;

/// The parts that stand before one in a condition.
#[derive(Clone, Copy)]
pub(crate) enum Before<'a> {
    Nothing,
    /// Those before an AND, and then those of its first members.
    Members(&'a Before<'a>, &'a [Cond]),
}

/// Whether one of the parts passes.
pub(crate) fn some_before<T: PartTest>(before: &Before<'_>, by: &T) -> bool
    ensures { result ≡ list_any (T.passes by.now) (parts_before before.now) }
{
    match before {
        Before::Nothing => false,
        Before::Members(earlier, members) => {
            some_before(earlier, by) || some_part_of(by, members)
        }
    }
}
