//! The constants with which top-level parts of a condition compare a column.

ghost use Rattle.std.specs.Prelude.{◌≡◌, ◌&&◌, map, cond, None, true, IfSome};
ghost use Rattle.std.specs.Option.{option_copied};
ghost use Rattle.prima_base.specs.Order.{value_cmp};
ghost use Rattle.prima_base.specs.declared.value.Value.{Value as OneValue};
ghost use Rattle.cond_expr.specs.declared.expr.Whose.TheVariants.{Atom};
ghost use Rattle.cond_expr.specs.declared.expr.CmpOp.{CmpOp as Way};
ghost use Rattle.cond_expr.specs.declared.expr.Column.{Column as OneColumn};
ghost use Rattle.cond_expr.specs.Trees.{Test};
ghost use Rattle.cond_expr.specs.Values.{Cells, truth, agrees};
ghost use Rattle.cond_expr.specs.Seen.{tree, test, tests_of};
ghost use Rattle.cond_expr.specs.Comparisons.{turned_op, same_way};
ghost use Rattle.cond_expr.specs.Parts.{all_parts};
ghost use Rattle.cond_expr.specs.PinnedParts.{is_column, constant_of, pinned_by, first_pinned};
ghost use Rattle.cond_expr.specs.PinnedParts.{pinned};
ghost use Rattle.std.specs.Prelude.{Some};

use crate::comparison::{same_way, turned_op};
use crate::{CmpOp, Column, Cond, Expr};
use prima_base::Value;

// The constant on the other side, where the one side is the column and the comparison the right
// one.
fn beside<'e>(asked: bool, side: &Expr, other: &'e Expr, column: &Column) -> Option<&'e Value>
    ensures { option_copied result ≡ cond (asked && is_column column.now (tree side.now))
        (constant_of (tree other.now)) None }
{
    if !asked {
        return None;
    }
    match side {
        Expr::Col(reference) => {
            if !reference.names(column) {
                return None;
            }
            match other {
                Expr::Const(value) => Some(value),
                Expr::Col(_) | Expr::Length(_) | Expr::Concat(_) | Expr::Case(..) => None,
            }
        }
        Expr::Const(_) | Expr::Length(_) | Expr::Concat(_) | Expr::Case(..) => None,
    }
}

/// The constant with which a top-level part of the condition compares the column in this way: that
/// of the first such part. A constant on the left is taken with the comparison turned, and nothing
/// under OR or NOT is a part. It takes no memory.
#[cycle(pinned)]
pub fn pinned<'e>(cond: &'e Cond, op: CmpOp, column: &Column) -> Option<&'e Value>
    ensures { option_copied result ≡ pinned op column.now (test cond.now) }
{
    match cond {
        Cond::Cmp(by, left, right) => {
            if let Some(value) = beside(same_way(op, *by), left, right, column) {
                return Some(value);
            }
            beside(same_way(op, turned_op(*by)), right, left, column)
        }
        Cond::And(parts) => pinned_of_all(parts, op, column),
        Cond::False | Cond::True | Cond::Or(_) | Cond::Not(_) => None,
    }
}

#[cycle(pinned)]
fn pinned_of_all<'e>(list: &'e [Cond], op: CmpOp, column: &Column) -> Option<&'e Value>
    ensures { option_copied result ≡ first_pinned op column.now
        (all_parts (tests_of (map test list.now))) }
{
    for part in list {
        if let Some(value) = pinned(part, op, column) {
            return Some(value);
        }
    }
    None
}

/// Where a condition holds, the column compares so with the constant.
pub fn pinned_parts_hold()
    ensures { (at : Cells) → (o : Way) → (c : OneColumn) → (t : Test) → (v : OneValue)
        → truth at t ≡ true → pinned o c t ≡ Some v
        → agrees o (value_cmp (at (Atom c.atom) c.name) v) ≡ true }
{}
