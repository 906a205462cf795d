ghost use Rattle.std.specs.Prelude.{◌≡◌, map};
ghost use Rattle.std.specs.Option.{option_copied, option_or};
ghost use Rattle.cond_expr.specs.Seen.{tree, test, trees_of, tests_of};
ghost use Rattle.cond_expr.specs.Faults.{references, trees_references, test_references};
ghost use Rattle.cond_expr.specs.Faults.{tests_references};
ghost use Rattle.smo_ops_spec.specs.Touching.{these_names};
ghost use Rattle.smo_ops_versions_spec.specs.LostNames.{first_named};
ghost use Rattle.rewrite_losses.specs.TableLosses.{loss_in_tables};

use crate::losses::Losses;
use cond_expr::{Cond, Expr};
use prima_base::Name;
use smo_ops_operators::Made;

/// The first of two losses.
pub(crate) fn earlier(first: Option<(u32, u32)>, second: Option<(u32, u32)>) -> Option<(u32, u32)>
    ensures { result ≡ option_or first second }
{
    match first {
        Some(loss) => Some(loss),
        None => second,
    }
}

/// The loss of a column in the first of the tables in which it is lost.
pub(crate) fn column_loss(losses: &Losses, tables: Made<'_>, name: &Name) -> Option<(u32, u32)>
    ensures { result ≡ loss_in_tables losses.now (these_names (option_copied tables.entry.first)
        (option_copied tables.entry.second)) name.now }
{
    let Some(first) = tables.first else {
        return None;
    };
    if let Some(loss) = losses.column(first, name) {
        return Some(loss);
    }
    let Some(second) = tables.second else {
        return None;
    };
    losses.column(second, name)
}

/// The loss of the first column of the tables that the expression names and that is lost.
#[cycle(named)]
#[tactic(auto, using(crate::proofs::NamedColumns::named_both, crate::proofs::NamedColumns::named_one))]
pub(crate) fn expr_loss(losses: &Losses, tables: Made<'_>, expr: &Expr) -> Option<(u32, u32)>
    ensures { result ≡ first_named (loss_in_tables losses.now
        (these_names (option_copied tables.entry.first) (option_copied tables.entry.second)))
        (references (tree expr.now)) }
{
    match expr {
        Expr::Col(reference) => column_loss(losses, tables, &reference.name),
        Expr::Const(_) => None,
        Expr::Length(part) => expr_loss(losses, tables, part),
        Expr::Concat(parts) => list_loss(losses, tables, parts),
        Expr::Case(cond, first, second) => earlier(
            cond_loss(losses, tables, cond),
            earlier(
                expr_loss(losses, tables, first),
                expr_loss(losses, tables, second),
            ),
        ),
    }
}

#[cycle(named)]
#[tactic(auto, using(crate::proofs::NamedColumns::named_both))]
fn list_loss(losses: &Losses, tables: Made<'_>, list: &[Expr]) -> Option<(u32, u32)>
    ensures { result ≡ first_named (loss_in_tables losses.now
        (these_names (option_copied tables.entry.first) (option_copied tables.entry.second)))
        (trees_references (trees_of (map tree list.now))) }
{
    let mut loss = None;
    for part in list {
        loss = earlier(loss, expr_loss(losses, tables, part));
    }
    loss
}

/// The same of a condition.
#[cycle(named)]
#[tactic(auto, using(crate::proofs::NamedColumns::named_both))]
pub(crate) fn cond_loss(losses: &Losses, tables: Made<'_>, cond: &Cond) -> Option<(u32, u32)>
    ensures { result ≡ first_named (loss_in_tables losses.now
        (these_names (option_copied tables.entry.first) (option_copied tables.entry.second)))
        (test_references (test cond.now)) }
{
    match cond {
        Cond::False | Cond::True => None,
        Cond::Cmp(_, left, right) => earlier(
            expr_loss(losses, tables, left),
            expr_loss(losses, tables, right),
        ),
        Cond::And(parts) => conds_loss(losses, tables, parts),
        Cond::Or(parts) => conds_loss(losses, tables, parts),
        Cond::Not(part) => cond_loss(losses, tables, part),
    }
}

#[cycle(named)]
#[tactic(auto, using(crate::proofs::NamedColumns::named_both))]
fn conds_loss(losses: &Losses, tables: Made<'_>, list: &[Cond]) -> Option<(u32, u32)>
    ensures { result ≡ first_named (loss_in_tables losses.now
        (these_names (option_copied tables.entry.first) (option_copied tables.entry.second)))
        (tests_references (tests_of (map test list.now))) }
{
    let mut loss = None;
    for part in list {
        loss = earlier(loss, cond_loss(losses, tables, part));
    }
    loss
}
