//! The rows of the tables that PARTITION TABLE makes: those of the old one in two parts.

ghost use Rattle.std.specs.Prelude.{◌≡◌, [], ◌∷◌, ◌++◌, IfOk, OnOk, not, if◌then◌else◌};
ghost use Rattle.std.specs.List.{filter};
ghost use Rattle.cond_expr.specs.Seen.{test};
ghost use Rattle.smo_ops_spec.specs.OneRow.{meets};

use crate::Carried;
use crate::one_row::is_met;
use cond_expr::Cond;
use prima_base::{ColType, Name, NoMemory, Row};
use smo_ops::OwnColumns;
use std::alloc::Global;

// Puts an equal row after those that meet the condition, or after the others.
fn push_into(met: bool, row: &Row, yes: &mut Vec<Row>, no: &mut Vec<Row>) -> Result<(), NoMemory>
    ensures yes { OnOk result (yes.new.items ≡ yes.old.items
        ++ (if met then row.now ∷ [] else [])) }
    ensures no { OnOk result (no.new.items ≡ no.old.items ++ (if met then [] else row.now ∷ [])) }
{
    let copy = row.copy()?;
    if met {
        yes.push(copy)?;
    } else {
        no.push(copy)?;
    }
    Ok(())
}

/// The rows that meet the condition, and the others, in one walk.
pub(crate) fn parted(
    alloc: Global,
    columns: &[(Name, ColType)],
    cond: &Cond,
    rows: &[Row],
) -> Result<Carried, NoMemory>
    ensures yes { IfOk result (λ c. c.first.items
        ≡ filter (meets columns.now (test cond.now)) rows.now) }
    ensures no { IfOk result (λ c. c.second.items
        ≡ filter (λ row. not (meets columns.now (test cond.now) row)) rows.now) }
{
    let own = OwnColumns::new(alloc, columns)?;
    let mut yes = Vec::new(alloc);
    let mut no = Vec::new(alloc);
    for row in rows {
        let met = is_met(alloc, &own, cond, row)?;
        push_into(met, row, &mut yes, &mut no)?;
    }
    Ok(Carried {
        first: yes,
        second: no,
    })
}
