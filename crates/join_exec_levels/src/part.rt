//! The parts of a condition that all have to hold.

ghost use Rattle.std.specs.Prelude.{◌≡◌, ◌++◌, OnOk, map};
ghost use Rattle.cond_expr.specs.Seen.{test, tests_of};
ghost use Rattle.join_exec_spec.specs.Keeping.{borrowed_tests};
ghost use Rattle.cond_expr.specs.Parts.{parts, all_parts as all_parts};

use cond_expr::Cond;
use prima_base::NoMemory;

/// Puts the parts of a condition after what is there. Parts of an AND inside an AND are parts;
/// nothing under OR or NOT is. On `NoMemory` some of the parts may have been put.
#[cycle(parts)]
#[tactic(auto, using(cond_expr::proofs::SeenLaws::test_of_and, cond_expr::proofs::SeenLaws::test_of_or, cond_expr::proofs::SeenLaws::test_of_cmp))]
pub fn gather_parts<'c>(into: &mut Vec<&'c Cond>, cond: &'c Cond) -> Result<(), NoMemory>
    ensures { OnOk result (borrowed_tests into.new.items ≡ borrowed_tests into.old.items
        ++ parts (test cond.now)) }
{
    match cond {
        Cond::And(conds) => gather_all(into, conds),
        Cond::False => {
            into.push(cond)?;
            Ok(())
        }
        Cond::True => {
            into.push(cond)?;
            Ok(())
        }
        Cond::Cmp(_, _, _) => {
            into.push(cond)?;
            Ok(())
        }
        Cond::Or(_) => {
            into.push(cond)?;
            Ok(())
        }
        Cond::Not(_) => {
            into.push(cond)?;
            Ok(())
        }
    }
}

#[cycle(parts)]
fn gather_all<'c>(into: &mut Vec<&'c Cond>, conds: &'c [Cond]) -> Result<(), NoMemory>
    ensures { OnOk result (borrowed_tests into.new.items ≡ borrowed_tests into.old.items
        ++ all_parts (tests_of (map test conds.now))) }
{
    for cond in conds {
        gather_parts(into, cond)?;
    }
    Ok(())
}
