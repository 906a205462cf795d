ghost use Rattle.std.specs.Prelude.{◌≡◌, ◌++◌, OnOk};
ghost use Rattle.cond_expr.specs.References.{borrowed};
ghost use Rattle.temporal_lang_types.specs.Branches.{branch_of};
ghost use Rattle.temporal_lang_spec.specs.Checking.{branch_references};

use crate::Branch;
use cond_expr::{ColRef, gather_references};
use prima_base::NoMemory;

/// Puts the references of a branch's outputs and then of its condition, in written order, after
/// what is there.
pub(crate) fn gather_branch<'e>(
    into: &mut Vec<&'e ColRef>,
    branch: &'e Branch,
) -> Result<(), NoMemory>
    ensures { OnOk result (borrowed into.new.items ≡ borrowed into.old.items
        ++ branch_references (branch_of branch.now)) }
{
    gather_references(into, &branch.outs, &branch.cond)
}
