ghost use Rattle.std.specs.Prelude.{◌≡◌, [], ◌∷◌, ◌++◌, IfOk, OnOk, map, if◌then◌else◌};
ghost use Rattle.cond_expr.specs.declared.expr.Whose.TheVariants.{Atom as AtomOf};
ghost use Rattle.cond_expr.specs.Trees.{column, for_atoms};
ghost use Rattle.cond_expr.specs.Seen.{test};
ghost use Rattle.smo_ops_types.specs.Changes.{sets_of};
ghost use Rattle.smo_ops_spec.specs.Effects.{columns_of};
ghost use Rattle.cond_expr.specs.Parts.{parts_but_true};
ghost use Rattle.piece_ir_spec.specs.Views.{out_of};
ghost use Rattle.piece_ir.specs.Shown.{view_of};
ghost use Rattle.piece_ir_spec.specs.OperatorViews.{common_names, second_names, from_second};
ghost use Rattle.piece_ir_spec.specs.OperatorViews.{in_both};
ghost use Rattle.piece_ir_spec.specs.OperatorViews.{shown_in, paired};

use cond_expr::{CmpOp, ColRef, Cond, Expr, Fill, Whose};
use piece_ir::{View, append_parts, column_of};
use prima_base::{ColType, Name, NoMemory};
use schema_catalog::Schema;
use smo_ops_columns::has_name;
use std::alloc::Global;

// The columns of the two tables of a JOIN.
#[derive(Drop)]
struct Pair<'a> {
    first: &'a [(Name, ColType)],
    second: &'a [(Name, ColType)],
}

// The atom from which a column of the made table is read: a common one from the first.
fn atom_of(first: &[(Name, ColType)], second: &[(Name, ColType)], name: &Name) -> u32
    ensures { column (AtomOf result) name.now
        ≡ out_of (map from_second (second_names first.now second.now)) name.now }
{
    if has_name(first, name) {
        return 0;
    }
    if has_name(second, name) {
        return 1;
    }
    0
}

impl Fill for Pair<'_> {
    ghost puts = { λ p. for_atoms (λ i n. out_of
        (map from_second (second_names p.first.now p.second.now)) n) };

    fn put(&self, _alloc: Global, reference: &ColRef) -> Result<Expr, NoMemory> {
        match reference.whose {
            Whose::Atom(_) => column_of(
                atom_of(self.first, self.second, &reference.name),
                &reference.name,
            ),
            Whose::Free => Ok(Expr::Col(reference.copy()?)),
            Whose::Alias(_) => Ok(Expr::Col(reference.copy()?)),
        }
    }
}

// The two rows agree in the column.
fn in_both(alloc: Global, name: &Name) -> Result<Cond, NoMemory>
    ensures { IfOk result (λ c. test c ≡ in_both name.now) }
{
    Cond::compare(alloc, CmpOp::Eq, column_of(0, name)?, column_of(1, name)?)
}

// Puts it after the others where the column is a common one.
fn push_common(
    alloc: Global,
    common: bool,
    name: &Name,
    tests: &mut Vec<Cond>,
) -> Result<(), NoMemory>
    ensures { OnOk result (map test tests.new.items ≡ map test tests.old.items
        ++ (if common then in_both name.now ∷ [] else [])) }
{
    if common {
        tests.push(in_both(alloc, name)?)?;
    }
    Ok(())
}

// That the two rows agree on all common columns.
fn common_parts(
    alloc: Global,
    first: &[(Name, ColType)],
    second: &[(Name, ColType)],
) -> Result<Vec<Cond>, NoMemory>
    ensures { IfOk result (λ v. map test v.items
        ≡ map in_both (common_names first.now second.now)) }
{
    let mut tests = Vec::new(alloc);
    for (name, _) in first {
        push_common(alloc, has_name(second, name), name, &mut tests)?;
    }
    Ok(tests)
}

// All parts: that the rows agree, and then those of the condition.
fn pair_parts(alloc: Global, pair: &Pair<'_>, cond: &Cond) -> Result<Vec<Cond>, NoMemory>
    ensures { IfOk result (λ v. map test v.items
        ≡ map in_both (common_names pair.now.first.now pair.now.second.now)
        ++ parts_but_true (shown_in (map from_second
        (second_names pair.now.first.now pair.now.second.now)) (test cond.now))) }
{
    let mut tests = common_parts(alloc, pair.first, pair.second)?;
    append_parts(alloc, pair, cond, &mut tests)?;
    Ok(tests)
}

// Puts the second row's column after the others where only it has one of this name.
fn push_second(alone: bool, name: &Name, outs: &mut Vec<(Name, Expr)>) -> Result<(), NoMemory>
    ensures { OnOk result (sets_of outs.new.items ≡ sets_of outs.old.items
        ++ (if alone then from_second name.now ∷ [] else [])) }
{
    if alone {
        outs.push((name.copy()?, column_of(1, name)?))?;
    }
    Ok(())
}

// The columns that only the second row has.
fn second_outs(
    alloc: Global,
    first: &[(Name, ColType)],
    second: &[(Name, ColType)],
) -> Result<Vec<(Name, Expr)>, NoMemory>
    ensures { IfOk result (λ v. sets_of v.items
        ≡ map from_second (second_names first.now second.now)) }
{
    let mut outs = Vec::new(alloc);
    for (name, _) in second {
        push_second(!has_name(first, name), name, &mut outs)?;
    }
    Ok(outs)
}

// Two tables as the atoms.
fn two_atoms(alloc: Global, left: &Name, right: &Name) -> Result<Vec<Name>, NoMemory>
    ensures { IfOk result (λ v. v.items ≡ left.now ∷ right.now ∷ []) }
{
    let mut atoms = Vec::new(alloc);
    atoms.push(left.copy()?)?;
    atoms.push(right.copy()?)?;
    Ok(atoms)
}

/// The pairs of rows of two tables that agree on the common columns and meet the condition.
pub(crate) fn paired(
    alloc: Global,
    before: &Schema,
    left: &Name,
    right: &Name,
    cond: &Cond,
) -> Result<View, NoMemory>
    ensures { IfOk result (λ v. view_of v ≡ paired left.now (columns_of before.now left.now)
        right.now (columns_of before.now right.now) (test cond.now)) }
{
    let first = before.columns_of(left);
    let second = before.columns_of(right);
    let pair = Pair { first, second };
    Ok(View {
        atoms: two_atoms(alloc, left, right)?,
        parts: pair_parts(alloc, &pair, cond)?,
        outs: second_outs(alloc, first, second)?,
    })
}
