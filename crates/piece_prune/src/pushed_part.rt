ghost use Rattle.std.specs.Prelude.{◌≡◌, ◌++◌, [], ◌∷◌, map, IfOk, OnOk};
ghost use Rattle.std.specs.List.{filter, list_all};
ghost use Rattle.cond_expr.specs.Seen.{tree, test, tests_of};
ghost use Rattle.cond_expr.specs.Trees.{fill_test};
ghost use Rattle.cond_expr.specs.Faults.{test_references};
ghost use Rattle.cond_expr.specs.Parts.{parts, all_parts};
ghost use Rattle.cond_expr.specs.References.{is_to, borrowed};
ghost use Rattle.plain_answers_spec.specs.Pushing.{are_own, own_parts, as_first, pushed_cond};

use cond_expr::{ColRef, Cond, Expr, Fill, Whose, fill_cond, gather_references};
use prima_base::NoMemory;
use std::alloc::Global;

/// Says of atom 0 what is said of one atom.
#[derive(Drop)]
struct AsFirst {
    atom: u32,
}

impl Fill for AsFirst {
    ghost puts = { λ f. as_first f.atom };

    fn put(&self, _alloc: Global, reference: &ColRef) -> Result<Expr, NoMemory> {
        let name = reference.name.copy()?;
        match &reference.whose {
            Whose::Atom(atom) => {
                let whose = if *atom == self.atom {
                    Whose::Atom(0)
                } else {
                    Whose::Atom(*atom)
                };
                Ok(Expr::Col(ColRef { whose, name }))
            }
            Whose::Free => Ok(Expr::Col(ColRef {
                whose: Whose::Free,
                name,
            })),
            Whose::Alias(alias) => Ok(Expr::Col(ColRef {
                whose: Whose::Alias(alias.copy()?),
                name,
            })),
        }
    }
}

fn all_to(references: &[&ColRef], atom: u32) -> bool
    ensures { result ≡ list_all (is_to atom) (borrowed references.now) }
{
    match references {
        [] => true,
        [reference, rest @ ..] => reference.is_to(atom) && all_to(rest, atom),
    }
}

// There is one, and each is to the atom.
fn are_own(references: &[&ColRef], atom: u32) -> bool
    ensures { result ≡ are_own atom (borrowed references.now) }
{
    match references {
        [] => false,
        [_, ..] => all_to(references, atom),
    }
}

// Whether the part names at least one column, and only columns of the atom.
fn is_own(alloc: Global, part: &Cond, atom: u32) -> Result<bool, NoMemory>
    ensures { IfOk result (λ b. b ≡ are_own atom (test_references (test part.now))) }
{
    let mut references = Vec::new(alloc);
    gather_references(&mut references, &[], part)?;
    Ok(are_own(&references, atom))
}

// Puts the part after the others, said of atom 0, where it is the atom's own.
fn push_part(alloc: Global, part: &Cond, atom: u32, into: &mut Vec<Cond>) -> Result<(), NoMemory>
    ensures { OnOk result (map test into.new.items ≡ map test into.old.items
        ++ map (fill_test (as_first atom)) (filter (λ t. are_own atom (test_references t))
        (test part.now ∷ []))) }
{
    if !is_own(alloc, part, atom)? {
        return Ok(());
    }
    into.push(fill_cond(alloc, &AsFirst { atom }, part)?)?;
    Ok(())
}

// Puts the atom's own top-level parts of the condition after the others, each said of atom 0.
#[cycle(parts)]
#[tactic(auto, using(cond_expr::proofs::SeenLaws::test_of_and, cond_expr::proofs::SeenLaws::test_of_or, cond_expr::proofs::SeenLaws::test_of_cmp))]
fn push_parts(alloc: Global, cond: &Cond, atom: u32, into: &mut Vec<Cond>) -> Result<(), NoMemory>
    ensures { OnOk result (map test into.new.items ≡ map test into.old.items
        ++ map (fill_test (as_first atom)) (filter (λ t. are_own atom (test_references t))
        (parts (test cond.now)))) }
{
    match cond {
        Cond::And(members) => push_parts_of(alloc, members, atom, into),
        Cond::False | Cond::True | Cond::Cmp(_, _, _) | Cond::Or(_) | Cond::Not(_) => {
            push_part(alloc, cond, atom, into)
        }
    }
}

// The same of each of the members of an AND.
#[cycle(parts)]
#[tactic(auto, using(crate::proofs::PartSteps::more_members))]
fn push_parts_of(
    alloc: Global,
    members: &[Cond],
    atom: u32,
    into: &mut Vec<Cond>,
) -> Result<(), NoMemory>
    ensures { OnOk result (map test into.new.items ≡ map test into.old.items
        ++ map (fill_test (as_first atom)) (filter (λ t. are_own atom (test_references t))
        (all_parts (tests_of (map test members.now))))) }
{
    for member in members {
        push_parts(alloc, member, atom, into)?;
    }
    Ok(())
}

/// The condition that is pushed to an item of a branch, as one over the item's own columns, which
/// are those of atom 0: the AND of the top-level parts of the branch's condition that name at least
/// one column, and only columns of the item. The item is the atom with this number. The one error
/// is `NoMemory`, where memory runs out.
pub fn pushed_cond(alloc: Global, cond: &Cond, atom: u32) -> Result<Cond, NoMemory>
    ensures { IfOk result (λ c. test c ≡ pushed_cond atom (test cond.now)) }
{
    let mut parts = Vec::new(alloc);
    push_parts(alloc, cond, atom, &mut parts)?;
    Ok(Cond::and(parts))
}
