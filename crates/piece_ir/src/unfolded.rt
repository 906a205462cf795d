ghost use Rattle.std.specs.Prelude.{◌≡◌, ◌++◌, [], ◌∷◌, IfOk, OnOk, map};
ghost use Rattle.cond_expr.specs.Seen.{test, tests_of};
ghost use Rattle.cond_expr.specs.Trees.{fill_test, fill_tests};
ghost use Rattle.cond_expr.specs.Parts.{parts_but_true as parts_of};
ghost use Rattle.cond_expr.specs.Parts.{all_parts_but_true as all_parts_of};
ghost use Rattle.piece_ir_spec.specs.Unfolding.{moved_on, parts_from, with_parts, atoms_of};
ghost use Rattle.piece_ir_spec.specs.Unfolding.{unfolded};
ghost use Rattle.piece_ir.specs.Shown.{piece_of, borrowed_views};
ghost use Rattle.piece_ir.specs.Placing.{places_from};

use crate::atom_fill::{MovedOn, PutViews};
use crate::name::append_names;
use crate::output::fill_outputs;
use crate::{Piece, View};
use cond_expr::{Cond, Fill, fill_cond};
use prima_base::{Name, NoMemory};
use std::alloc::Global;

// Views, one after the other.
#[derive(Drop)]
struct PlacedViews {
    // those of all the views
    atoms: Vec<Name>,
    // where the atoms of each view begin
    places: Vec<usize>,
    // those of all the views, said of the atoms of each
    parts: Vec<Cond>,
}

// Puts conditions after the others, each said of the atoms so many places on.
fn append_moved(
    alloc: Global,
    parts: &mut Vec<Cond>,
    added: &[Cond],
    by: usize,
) -> Result<(), NoMemory>
    ensures { OnOk result (map test parts.new.items ≡ map test parts.old.items
        ++ map (fill_test (moved_on by)) (map test added.now)) }
{
    for part in added {
        parts.push(fill_cond(alloc, &MovedOn { by }, part)?)?;
    }
    Ok(())
}

// The atoms of a view begin where those of the views before it end.
fn place_views(alloc: Global, views: &[&View]) -> Result<PlacedViews, NoMemory>
    ensures atoms { IfOk result (λ p. p.atoms.items ≡ atoms_of (borrowed_views views.now)) }
    ensures places { IfOk result (λ p. p.places.items
        ≡ places_from 0 (borrowed_views views.now)) }
    ensures parts { IfOk result (λ p. map test p.parts.items
        ≡ parts_from 0 (borrowed_views views.now)) }
{
    let mut atoms = Vec::new(alloc);
    let mut places = Vec::with_capacity(alloc, views.len())?;
    let mut parts = Vec::new(alloc);
    for view in views {
        let place = atoms.len();
        places.push(place)?;
        append_moved(alloc, &mut parts, &view.parts, place)?;
        append_names(&mut atoms, &view.atoms)?;
    }
    Ok(PlacedViews {
        atoms,
        places,
        parts,
    })
}

fn append_filled<F: Fill>(
    alloc: Global,
    by: &F,
    cond: &Cond,
    parts: &mut Vec<Cond>,
) -> Result<(), NoMemory>
    ensures { OnOk result (map test parts.new.items ≡ map test parts.old.items
        ++ fill_test (F.puts by.now) (test cond.now) ∷ []) }
{
    parts.push(fill_cond(alloc, by, cond)?)?;
    Ok(())
}

/// Puts the parts of a condition after the others, with what is put for its references. The one
/// error is `NoMemory`, where memory runs out.
#[cycle(parts)]
#[tactic(auto, using(cond_expr::proofs::SeenLaws::test_of_and, cond_expr::proofs::SeenLaws::test_of_or, cond_expr::proofs::SeenLaws::test_of_cmp))]
pub fn append_parts<F: Fill>(
    alloc: Global,
    by: &F,
    cond: &Cond,
    parts: &mut Vec<Cond>,
) -> Result<(), NoMemory>
    ensures { OnOk result (map test parts.new.items ≡ map test parts.old.items
        ++ parts_of (fill_test (F.puts by.now) (test cond.now))) }
{
    match cond {
        Cond::True => Ok(()),
        Cond::And(list) => append_lists(alloc, by, list, parts),
        Cond::False => append_filled(alloc, by, cond, parts),
        Cond::Cmp(_, _, _) => append_filled(alloc, by, cond, parts),
        Cond::Or(_) => append_filled(alloc, by, cond, parts),
        Cond::Not(_) => append_filled(alloc, by, cond, parts),
    }
}

#[cycle(parts)]
#[tactic(auto, using(cond_expr::proofs::SeenLaws::test_of_and, cond_expr::proofs::SeenLaws::test_of_or, cond_expr::proofs::SeenLaws::test_of_cmp))]
fn append_lists<F: Fill>(
    alloc: Global,
    by: &F,
    list: &[Cond],
    parts: &mut Vec<Cond>,
) -> Result<(), NoMemory>
    ensures { OnOk result (map test parts.new.items ≡ map test parts.old.items
        ++ all_parts_of (fill_tests (F.puts by.now) (tests_of (map test list.now)))) }
{
    for cond in list {
        append_parts(alloc, by, cond, parts)?;
    }
    Ok(())
}

// The condition, filled, with these parts after its own.
fn add_parts<F: Fill>(
    alloc: Global,
    by: &F,
    cond: &Cond,
    added: Vec<Cond>,
) -> Result<Cond, NoMemory>
    ensures { IfOk result (λ c. test c ≡ with_parts (fill_test (F.puts by.now) (test cond.now))
        (map test added.items)) }
{
    if added.is_empty() {
        let filled = fill_cond(alloc, by, cond)?;
        return Ok(filled);
    }
    let mut added = added;
    let mut parts = Vec::new(alloc);
    append_parts(alloc, by, cond, &mut parts)?;
    parts.append(&mut added)?;
    Ok(Cond::and(parts))
}

/// The piece with one view in place of each atom. The one error is `NoMemory`, where memory runs
/// out.
pub(crate) fn unfold(alloc: Global, piece: &Piece, views: &[&View]) -> Result<Piece, NoMemory>
    ensures { IfOk result (λ p. piece_of p ≡ unfolded (piece_of piece.now)
        (borrowed_views views.now)) }
{
    let PlacedViews {
        atoms,
        places,
        parts,
    } = place_views(alloc, views)?;
    let by = PutViews {
        views,
        places: &places,
    };
    Ok(Piece {
        atoms,
        cond: add_parts(alloc, &by, &piece.cond, parts)?,
        outs: fill_outputs(alloc, &by, &piece.outs)?,
    })
}
