ghost use Rattle.std.specs.Prelude.{◌≡◌, ◌+◌, IfOk};
ghost use Rattle.cond_expr.specs.declared.expr.Whose.TheVariants.{Atom};
ghost use Rattle.cond_expr.specs.Seen.{tree};
ghost use Rattle.cond_expr.specs.Trees.{column, fill};
ghost use Rattle.smo_ops_types.specs.Changes.{sets_of};
ghost use Rattle.piece_ir_spec.specs.Views.{out_of};
ghost use Rattle.piece_ir_spec.specs.Unfolding.{moved_on, put_from, put_for};
ghost use Rattle.piece_ir.specs.Shown.{borrowed_views};
ghost use Rattle.piece_ir.specs.Substituting.{to_atom, put_column};
ghost use Rattle.piece_ir.specs.Placing.{places_from};

use crate::View;
use cond_expr::{ColRef, Expr, Fill, Whose, fill_expr};
use prima_base::{Name, NoMemory};
use std::alloc::Global;

/// A column of an atom. The one error is `NoMemory`, where memory runs out.
pub fn column_of(atom: u32, name: &Name) -> Result<Expr, NoMemory>
    ensures { IfOk result (λ e. tree e ≡ column (Atom atom) name.now) }
{
    Ok(Expr::Col(ColRef {
        whose: Whose::Atom(atom),
        name: name.copy()?,
    }))
}

// A column of the atom so many places on. A reference has 32 bits for its atom, and no type says of
// a view that it refers to atoms of its own alone, so the place is looked at here, once for all.
fn moved_column(by: usize, atom: u32, name: &Name) -> Result<Expr, NoMemory>
    ensures { IfOk result (λ e. tree e ≡ column (Atom (by + atom)) name.now) }
{
    let place = by.checked_add(atom as usize).ok_or(NoMemory)?;
    match u32::try_from(place) {
        Ok(moved) => column_of(moved, name),
        Err(_) => Err(NoMemory),
    }
}

/// Puts for each column of an atom that of the atom so many places on.
#[derive(Drop)]
pub(crate) struct MovedOn {
    pub by: usize,
}

impl Fill for MovedOn {
    ghost puts = { λ m. moved_on m.by };

    fn put(&self, _alloc: Global, reference: &ColRef) -> Result<Expr, NoMemory> {
        match &reference.whose {
            Whose::Atom(atom) => moved_column(self.by, *atom, &reference.name),
            Whose::Free | Whose::Alias(_) => Ok(Expr::Col(reference.copy()?)),
        }
    }
}

/// Puts for each reference the column of this name of one atom.
#[derive(Drop)]
struct ToAtom {
    atom: u32,
}

impl Fill for ToAtom {
    ghost puts = { λ t. to_atom t.atom };

    fn put(&self, _alloc: Global, reference: &ColRef) -> Result<Expr, NoMemory> {
        column_of(self.atom, &reference.name)
    }
}

/// Puts an expression, said of an atom, for a column of it.
#[derive(Drop)]
pub(crate) struct PutColumn<'a> {
    pub atom: u32,
    pub column: &'a Name,
    pub expr: &'a Expr,
}

impl Fill for PutColumn<'_> {
    ghost puts = { λ p. put_column p.atom p.column.now (tree p.expr.now) };

    fn put(&self, alloc: Global, reference: &ColRef) -> Result<Expr, NoMemory> {
        match &reference.whose {
            Whose::Atom(atom) => {
                if *atom == self.atom && &reference.name == self.column {
                    return fill_expr(alloc, &ToAtom { atom: self.atom }, self.expr);
                }
                column_of(*atom, &reference.name)
            }
            Whose::Free | Whose::Alias(_) => Ok(Expr::Col(reference.copy()?)),
        }
    }
}

/// The output of a view in a column, where the view's atoms begin at a place.
fn output(alloc: Global, outs: &[(Name, Expr)], by: usize, name: &Name) -> Result<Expr, NoMemory>
    ensures { IfOk result (λ e. tree e ≡ fill (moved_on by) (out_of (sets_of outs.now) name.now)) }
{
    for out in outs {
        if &out.0 == name {
            return fill_expr(alloc, &MovedOn { by }, &out.1);
        }
    }
    moved_column(by, 0, name)
}

// What is put for a column of an atom, where each atom has one of these views and the atoms of each
// begin at its place.
fn put_at(
    alloc: Global,
    views: &[&View],
    places: &[usize],
    atom: u32,
    name: &Name,
) -> Result<Expr, NoMemory>
    requires { places.now ≡ places_from 0 (borrowed_views views.now) }
    ensures { IfOk result (λ e. tree e ≡ put_from 0 (borrowed_views views.now) atom name.now) }
{
    let at = atom as usize;
    if at < views.len() {
        let found = output(alloc, &views[at].outs, places[at], name)?;
        return Ok(found);
    }
    let left = column_of((at - views.len()) as u32, name)?;
    Ok(left)
}

/// Puts for each column of an atom what the atom's view has there.
#[derive(Drop)]
pub(crate) struct PutViews<'a> {
    pub views: &'a [&'a View],
    /// Where the atoms of each view begin.
    pub places: &'a [usize],
    pub ghost placed: { places.now ≡ places_from 0 (borrowed_views views.now) },
}

impl Fill for PutViews<'_> {
    ghost puts = { λ p. put_for (borrowed_views p.views.now) };

    fn put(&self, alloc: Global, reference: &ColRef) -> Result<Expr, NoMemory> {
        match &reference.whose {
            Whose::Atom(atom) => put_at(alloc, self.views, self.places, *atom, &reference.name),
            Whose::Free | Whose::Alias(_) => Ok(Expr::Col(reference.copy()?)),
        }
    }
}
