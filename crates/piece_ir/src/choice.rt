ghost use Rattle.std.specs.Prelude.{◌≡◌, ◌<◌, ◌≤◌, ◌++◌, [], ◌∷◌, IfOk, OnOk, map, length, drop};
ghost use Rattle.std.specs.Prelude.{slice_index_or};
ghost use Rattle.relations_spec.specs.Choices.{choices};
ghost use Rattle.piece_ir_spec.specs.Views.{whole as whole_table, views_of as views_of_table};
ghost use Rattle.piece_ir_spec.specs.Unfolding.{unfolded, unfoldings};
ghost use Rattle.piece_ir.specs.Shown.{piece_of, shown_pieces, view_of, all_views_of};
ghost use Rattle.piece_ir.specs.Shown.{borrowed_views};

use crate::unfolded::unfold;
use crate::{Piece, TableViews, View};
use prima_base::{Name, NoMemory};
use std::alloc::Global;

// Of each atom the whole table.
fn whole_tables(alloc: Global, atoms: &[Name]) -> Result<Vec<View>, NoMemory>
    ensures { IfOk result (λ v. map view_of v.items ≡ map whole_table atoms.now) }
{
    let mut views = Vec::with_capacity(alloc, atoms.len())?;
    for atom in atoms {
        views.push(View::whole(alloc, atom)?)?;
    }
    Ok(views)
}

// The views of a table, where `own` is the whole table.
fn views_of<'v>(views: &'v [TableViews], table: &Name, own: &'v [View]) -> &'v [View]
    requires { map view_of own.now ≡ whole_table table.now ∷ [] }
    ensures { map view_of result.now ≡ views_of_table (all_views_of views.now) table.now }
{
    for named in views {
        if &named.table == table {
            return &named.views;
        }
    }
    own
}

// A piece, the views of made tables, and of each atom the whole table.
#[derive(Drop)]
struct Unfolding<'v> {
    piece: &'v Piece,
    views: &'v [TableViews],
    wholes: &'v [View],
}

impl<'v> Unfolding<'v> {
    // The views of an atom's table.
    fn views_at(&self, at: usize) -> &'v [View]
        requires same { map view_of self.now.wholes.now
            ≡ map whole_table self.now.piece.now.atoms.items }
        requires inside { at < length self.now.piece.now.atoms.items }
        ensures { map view_of result.now ≡ views_of_table (all_views_of self.now.views.now)
            (slice_index_or self.now.piece.now.atoms.items at []) }
    {
        views_of(self.views, &self.piece.atoms[at], &self.wholes[at..at + 1])
    }
}

// Each unfolding of the atoms from this one on, after the chosen views.
#[cycle(rest)]
fn unfold_from<'v>(
    alloc: Global,
    by: &Unfolding<'v>,
    at: usize,
    chosen: &mut Vec<&'v View>,
    news: &mut Vec<Piece>,
) -> Result<(), NoMemory>
    requires same { map view_of by.now.wholes.now ≡ map whole_table by.now.piece.now.atoms.items }
    requires inside { at ≤ length by.now.piece.now.atoms.items }
    ensures chosen { OnOk result (chosen.new.items ≡ chosen.old.items) }
    ensures news { OnOk result (shown_pieces news.new.items ≡ shown_pieces news.old.items
        ++ map (λ rest. unfolded (piece_of by.now.piece.now)
        (borrowed_views chosen.old.items ++ rest))
        (choices (map (views_of_table (all_views_of by.now.views.now))
        (drop at by.now.piece.now.atoms.items)))) }
{
    if at >= by.piece.atoms.len() {
        news.push(unfold(alloc, by.piece, chosen)?)?;
        return Ok(());
    }
    let list = by.views_at(at);
    for view in list {
        unfold_after(alloc, by, at + 1, view, chosen, news)?;
    }
    Ok(())
}

// Each unfolding of the atoms from this one on, after the chosen views and one more.
#[cycle(rest)]
fn unfold_after<'v>(
    alloc: Global,
    by: &Unfolding<'v>,
    at: usize,
    view: &'v View,
    chosen: &mut Vec<&'v View>,
    news: &mut Vec<Piece>,
) -> Result<(), NoMemory>
    requires same { map view_of by.now.wholes.now ≡ map whole_table by.now.piece.now.atoms.items }
    requires inside { at ≤ length by.now.piece.now.atoms.items }
    ensures chosen { OnOk result (chosen.new.items ≡ chosen.old.items) }
    ensures news { OnOk result (shown_pieces news.new.items ≡ shown_pieces news.old.items
        ++ map (λ rest. unfolded (piece_of by.now.piece.now)
        ((borrowed_views chosen.old.items ++ view_of view.now ∷ []) ++ rest))
        (choices (map (views_of_table (all_views_of by.now.views.now))
        (drop at by.now.piece.now.atoms.items)))) }
{
    let before = chosen.len();
    chosen.push(view)?;
    unfold_from(alloc, by, at, chosen, news)?;
    chosen.truncate(before);
    Ok(())
}

fn unfold_all(alloc: Global, by: &Unfolding<'_>) -> Result<Vec<Piece>, NoMemory>
    requires same { map view_of by.now.wholes.now ≡ map whole_table by.now.piece.now.atoms.items }
    ensures { IfOk result (λ news. shown_pieces news.items
        ≡ unfoldings (all_views_of by.now.views.now) (piece_of by.now.piece.now)) }
{
    let mut chosen = Vec::with_capacity(alloc, by.piece.atoms.len())?;
    let mut news = Vec::new(alloc);
    unfold_from(alloc, by, 0, &mut chosen, &mut news)?;
    Ok(news)
}

fn unfold_with<'v>(
    alloc: Global,
    views: &'v [TableViews],
    piece: &'v Piece,
    wholes: &'v [View],
) -> Result<Vec<Piece>, NoMemory>
    requires same { map view_of wholes.now ≡ map whole_table piece.now.atoms.items }
    ensures { IfOk result (λ news. shown_pieces news.items
        ≡ unfoldings (all_views_of views.now) (piece_of piece.now)) }
{
    let by = Unfolding {
        piece,
        views,
        wholes,
    };
    unfold_all(alloc, &by)
}

/// The unfoldings of a piece by the views of the tables that an operator makes: for each way to put
/// one of its table's views in place of each atom, the piece. A table that has no views here is
/// itself. The one error is `NoMemory`, where memory runs out.
pub fn unfold_by(alloc: Global, views: &[TableViews], piece: &Piece) -> Result<Vec<Piece>, NoMemory>
    ensures { IfOk result (λ news. shown_pieces news.items
        ≡ unfoldings (all_views_of views.now) (piece_of piece.now)) }
{
    let wholes = whole_tables(alloc, &piece.atoms)?;
    unfold_with(alloc, views, piece, &wholes)
}
