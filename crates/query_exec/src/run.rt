//! Neighbouring parts of a slice that are read as one.

ghost use Rattle.std.specs.Prelude.{◌≡◌, ◌≤◌, ◌↔◌, ℕ, List, IsTrue, true, take, IfSome, Some};
ghost use Rattle.std.specs.Prelude.{length};
ghost use Rattle.version_groups.specs.Groups.{table_in};
ghost use Rattle.join_exec.specs.Reading.{reads};
ghost use Rattle.piece_ir.specs.Shown.{piece_of, shown_pieces};
ghost use Rattle.query_exec.specs.Runs.{AreAlike, TablesAlike, IsAlike, PiecesAlike};
ghost use Rattle.query_exec.specs.Runs.{GoesOn, Meet, IsRun};

use crate::part_piece::PartPieces;
use crate::route::ends_in_time;
use history_store::StoredTable;
use piece_ir::{Piece, same_form};
use prima_base::{ColType, Name, Period};
use version_groups::Groups;

// Whether both have one lifeline: then what is stored of them is the same.
fn share_lifeline(groups: &Groups, version: u32, name: &Name, other: u32, other_name: &Name) -> bool
    ensures { result ≡ true → table_in groups.now version name.now
        ≡ table_in groups.now other other_name.now }
{
    match groups.place(version, name) {
        Some(place) => match groups.place(other, other_name) {
            Some(second) => place == second,
            None => false,
        },
        None => groups.place(other, other_name).is_none(),
    }
}

// Whether no more is stored of the second table than of the first, which has the same columns.
fn stores_no_more(first: &StoredTable, second: &StoredTable) -> bool
    ensures { result ≡ true → first.now.columns ≡ second.now.columns → (names : List (List ℕ))
        → reads second.now names ≤ reads first.now names }
{
    if second.keys() > first.keys() || first.width() != second.width() {
        return false;
    }
    for k in 0..first.width() {
        if second.entries_at(k) > first.entries_at(k) {
            return false;
        }
    }
    true
}

fn same_columns(a: &[(Name, ColType)], b: &[(Name, ColType)]) -> bool
    ensures { IsTrue result ↔ (a.now ≡ b.now) }
{
    a == b
}

// Whether what is stored of the tables is alike from the moment on. One that an operator begins and
// that nothing changes until the next one is a copy, by another name say: it is looked at row by
// row, which takes less than to read and join it anew.
fn alike_stores(first: &StoredTable, second: &StoredTable, from: u64) -> bool
    ensures { result ≡ true → AreAlike from (Some first.now) (Some second.now) }
{
    if !same_columns(first.columns(), second.columns()) {
        return false;
    }
    if !stores_no_more(first, second) {
        return false;
    }
    first.shows_same(second, from)
}

// The same of the tables of these names in two versions.
fn alike_tables(
    groups: &Groups,
    version: u32,
    name: &Name,
    other: u32,
    other_name: &Name,
    from: u64,
) -> bool
    ensures { result ≡ true → AreAlike from (table_in groups.now version name.now)
        (table_in groups.now other other_name.now) }
{
    if share_lifeline(groups, version, name, other, other_name) {
        return true;
    }
    match groups.table(version, name) {
        Some(first) => match groups.table(other, other_name) {
            Some(second) => alike_stores(first, second, from),
            None => false,
        },
        None => false,
    }
}

fn all_tables_alike(
    groups: &Groups,
    version: u32,
    names: &[Name],
    other: u32,
    other_names: &[Name],
    from: u64,
) -> bool
    ensures { result ≡ true → TablesAlike groups.now from version names.now other
        other_names.now }
{
    match names {
        [] => other_names.is_empty(),
        [name, rest @ ..] => match other_names {
            [] => false,
            [other_name, others @ ..] => {
                alike_tables(groups, version, name, other, other_name, from)
                    && all_tables_alike(groups, version, rest, other, others, from)
            }
        },
    }
}

// Whether the pieces are one but for the names of their tables, which are alike.
fn alike_pieces(
    groups: &Groups,
    version: u32,
    piece: &Piece,
    other: u32,
    other_piece: &Piece,
    from: u64,
) -> bool
    ensures { result ≡ true → IsAlike groups.now from version (piece_of piece.now) other
        (piece_of other_piece.now) }
{
    if !same_form(piece, other_piece) {
        return false;
    }
    all_tables_alike(
        groups,
        version,
        &piece.atoms,
        other,
        &other_piece.atoms,
        from,
    )
}

fn all_pieces_alike(
    groups: &Groups,
    version: u32,
    pieces: &[Piece],
    other: u32,
    other_pieces: &[Piece],
    from: u64,
) -> bool
    ensures { result ≡ true → PiecesAlike groups.now from version (shown_pieces pieces.now) other
        (shown_pieces other_pieces.now) }
{
    match pieces {
        [] => other_pieces.is_empty(),
        [piece, rest @ ..] => match other_pieces {
            [] => false,
            [other_piece, others @ ..] => {
                alike_pieces(groups, version, piece, other, other_piece, from)
                    && all_pieces_alike(groups, version, rest, other, others, from)
            }
        },
    }
}

// The period up to the end of the next part, where that begins at its end and may be read with the
// first.
fn gone_on(groups: &Groups, first: &PartPieces, period: Period, next: &PartPieces) -> Option<Period>
    ensures goes { IfSome result (λ _. GoesOn groups.now first.now next.now) }
    ensures both { IfSome result (λ both. Meet period next.now.part.0 both) }
{
    let part = next.part.0;
    let from = part.start();
    if from != period.end() {
        return None;
    }
    if !all_pieces_alike(
        groups,
        first.part.1,
        &first.pieces,
        next.part.1,
        &next.pieces,
        from,
    ) {
        return None;
    }
    let both = period.until(part.end());
    ends_in_time(both);
    Some(both)
}

/// The parts that are read with the first, as the period of all of them and how many they are
/// besides it: those after it, up to one whose pieces are not alike, or which has something else
/// stored.
pub(crate) fn run_of(groups: &Groups, first: &PartPieces, rest: &[PartPieces]) -> (Period, usize)
    ensures within { result.1 ≤ length rest.now }
    ensures run { IsRun groups.now first.now (take result.1 rest.now) result.0 }
{
    let mut period = first.part.0;
    ends_in_time(period);
    let mut count: usize = 0;
    for next in rest {
        match gone_on(groups, first, period, next) {
            Some(both) => {
                period = both;
                count += 1;
            }
            None => return (period, count),
        }
    }
    (period, count)
}
