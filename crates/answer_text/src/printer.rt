ghost use Rattle.std.specs.Prelude.{◌≡◌, ◌++◌, ◌∷◌, map, IfOk, OnOk};
ghost use Rattle.cond_expr.specs.Seen.{tree};
ghost use Rattle.smo_ops_types.specs.Changes.{sets_of};
ghost use Rattle.smo_parse.specs.Texts.{more_listed};
ghost use Rattle.piece_ir.specs.Shown.{piece_of};
ghost use Rattle.answer_text.specs.PieceTexts.{out_text, listed_or_dash, piece_text};

use cond_expr::Expr;
use piece_ir::Piece;
use prima_base::{Name, NoMemory};
use smo_parse::{put, write_cond, write_expr, write_names};
use std::alloc::Global;

// An output: its name, and its expression.
fn write_out(text: &mut Vec<u8>, name: &Name, expr: &Expr) -> Result<(), NoMemory>
    ensures { OnOk result (text.new.items ≡ text.old.items ++ out_text (name.now, tree expr.now)) }
{
    put(text, name.bytes())?;
    put(text, b" = ")?;
    write_expr(text, expr, true)
}

// Outputs, each after a comma.
fn write_more_outs(text: &mut Vec<u8>, outs: &[(Name, Expr)]) -> Result<(), NoMemory>
    ensures { OnOk result (text.new.items ≡ text.old.items
        ++ more_listed (map out_text (sets_of outs.now))) }
{
    for out in outs {
        put(text, b", ")?;
        write_out(text, &out.0, &out.1)?;
    }
    Ok(())
}

// Outputs with commas between them, or a dash.
fn write_outs(text: &mut Vec<u8>, outs: &[(Name, Expr)]) -> Result<(), NoMemory>
    ensures { OnOk result (text.new.items ≡ text.old.items
        ++ listed_or_dash (map out_text (sets_of outs.now))) }
{
    match outs {
        [] => put(text, b"-"),
        [first, more @ ..] => {
            write_out(text, &first.0, &first.1)?;
            write_more_outs(text, more)
        }
    }
}

// Tables with commas between them, or a dash.
fn write_atoms(text: &mut Vec<u8>, atoms: &[Name]) -> Result<(), NoMemory>
    ensures { OnOk result (text.new.items ≡ text.old.items ++ listed_or_dash atoms.now) }
{
    match atoms {
        [] => put(text, b"-"),
        [_, ..] => write_names(text, atoms),
    }
}

/// The text of a piece: `SELECT NAME = EXPR, NAME = EXPR FROM TABLE, TABLE WHERE COND`, where a
/// column of atom i is `ti.name`. A piece without outputs has `SELECT -`, one without atoms `FROM
/// -`; a table that is an atom twice stands twice. The one error is `NoMemory`, where memory runs
/// out.
pub fn piece_text(alloc: Global, piece: &Piece) -> Result<Vec<u8>, NoMemory>
    ensures { IfOk result (λ t. t.items ≡ piece_text (piece_of piece.now)) }
{
    let mut text = Vec::new(alloc);
    put(&mut text, b"SELECT ")?;
    write_outs(&mut text, &piece.outs)?;
    put(&mut text, b" FROM ")?;
    write_atoms(&mut text, &piece.atoms)?;
    put(&mut text, b" WHERE ")?;
    write_cond(&mut text, &piece.cond, true, false)?;
    Ok(text)
}
