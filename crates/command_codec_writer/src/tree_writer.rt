//! Writing expressions and conditions.

ghost use Rattle.std.specs.Prelude.{◌≡◌, ◌<◌, ◌^◌, ◌++◌, ◌∷◌, [], map, length, OnOk};
ghost use Rattle.cond_expr.specs.Seen.{tree, test, trees_of, tests_of};
ghost use Rattle.command_codec_spec.specs.Encoding.{number, sign_tag, tree_bytes, trees_bytes};
ghost use Rattle.command_codec_spec.specs.Encoding.{test_bytes, tests_bytes};
ghost use Rattle.command_codec_spec.specs.Valid.{TreeFits, TreesFit, TestFits, TestsFit, TreeNamed};
ghost use Rattle.command_codec_spec.specs.Valid.{TreesNamed, TestNamed, TestsNamed};

use crate::part::{put, put_u8, put_u16, write_name, write_value};
use cond_expr::{CmpOp, Cond, Expr};
use prima_base::NoMemory;

// The tag of a comparison's sign.
fn tag_of(op: CmpOp) -> u8
    ensures { result ≡ sign_tag op }
{
    match op {
        CmpOp::Eq => 0,
        CmpOp::Ne => 1,
        CmpOp::Lt => 2,
        CmpOp::Le => 3,
        CmpOp::Gt => 4,
        CmpOp::Ge => 5,
    }
}

// The tag of CONCAT, and how many parts stand after it.
fn put_count(out: &mut Vec<u8>, count: usize) -> Result<(), NoMemory>
    requires { count < 2 ^ 8 }
    ensures { OnOk result (out.new.items ≡ out.old.items ++ (3 ∷ number 1 count)) }
{
    put(out, &[3])?;
    put_u8(out, count as u8)
}

// The tag of AND or OR, and how many parts stand after it.
fn put_long_count(out: &mut Vec<u8>, tag: u8, count: usize) -> Result<(), NoMemory>
    requires { count < 2 ^ 16 }
    ensures { OnOk result (out.new.items ≡ out.old.items ++ (tag ∷ number 2 count)) }
{
    put(out, &[tag])?;
    put_u16(out, count as u16)
}

/// Writes the spelling of an expression after what is there.
#[cycle(writes)]
#[tactic(auto, using(cond_expr::proofs::SeenLaws::tree_of_concat, cond_expr::proofs::SeenLaws::tree_of_case, cond_expr::proofs::SeenLaws::count_is_length, crate::proofs::After::one_more))]
pub fn write_expr(out: &mut Vec<u8>, expr: &Expr) -> Result<(), NoMemory>
    requires { TreeFits (tree expr.now) }
    ensures ok { OnOk result (out.new.items ≡ out.old.items ++ tree_bytes (tree expr.now)) }
    ensures named { OnOk result (TreeNamed (tree expr.now)) }
{
    match expr {
        Expr::Col(reference) => {
            put(out, &[0])?;
            write_name(out, &reference.name)?;
            Ok(())
        }
        Expr::Const(value) => {
            put(out, &[1])?;
            write_value(out, value)?;
            Ok(())
        }
        Expr::Length(part) => {
            put(out, &[2])?;
            write_expr(out, part)?;
            Ok(())
        }
        Expr::Concat(parts) => {
            put_count(out, parts.len())?;
            write_exprs(out, parts)?;
            Ok(())
        }
        Expr::Case(cond, first, second) => {
            put(out, &[4])?;
            write_cond(out, cond)?;
            write_expr(out, first)?;
            write_expr(out, second)?;
            Ok(())
        }
    }
}

// Expressions, one after the other.
#[cycle(writes)]
fn write_exprs(out: &mut Vec<u8>, parts: &[Expr]) -> Result<(), NoMemory>
    requires { TreesFit (trees_of (map tree parts.now)) }
    ensures ok { OnOk result (out.new.items ≡ out.old.items
        ++ trees_bytes (trees_of (map tree parts.now))) }
    ensures named { OnOk result (TreesNamed (trees_of (map tree parts.now))) }
{
    for part in parts {
        write_expr(out, part)?;
    }
    Ok(())
}

/// Writes the spelling of a condition after what is there.
#[cycle(writes)]
#[tactic(auto, using(cond_expr::proofs::SeenLaws::test_of_and, cond_expr::proofs::SeenLaws::test_of_or, cond_expr::proofs::SeenLaws::test_of_cmp, crate::proofs::After::number_is_length, crate::proofs::After::one_more))]
pub fn write_cond(out: &mut Vec<u8>, cond: &Cond) -> Result<(), NoMemory>
    requires { TestFits (test cond.now) }
    ensures ok { OnOk result (out.new.items ≡ out.old.items ++ test_bytes (test cond.now)) }
    ensures named { OnOk result (TestNamed (test cond.now)) }
{
    match cond {
        Cond::False => put(out, &[0]),
        Cond::True => put(out, &[1]),
        Cond::Cmp(op, first, second) => {
            put(out, &[2, tag_of(*op)])?;
            write_expr(out, first)?;
            write_expr(out, second)?;
            Ok(())
        }
        Cond::And(parts) => {
            put_long_count(out, 3, parts.len())?;
            write_conds(out, parts)?;
            Ok(())
        }
        Cond::Or(parts) => {
            put_long_count(out, 4, parts.len())?;
            write_conds(out, parts)?;
            Ok(())
        }
        Cond::Not(part) => {
            put(out, &[5])?;
            write_cond(out, part)?;
            Ok(())
        }
    }
}

// Conditions, one after the other.
#[cycle(writes)]
fn write_conds(out: &mut Vec<u8>, parts: &[Cond]) -> Result<(), NoMemory>
    requires { TestsFit (tests_of (map test parts.now)) }
    ensures ok { OnOk result (out.new.items ≡ out.old.items
        ++ tests_bytes (tests_of (map test parts.now))) }
    ensures named { OnOk result (TestsNamed (tests_of (map test parts.now))) }
{
    for part in parts {
        write_cond(out, part)?;
    }
    Ok(())
}
