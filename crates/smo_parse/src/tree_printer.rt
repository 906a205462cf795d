//! Printing of expressions and conditions, as `specs/TreeTexts.antt` has their texts.

ghost use Rattle.std.specs.Prelude.{◌≡◌, ℕ, ◌<◌, length, ◌++◌, ◌∷◌, [], ◌==◌, List, take, drop};
ghost use Rattle.std.specs.Prelude.{map, codes, if◌then◌else◌, OnOk};
ghost use Rattle.cond_expr.specs.Seen.{tree, test, trees_of, tests_of};
ghost use Rattle.smo_parse.specs.TreeTexts.{doubled, value_text, reference_text, sign_text};
ghost use Rattle.smo_parse.specs.TreeTexts.{bracketed, tree_text, trees_text, more_trees_text};
ghost use Rattle.smo_parse.specs.TreeTexts.{test_text, tests_text, more_tests_text};

use cond_expr::{CmpOp, ColRef, Cond, Expr, Whose};
use itoa::Buffer;
use prima_base::{NoMemory, Value};

/// Writes these bytes after what is there. The one error is `NoMemory`, where memory runs out.
pub fn put(out: &mut Vec<u8>, bytes: &[u8]) -> Result<(), NoMemory>
    ensures ok { OnOk result (out.new.items ≡ out.old.items ++ bytes.now) }
    ensures prefix { take (length out.old.items) out.new.items ≡ out.old.items }
{
    out.extend_from_slice(bytes)?;
    Ok(())
}

// A byte of a text; a quote is doubled.
fn put_byte(out: &mut Vec<u8>, byte: u8) -> Result<(), NoMemory>
    ensures ok { OnOk result (out.new.items ≡ out.old.items
        ++ (if byte == 39 then 39 ∷ 39 ∷ [] else byte ∷ [])) }
    ensures prefix { take (length out.old.items) out.new.items ≡ out.old.items }
{
    if byte == b'\'' {
        return put(out, b"''");
    }
    out.push(byte)?;
    Ok(())
}

// The bytes of a text with each quote doubled.
#[tactic(auto, using(crate::proofs::StillThere::still_there))]
fn put_doubled(out: &mut Vec<u8>, bytes: &[u8]) -> Result<(), NoMemory>
    ensures ok { OnOk result (out.new.items ≡ out.old.items ++ doubled bytes.now) }
    ensures prefix { take (length out.old.items) out.new.items ≡ out.old.items }
{
    for byte in bytes {
        put_byte(out, *byte)?;
    }
    Ok(())
}

// A number, or a text in quotes.
fn write_value(out: &mut Vec<u8>, value: &Value) -> Result<(), NoMemory>
    ensures ok { OnOk result (out.new.items ≡ out.old.items ++ value_text value.now) }
    ensures prefix { take (length out.old.items) out.new.items ≡ out.old.items }
{
    match value {
        Value::Int(number) => put(out, Buffer::new().format(*number).as_bytes()),
        Value::Text(text) => {
            put(out, b"'")?;
            put_doubled(out, text.bytes())?;
            put(out, b"'")
        }
    }
}

// What stands before a column's name.
fn write_owner(out: &mut Vec<u8>, whose: &Whose, numbered: bool) -> Result<(), NoMemory>
    ensures ok { (n : List ℕ) → OnOk result (out.new.items ++ n ≡ out.old.items
        ++ reference_text numbered whose.now n) }
    ensures prefix { take (length out.old.items) out.new.items ≡ out.old.items }
{
    match whose {
        Whose::Free => Ok(()),
        Whose::Alias(table) => {
            put(out, table.bytes())?;
            put(out, b".")
        }
        Whose::Atom(atom) => {
            if !numbered {
                return Ok(());
            }
            put(out, b"t")?;
            put(out, Buffer::new().format(*atom).as_bytes())?;
            put(out, b".")
        }
    }
}

// A reference.
fn write_reference(out: &mut Vec<u8>, reference: &ColRef, numbered: bool) -> Result<(), NoMemory>
    ensures ok { OnOk result (out.new.items ≡ out.old.items
        ++ reference_text numbered reference.now.whose reference.now.name) }
    ensures prefix { take (length out.old.items) out.new.items ≡ out.old.items }
{
    write_owner(out, &reference.whose, numbered)?;
    put(out, reference.name.bytes())
}

// The sign of a comparison.
fn sign_of(op: CmpOp) -> &'static [u8]
    ensures { result.now ≡ sign_text op }
{
    match op {
        CmpOp::Eq => b"=",
        CmpOp::Ne => b"<>",
        CmpOp::Lt => b"<",
        CmpOp::Le => b"<=",
        CmpOp::Gt => b">",
        CmpOp::Ge => b">=",
    }
}

// The expressions after the first.
#[tactic(auto, using(lexer_spec::proofs::Cuts::tail_is))]
fn exprs_after(parts: &[Expr]) -> &[Expr]
    requires { 0 < length parts.now }
    ensures { result.now ≡ drop 1 parts.now }
{
    &parts[1..]
}

// The conditions after the first.
#[tactic(auto, using(lexer_spec::proofs::Cuts::tail_is))]
fn conds_after(parts: &[Cond]) -> &[Cond]
    requires { 0 < length parts.now }
    ensures { result.now ≡ drop 1 parts.now }
{
    &parts[1..]
}

/// Writes an expression's text after what is there. Where atoms are numbered, a column of atom 0 is
/// `t0.name`, and else the name alone. After `NoMemory` what was there still stands, and after it
/// may stand a part of the text.
#[cycle(writes)]
#[tactic(auto, using(cond_expr::proofs::SeenLaws::tree_of_concat, cond_expr::proofs::SeenLaws::tree_of_case))]
pub fn write_expr(out: &mut Vec<u8>, expr: &Expr, numbered: bool) -> Result<(), NoMemory>
    ensures ok { OnOk result (out.new.items ≡ out.old.items ++ tree_text numbered (tree expr.now)) }
    ensures prefix { take (length out.old.items) out.new.items ≡ out.old.items }
{
    match expr {
        Expr::Col(reference) => write_reference(out, reference, numbered),
        Expr::Const(value) => write_value(out, value),
        Expr::Length(part) => {
            put(out, b"LENGTH(")?;
            write_expr(out, part, numbered)?;
            put(out, b")")
        }
        Expr::Concat(parts) => {
            put(out, b"CONCAT(")?;
            write_exprs(out, parts, numbered)?;
            put(out, b")")
        }
        Expr::Case(cond, first, second) => {
            put(out, b"CASE WHEN ")?;
            write_cond(out, cond, numbered, false)?;
            write_after(out, b" THEN ", first, numbered)?;
            write_after(out, b" ELSE ", second, numbered)?;
            put(out, b" END")
        }
    }
}

// A word, and an expression after it.
#[cycle(writes)]
fn write_after(out: &mut Vec<u8>, word: &[u8], expr: &Expr, numbered: bool) -> Result<(), NoMemory>
    ensures ok { OnOk result (out.new.items ≡ out.old.items
        ++ (word.now ++ tree_text numbered (tree expr.now))) }
    ensures prefix { take (length out.old.items) out.new.items ≡ out.old.items }
{
    put(out, word)?;
    write_expr(out, expr, numbered)
}

// Expressions with commas between them.
#[cycle(writes)]
fn write_exprs(out: &mut Vec<u8>, parts: &[Expr], numbered: bool) -> Result<(), NoMemory>
    ensures ok { OnOk result (out.new.items ≡ out.old.items
        ++ trees_text numbered (trees_of (map tree parts.now))) }
    ensures prefix { take (length out.old.items) out.new.items ≡ out.old.items }
{
    match parts {
        [] => Ok(()),
        [first, ..] => {
            write_expr(out, first, numbered)?;
            write_more_exprs(out, exprs_after(parts), numbered)
        }
    }
}

// Expressions, each after a comma.
#[cycle(writes)]
#[tactic(auto, using(crate::proofs::StillThere::still_there))]
fn write_more_exprs(out: &mut Vec<u8>, parts: &[Expr], numbered: bool) -> Result<(), NoMemory>
    ensures ok { OnOk result (out.new.items ≡ out.old.items
        ++ more_trees_text numbered (trees_of (map tree parts.now))) }
    ensures prefix { take (length out.old.items) out.new.items ≡ out.old.items }
{
    for part in parts {
        put(out, b", ")?;
        write_expr(out, part, numbered)?;
    }
    Ok(())
}

/// Writes a condition's text after what is there, as `write_expr`. An AND or an OR that is a part
/// of another condition stands in brackets.
#[cycle(writes)]
#[tactic(auto, using(cond_expr::proofs::SeenLaws::test_of_and, cond_expr::proofs::SeenLaws::test_of_or, cond_expr::proofs::SeenLaws::test_of_cmp))]
pub fn write_cond(
    out: &mut Vec<u8>,
    cond: &Cond,
    numbered: bool,
    part: bool,
) -> Result<(), NoMemory>
    ensures ok { OnOk result (out.new.items ≡ out.old.items
        ++ test_text numbered part (test cond.now)) }
    ensures prefix { take (length out.old.items) out.new.items ≡ out.old.items }
{
    match cond {
        Cond::False => put(out, b"FALSE"),
        Cond::True => put(out, b"TRUE"),
        Cond::Cmp(op, first, second) => {
            write_expr(out, first, numbered)?;
            put(out, b" ")?;
            put(out, sign_of(*op))?;
            put(out, b" ")?;
            write_expr(out, second, numbered)
        }
        Cond::And(parts) => write_bracketed(out, parts, numbered, part, b"TRUE", b" AND "),
        Cond::Or(parts) => write_bracketed(out, parts, numbered, part, b"FALSE", b" OR "),
        Cond::Not(inner) => {
            put(out, b"NOT ")?;
            write_cond(out, inner, numbered, true)
        }
    }
}

// The parts of an AND or an OR, in brackets where it is a part itself.
#[cycle(writes)]
fn write_bracketed(
    out: &mut Vec<u8>,
    parts: &[Cond],
    numbered: bool,
    part: bool,
    none: &[u8],
    word: &[u8],
) -> Result<(), NoMemory>
    ensures ok { OnOk result (out.new.items ≡ out.old.items
        ++ bracketed part (tests_text numbered none.now word.now (tests_of (map test parts.now)))) }
    ensures prefix { take (length out.old.items) out.new.items ≡ out.old.items }
{
    if !part {
        return write_conds(out, parts, numbered, none, word);
    }
    put(out, b"(")?;
    write_conds(out, parts, numbered, none, word)?;
    put(out, b")")
}

// The parts of an AND or an OR with the word between them; one alone stands in brackets.
#[cycle(writes)]
fn write_conds(
    out: &mut Vec<u8>,
    parts: &[Cond],
    numbered: bool,
    none: &[u8],
    word: &[u8],
) -> Result<(), NoMemory>
    ensures ok { OnOk result (out.new.items ≡ out.old.items
        ++ tests_text numbered none.now word.now (tests_of (map test parts.now))) }
    ensures prefix { take (length out.old.items) out.new.items ≡ out.old.items }
{
    match parts {
        [] => put(out, none),
        [one] => {
            put(out, b"(")?;
            write_cond(out, one, numbered, false)?;
            put(out, b")")
        }
        [first, _, ..] => {
            write_cond(out, first, numbered, true)?;
            write_more_conds(out, conds_after(parts), numbered, word)
        }
    }
}

// Conditions, each after the word.
#[cycle(writes)]
#[tactic(auto, using(crate::proofs::StillThere::still_there))]
fn write_more_conds(
    out: &mut Vec<u8>,
    parts: &[Cond],
    numbered: bool,
    word: &[u8],
) -> Result<(), NoMemory>
    ensures ok { OnOk result (out.new.items ≡ out.old.items
        ++ more_tests_text numbered word.now (tests_of (map test parts.now))) }
    ensures prefix { take (length out.old.items) out.new.items ≡ out.old.items }
{
    for part in parts {
        put(out, word)?;
        write_cond(out, part, numbered, true)?;
    }
    Ok(())
}
