//! The twelve boxed rules: which boxes make a book, which fault is told of those that do not, and
//! what each rule answers with ample memory.
ghost use Rattle.std.specs.Prelude.{◌≡◌, IfOk, MatchOption, None, ⊤};
ghost use Rattle.smo_ops_types.specs.Operators.{operator_of};
ghost use Rattle.smo_ops_spec.specs.After.{op_fault, schema_after, IsValid};
ghost use Rattle.piece_ir_spec.specs.Typed.{IsTyped};
ghost use Rattle.piece_ir.specs.Shown.{piece_of};

use crate::operator::{next, operator, two_tables};
use cond_expr::Cond;
use piece_ir::Piece;
use prima_base::{Name, NoMemory, OpKind};
use rewrite_rules::{BookFault, NopRule, Rule, RuleBook, push_every_rule};
use schema_catalog::Schema;
use smo_ops::Op;
use std::alloc::Global;
use std::test::Fail;

// Whether these rules make no book because none of them is of this kind.
fn is_missing<R: Rule>(alloc: Global, rules: Vec<R>, missing: OpKind) -> bool {
    match RuleBook::new(alloc, rules) {
        Err(BookFault::Missing(kind)) => kind == missing,
        _ => false,
    }
}

// Whether these rules make no book because two of them are of this kind.
fn is_twice<R: Rule>(alloc: Global, rules: Vec<R>, twice: OpKind) -> bool {
    match RuleBook::new(alloc, rules) {
        Err(BookFault::Twice(kind)) => kind == twice,
        _ => false,
    }
}

// The piece without outputs that holds where the table has a row; none where there is no such
// table.
fn piece_on(alloc: Global, schema: &Schema, table: &Name) -> Result<Option<Piece>, NoMemory>
    ensures { IfOk result (λ o. MatchOption o ⊤ (λ p. IsTyped schema.now (piece_of p))) }
{
    if schema.table(table).is_none() {
        return Ok(None);
    }
    let mut atoms = Vec::new(alloc);
    atoms.push(table.copy()?)?;
    Ok(Some(Piece {
        atoms,
        cond: Cond::True,
        outs: Vec::new(alloc),
    }))
}

// The names of the pieces' tables, with a `;` after each piece.
fn names_of(alloc: Global, pieces: &[Piece]) -> Result<Vec<u8>, NoMemory> {
    let mut names = Vec::new(alloc);
    for piece in pieces {
        for atom in &piece.atoms {
            names.extend_from_slice(atom.bytes())?;
        }
        names.push(b';')?;
    }
    Ok(names)
}

// What a book of these rules answers; none where they make no book.
fn rewritten<R: Rule>(
    alloc: Global,
    rules: Vec<R>,
    before: &Schema,
    op: &Op,
    piece: &Piece,
) -> Result<Option<Vec<Piece>>, NoMemory>
    requires valid { IsValid before.now }
    requires accepted { op_fault before.now (operator_of op.now) ≡ None }
    requires typed { IsTyped (schema_after before.now (operator_of op.now)) (piece_of piece.now) }
{
    match RuleBook::new(alloc, rules) {
        Ok(book) => Ok(Some(book.rewrite(alloc, op, before, piece)?)),
        Err(_) => Ok(None),
    }
}

// What a book of the twelve boxed rules answers.
fn rewritten_by_all(
    alloc: Global,
    before: &Schema,
    op: &Op,
    piece: &Piece,
) -> Result<Option<Vec<Piece>>, NoMemory>
    requires valid { IsValid before.now }
    requires accepted { op_fault before.now (operator_of op.now) ≡ None }
    requires typed { IsTyped (schema_after before.now (operator_of op.now)) (piece_of piece.now) }
{
    let mut rules: Vec<Box<dyn Rule>> = Vec::new(alloc);
    push_every_rule!(alloc, rules);
    rewritten(alloc, rules, before, op, piece)
}

// What it answers to the operator and the piece on a table after it; none where the operator is
// refused.
fn answered(
    alloc: Global,
    before: &Schema,
    op: &Op,
    table: &Name,
) -> Result<Option<Vec<Piece>>, NoMemory>
    requires { IsValid before.now }
{
    let Some(schema_after) = next(alloc, before, op) else {
        return Ok(None);
    };
    let Some(piece) = piece_on(alloc, &schema_after, table)? else {
        return Ok(None);
    };
    rewritten_by_all(alloc, before, op, &piece)
}

// The names of the tables of these pieces, where there are any.
fn names_in(alloc: Global, pieces: Option<Vec<Piece>>) -> Result<Vec<u8>, Fail> {
    match pieces {
        Some(pieces) => Ok(names_of(alloc, &pieces)?),
        None => Err(Fail::new("twelve rules make a book, and each operator is accepted")),
    }
}

// The names of the tables of what it answers to the operator, on a table after it.
fn names_after(alloc: Global, before: &Schema, op: &Op, table: &[u8]) -> Result<Vec<u8>, Fail>
    requires { IsValid before.now }
{
    let table = Name::new(alloc, table)?;
    let pieces = answered(alloc, before, op, &table)?;
    names_in(alloc, pieces)
}

// The same for the operator of this text.
fn names_answered(
    alloc: Global,
    before: &Schema,
    text: &[u8],
    table: &[u8],
) -> Result<Vec<u8>, Fail>
    requires { IsValid before.now }
{
    match operator(alloc, text) {
        Some(op) => names_after(alloc, before, &op, table),
        None => Err(Fail::new("each text is an operator")),
    }
}

// Of each kind of operator one, a table after it, and the tables of the pieces that stand for it.
const CASES: [(&[u8], &[u8], &[u8]); 12] = [
    (b"NOP", b"r", b"r;"),
    (b"CREATE TABLE t (a INT)", b"t", b""),
    (b"DROP TABLE s", b"r", b"r;"),
    (b"RENAME TABLE r INTO t", b"t", b"r;"),
    (b"COPY TABLE r INTO t", b"t", b"r;"),
    (b"MERGE TABLE r, s INTO t", b"t", b"r;s;"),
    (b"PARTITION TABLE r INTO t WITH a < 10, u", b"u", b"r;"),
    (b"DECOMPOSE TABLE r INTO t (a), u (a, b)", b"u", b"r;"),
    (b"JOIN TABLE r, s INTO t WHERE TRUE", b"t", b"rs;"),
    (b"ADD COLUMN c AS LENGTH(b) INTO r", b"r", b"r;"),
    (b"DROP COLUMN b FROM r", b"r", b"r;"),
    (b"RENAME COLUMN b IN r TO c", b"r", b"r;"),
];

#[test]
fn each_rule_answers(rt: HostRuntime) -> Result<(), Fail> {
    let alloc = rt.alloc();
    let Some(before) = two_tables(alloc) else {
        return Err(Fail::new("two tables are made"));
    };
    for (text, table, names) in CASES {
        let answer = names_answered(alloc, &before, text, table)?;
        assert_eq!(rt; answer.as_slice(), names);
    }
    Ok(())
}

#[test]
fn a_book_has_each_rule_once(rt: HostRuntime) -> Result<(), Fail> {
    let alloc = rt.alloc();
    let mut others: Vec<Box<dyn Rule>> = Vec::new(alloc);
    push_every_rule!(alloc, others);
    if others.len() != 12 {
        return Err(Fail::new("there are twelve rules"));
    }
    // That of NOP is the first.
    let _nop = others.remove(0);
    assert!(rt; is_missing(alloc, others, OpKind::Nop));
    let mut thirteen: Vec<Box<dyn Rule>> = Vec::new(alloc);
    push_every_rule!(alloc, thirteen);
    thirteen.push(Box::new(alloc, NopRule)?)?;
    assert!(rt; is_twice(alloc, thirteen, OpKind::Nop));
    Ok(())
}
