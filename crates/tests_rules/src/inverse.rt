//! Inverses of an operator: one that leads back, one that leads elsewhere, and one that is refused.
ghost use Rattle.std.specs.Prelude.{◌≡◌, None, IsTrue};
ghost use Rattle.smo_ops_types.specs.Operators.{evolution_of};
ghost use Rattle.smo_ops_spec.specs.After.{IsValid, HaveFewNodes};
ghost use Rattle.smo_ops_spec.specs.Evolutions.{evolution_fault};

use crate::operator::{are_small, is_small, next, operator, two_tables};
use prima_base::{NoMemory, OpRefusal};
use schema_catalog::Schema;
use smo_ops::{InverseFault, Op, check_inverse};
use std::alloc::Global;
use std::test::Fail;

// Whether the operator is small, and accepted on the schema.
fn is_accepted(alloc: Global, before: &Schema, op: &Op) -> bool
    requires { IsValid before.now }
    ensures { IsTrue result → (evolution_fault before.now (evolution_of op.now) ≡ None)
        × HaveFewNodes (evolution_of op.now) }
{
    match next(alloc, before, op) {
        Some(_) => is_small(op),
        None => false,
    }
}

// What `check_inverse` answers to the operator and its inverse; none where the operator is refused.
fn checked(
    alloc: Global,
    before: &Schema,
    op: &Op,
    inverse: &[Op],
) -> Option<Result<(), InverseFault>>
    requires { IsValid before.now }
{
    if !is_accepted(alloc, before, op) || !are_small(inverse) {
        return None;
    }
    Some(check_inverse(alloc, before, op, inverse))
}

// The same, of the inverse that the text spells; none where it spells no operator.
fn checked_text(
    alloc: Global,
    before: &Schema,
    op: &Op,
    inverse: &[u8],
) -> Result<Option<Result<(), InverseFault>>, NoMemory>
    requires { IsValid before.now }
{
    let mut list = Vec::new(alloc);
    if let Some(inverse) = operator(alloc, inverse) {
        list.push(inverse)?;
    }
    if list.is_empty() {
        return Ok(None);
    }
    Ok(checked(alloc, before, op, &list))
}

// The same, of the operator that the text spells.
fn checked_texts(
    alloc: Global,
    before: &Schema,
    op: &[u8],
    inverse: &[u8],
) -> Result<Option<Result<(), InverseFault>>, NoMemory>
    requires { IsValid before.now }
{
    match operator(alloc, op) {
        Some(op) => checked_text(alloc, before, &op, inverse),
        None => Ok(None),
    }
}

fn leads_back(checked: &Option<Result<(), InverseFault>>) -> bool {
    match checked {
        Some(Ok(())) => true,
        _ => false,
    }
}

fn misses(checked: &Option<Result<(), InverseFault>>, table: &[u8]) -> bool {
    match checked {
        Some(Err(InverseFault::Misses(name))) => name.bytes() == table,
        _ => false,
    }
}

fn has_no_table(checked: &Option<Result<(), InverseFault>>, table: &[u8]) -> bool {
    match checked {
        Some(Err(InverseFault::Op(1, OpRefusal::NoTable(name)))) => name.bytes() == table,
        _ => false,
    }
}

#[test]
fn an_inverse_is_checked(rt: HostRuntime) -> Result<(), Fail> {
    let alloc = rt.alloc();
    let Some(before) = two_tables(alloc) else {
        return Err(Fail::new("two tables are made"));
    };
    let add = b"ADD COLUMN c AS LENGTH(b) INTO r";
    assert!(rt; leads_back(&checked_texts(alloc, &before, add, b"DROP COLUMN c FROM r")?));
    assert!(rt;
        misses(
            &checked_texts(alloc, &before, add, b"DROP COLUMN b FROM r")?,
            b"r"
        )
    );
    assert!(rt; has_no_table(&checked_texts(alloc, &before, add, b"DROP TABLE t")?, b"t"));
    Ok(())
}
