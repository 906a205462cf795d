ghost use Rattle.std.specs.Prelude.{◌≡◌, List, None, length};
ghost use Rattle.std.specs.Option.{option_map};
ghost use Rattle.prima_base.specs.declared.refusal.Refusal.TheVariants.{InverseMisses};
ghost use Rattle.smo_ops_types.specs.Operators.{Operator, evolution_of, evolutions_of};
ghost use Rattle.smo_ops_spec.specs.First.{first_refusal};
ghost use Rattle.smo_ops_spec.specs.After.{HaveFewNodes, AllHaveFewNodes};
ghost use Rattle.smo_ops_spec.specs.Evolutions.{schema_after_each, evolution_fault};
ghost use Rattle.smo_ops_spec.specs.Inverses.{first_difference, way_back, inverse_fault, IsInTurn};
ghost use Rattle.smo_ops_spec.specs.Inverses.{IsInverse, IsNumbered};

use crate::{after, schema_after};
use prima_base::{Name, NoMemory, OpRefusal};
use schema_catalog::{SameFault, Schema, same};
use smo_ops_types::{InverseFault, Op, OpFault};
use std::alloc::Global;

// The schema after the operators, one after the other from a schema on.
fn schema_after_each(alloc: Global, schema: &Schema, ops: &[Op]) -> Result<Schema, InverseFault>
    requires { AllHaveFewNodes (evolutions_of ops.now) }
    ensures { IsInTurn schema.now (evolutions_of ops.now) result }
{
    let mut now = match schema.copy() {
        Ok(copy) => copy,
        Err(NoMemory) => return Err(InverseFault::NoMemory),
    };
    for (i, op) in ops.iter().enumerate() {
        match after(alloc, &now, op) {
            Ok(next) => now = next,
            Err(OpFault::Refused(refusal)) => return Err(InverseFault::Op(i as u64 + 1, refusal)),
            Err(OpFault::NoMemory) => return Err(InverseFault::NoMemory),
        }
    }
    Ok(now)
}

// The two schemas are one.
fn check_given_back(before: &Schema, last: &Schema) -> Result<(), InverseFault>
    ensures { IsInverse (option_map InverseMisses (first_difference before.now last.now)) result }
{
    match same(before, last) {
        Ok(()) => Ok(()),
        Err(SameFault::Differs(name)) => Err(InverseFault::Misses(name)),
        Err(SameFault::NoMemory) => Err(InverseFault::NoMemory),
    }
}

// The operators, of which there is one at least, lead from a schema to the one before the operator
// that they go back over.
fn check_named(
    alloc: Global,
    before: &Schema,
    next: &Schema,
    inverse: &[Op],
) -> Result<(), InverseFault>
    requires { AllHaveFewNodes (evolutions_of inverse.now) }
    ensures { IsInverse (first_refusal (way_back before.now next.now 1 (evolutions_of inverse.now)))
        result }
{
    let last = schema_after_each(alloc, next, inverse)?;
    check_given_back(before, &last)
}

/// Whether the operators of an inverse lead, one after the other, from the schema after an operator
/// to the one before it. `Op` has the number, from 1, of the first of them that is refused on the
/// schema that stands then, and its refusal; `Misses`, where none is refused and the last schema is
/// another than the one before, has the first name, in name order, under which they differ
/// (`same`). An empty list names no inverse and is accepted. Each tree of the operators has fewer
/// than 2^32 nodes.
pub fn check_way_back(
    alloc: Global,
    before: &Schema,
    next: &Schema,
    inverse: &[Op],
) -> Result<(), InverseFault>
    requires { AllHaveFewNodes (evolutions_of inverse.now) }
    ensures checked { (op : List Operator) → next.now ≡ schema_after_each before.now op
        → IsInverse (inverse_fault before.now op (evolutions_of inverse.now)) result }
    ensures number { IsNumbered (length inverse.now) result }
{
    if inverse.is_empty() {
        return Ok(());
    }
    check_named(alloc, before, next, inverse)
}

/// Whether an operator's inverse leads back, as `check_way_back` tells it of the schema after the
/// operator. The operator is accepted on the schema, and each tree of all the operators has fewer
/// than 2^32 nodes.
pub fn check_inverse(
    alloc: Global,
    before: &Schema,
    op: &Op,
    inverse: &[Op],
) -> Result<(), InverseFault>
    requires accepted { evolution_fault before.now (evolution_of op.now) ≡ None }
    requires operator { HaveFewNodes (evolution_of op.now) }
    requires inverse { AllHaveFewNodes (evolutions_of inverse.now) }
    ensures checked { IsInverse (inverse_fault before.now (evolution_of op.now)
        (evolutions_of inverse.now)) result }
    ensures number { IsNumbered (length inverse.now) result }
{
    match schema_after(alloc, before, op) {
        Ok(next) => check_way_back(alloc, before, &next, inverse),
        Err(NoMemory) => Err(InverseFault::NoMemory),
    }
}
