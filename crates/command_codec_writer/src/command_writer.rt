//! Writing commands, and operators alone.

ghost use Rattle.std.specs.Prelude.{◌≡◌, ◌<◌, ◌++◌, IfOk, OnOk, OnErr};
ghost use Rattle.relations_spec.specs.Spans.{forever};
ghost use Rattle.smo_ops_types.specs.Operators.{operator_of, evolution_of, evolutions_of};
ghost use Rattle.smo_ops_types.specs.Changes.{changes_of};
ghost use Rattle.smo_ops_types.specs.Commands.{changing, evolving, command_of};
ghost use Rattle.command_codec_spec.specs.Found.{Appends, Encodes, EncodesOperator};
ghost use Rattle.command_codec_spec.specs.Valid.{IsWritable, IsWritableBody, IsWritableOperator};
ghost use Rattle.command_codec_spec.specs.Valid.{IsOperator};
ghost use Rattle.command_codec_spec.specs.Encoding.{operator_bytes};

use crate::change_writer::{write_changing, write_evolving};
use crate::operator_writer::write_op;
use crate::part::{put, put_u64};
use crate::size::{changing_size, evolving_size, op_size};
use prima_base::NoMemory;
use smo_ops_types::{Body, Change, Command, Op};
use std::alloc::Global;

/// The spelling of a command that can be written; each accepted command is such. Its bytes are
/// counted first, and written into one buffer of just so many. The one error is `NoMemory`, where
/// memory runs out.
pub fn encode(alloc: Global, command: &Command) -> Result<Vec<u8>, NoMemory>
    requires { IsWritable (command_of command.now) }
    ensures { IfOk result (λ v. Encodes (command_of command.now) v.items) }
{
    let stamp = command.stamp();
    match command.body() {
        Body::Changes(changes) => encode_changes(alloc, stamp, changes),
        Body::Evolve { op, inverse } => encode_operator(alloc, stamp, op, inverse),
    }
}

/// The spelling of the command with this stamp, which is below `FOREVER`, that makes these changes,
/// as `encode` writes it.
pub fn encode_changes(alloc: Global, stamp: u64, changes: &[Change]) -> Result<Vec<u8>, NoMemory>
    requires valid { stamp < forever }
    requires writable { IsWritableBody (changing (changes_of changes.now)) }
    ensures { IfOk result (λ v. Encodes
        (record { stamp = stamp; body = changing (changes_of changes.now) }) v.items) }
{
    let size = changing_size(changes).saturating_add(8);
    let mut out = Vec::with_capacity(alloc, size as usize)?;
    put_u64(&mut out, stamp)?;
    write_changing(&mut out, changes)?;
    Ok(out)
}

/// The spelling of the command with this stamp, which is below `FOREVER`, that makes the next
/// version by this operator with this inverse, as `encode` writes it.
pub fn encode_operator(
    alloc: Global,
    stamp: u64,
    op: &Op,
    inverse: &[Op],
) -> Result<Vec<u8>, NoMemory>
    requires valid { stamp < forever }
    requires writable { IsWritableBody (evolving (evolution_of op.now) (evolutions_of inverse.now)) }
    ensures { IfOk result (λ v. Encodes (record {
      stamp = stamp;
      body = evolving (evolution_of op.now) (evolutions_of inverse.now);
    }) v.items) }
{
    let size = evolving_size(op, inverse).saturating_add(8);
    let mut out = Vec::with_capacity(alloc, size as usize)?;
    put_u64(&mut out, stamp)?;
    write_evolving(&mut out, op, inverse)?;
    Ok(out)
}

// The spelling of an operator alone.
fn encoded_op(alloc: Global, op: &Op) -> Result<Vec<u8>, NoMemory>
    requires { IsWritableOperator (operator_of op.now) }
    ensures { IfOk result (λ v. EncodesOperator (operator_of op.now) v.items) }
{
    let mut out = Vec::with_capacity(alloc, op_size(op) as usize)?;
    write_op(&mut out, op)?;
    Ok(out)
}

/// Appends the spelling of an operator that can be written. The one error is `NoMemory`, where
/// memory runs out; the buffer then holds what it held.
pub fn put_op(buffer: &mut Vec<u8>, op: &Op) -> Result<(), NoMemory>
    requires { IsWritableOperator (operator_of op.now) }
    ensures ok { OnOk result (Appends EncodesOperator (operator_of op.now) buffer.old.items
        buffer.new.items) }
    ensures err { OnErr result (buffer.new.items ≡ buffer.old.items) }
{
    let bytes = encoded_op(*buffer.allocator(), op)?;
    put(buffer, &bytes)
}
