// The schema after NOP.
ghost use Rattle.smo_ops_types.specs.Operators.{nop};
ghost use Rattle.smo_ops_spec.specs.After.{IsAfter};

use schema_catalog::Schema;
use smo_ops_types::OpFault;

pub(crate) fn after_nop(schema: &Schema) -> Result<Schema, OpFault>
    ensures { IsAfter schema.now nop result }
{
    Ok(schema.copy()?)
}
