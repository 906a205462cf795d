// The schema after DROP TABLE.
ghost use Rattle.smo_ops_types.specs.Operators.{drop_table};
ghost use Rattle.smo_ops_spec.specs.After.{IsAfter};

use crate::operator::precondition::columns_there;
use prima_base::Name;
use schema_catalog::Schema;
use smo_ops_types::OpFault;

pub(crate) fn after_drop(schema: &Schema, table: &Name) -> Result<Schema, OpFault>
    ensures { IsAfter schema.now (drop_table table.now) result }
{
    columns_there(schema, table)?;
    let next = schema.without(table)?;
    Ok(next)
}
