ghost use Rattle.std.specs.Prelude.{◌≡◌, IfOk, IsOkUnless, IsErrOf, ◌⊎◌, Some, None};
ghost use Rattle.prima_base.specs.declared.refusal.Refusal.{Refusal as OneRefusal};
ghost use Rattle.prima_base.specs.declared.fault.CallFault.TheVariants.{Refused};
ghost use Rattle.prima_base.specs.declared.fault.CallFault.TheVariants.{NoMemory as OutOfMemory};
ghost use Rattle.temporal_lang_types.specs.Queries.{query_of, IsLasting};
ghost use Rattle.temporal_lang_spec.specs.Checking.{query_fault, IsQueryChecked};

use crate::count::check_query_counts;
use crate::name::check_names;
use crate::period::check_periods;
use crate::resolution::resolve_branches;
use crate::type_check::check_typing;
use crate::{Query, QueryFault};
use prima_base::Refusal;
use schema_catalog::Schema;
use std::alloc::Global;
use temporal_lang_types::copy_keeps;

/// The query with each reference made one to an atom, which is the place of its item in its branch;
/// else the first refusal in the one order: what there is too much of (38); then names, branch
/// after branch, of each the tables (22) and the aliases (24) of its items and then its references
/// (22, 23, 24); then types (25), with places counted through all branches; then the first branch
/// whose outputs differ from those of the first (36); then the first period without a moment, the
/// slice before the conditions of KEEP (34). The schema is that of the query's version. A reference
/// that is to an atom already is refused as an unknown column.
pub fn check_query(alloc: Global, schema: &Schema, query: &Query) -> Result<Query, QueryFault>
    ensures checked { IsQueryChecked schema.now (query_of query.now) result }
    ensures accepted { query_fault schema.now (query_of query.now) ≡ None
        → IsOkUnless result OutOfMemory }
    ensures refused { (r : OneRefusal) → query_fault schema.now (query_of query.now) ≡ Some r
        → IsErrOf result (Refused r) ⊎ IsErrOf result OutOfMemory }
    ensures lasting { IfOk result (λ q. IsLasting q.when) }
{
    if let Err((what, limit)) = check_query_counts(query) {
        return Err(QueryFault::Refused(Refusal::TooMany(what, limit)));
    }
    check_names(alloc, schema, &query.branches)?;
    let branches = resolve_branches(alloc, schema, &query.branches)?;
    check_typing(alloc, schema, &branches)?;
    check_periods(query.when, &query.keep)?;
    let keep = copy_keeps(alloc, &query.keep)?;
    Ok(Query {
        version: query.version,
        branches,
        when: query.when,
        keep,
    })
}
