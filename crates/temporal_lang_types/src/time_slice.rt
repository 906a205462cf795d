ghost use Rattle.std.specs.Prelude.{◌≡◌, ◌<◌};
ghost use Rattle.temporal_lang_types.specs.Queries.{slice_of, IsLasting};

use crate::{Query, When};
use prima_base::Period;

/// The moments that a query asks of: all, the one of AS OF, or those of DURING, which are to be
/// some. It takes no memory.
pub fn slice(query: &Query) -> Period
    requires { IsLasting query.now.when }
    ensures value { result ≡ slice_of query.now.when }
    ensures lasting { result.start < result.end }
{
    match query.when {
        When::Always => Period::from(0),
        When::AsOf(moment) => Period::between(moment, moment + 1),
        When::During(start, end) => Period::between(start, end),
    }
}
