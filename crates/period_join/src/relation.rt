ghost use Rattle.std.specs.Prelude.{◌≡◌};
ghost use Rattle.period_join.specs.Relations.{relates};

use prima_base::Period;
use temporal_lang_types::Relation;

/// Whether the first period stands in the relation to the second. It takes no memory.
pub(crate) fn relates(relation: Relation, first: Period, second: Period) -> bool
    ensures { result ≡ relates relation first second }
{
    let (start, end) = (first.start(), first.end());
    match relation {
        Relation::Before => end < second.start(),
        Relation::Meets => end == second.start(),
        Relation::Overlaps => {
            start < second.start() && second.start() < end && end < second.end()
        }
        Relation::Contains => start < second.start() && second.end() < end,
        Relation::Equals => start == second.start() && end == second.end(),
    }
}
