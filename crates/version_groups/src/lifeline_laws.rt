//! Laws of the lifelines that the operators of versions give.

ghost use Rattle.std.specs.Prelude.{◌≡◌, ◌≤◌, ◌*◌, ℕ, List, None, is_some, length, map};
ghost use Rattle.std.specs.FinMap.{get};
ghost use Rattle.relations_spec.specs.Sets.{In};
ghost use Rattle.prima_base.specs.Limits.{max_versions};
ghost use Rattle.smo_ops_types.specs.Commands.{PlainVersion};
ghost use Rattle.smo_ops_spec.specs.Evolutions.{members_of_all};
ghost use Rattle.smo_ops_spec.specs.ValidPast.{AreVersions};
ghost use Rattle.smo_ops_spec.specs.Past.{Past, no_tables, tables_from};
ghost use Rattle.version_groups.specs.Groups.{Kept};
ghost use Rattle.version_groups.specs.Lifelines.{Lifeline, lifelines_of, place_in};
ghost use Rattle.version_groups.specs.LongestRuns.{IsLongest};
ghost use Rattle.version_groups.specs.Representation.{Represents};

/// A lifeline is a longest run of versions in which no member of an operator makes or consumes the
/// table: it is made with the first, is there in each, and where the run ends a member of the next
/// operator consumes it.
/// Each table of each version has a lifeline that covers the version.
pub fn lifelines_are_longest_runs()
    ensures runs { (versions : List PlainVersion) (l : Lifeline)
        → AreVersions None no_tables versions → In l (lifelines_of versions)
        → IsLongest versions l }
    ensures tables { (versions : List PlainVersion) (k : ℕ) (name : List ℕ)
        → AreVersions None no_tables versions → k ≤ length versions
        → is_some (place_in versions k name)
        ≡ is_some (get (tables_from no_tables versions k) name) }
{}

/// Each version begins at most two lifelines for each member of its operator, since a member makes
/// at most two tables. Each version that groups keep has an operator of one member, so there are at
/// most 1,024.
pub fn lifelines_are_few()
    ensures versions { (versions : List PlainVersion)
        → length (lifelines_of versions)
        ≤ 2 * length (members_of_all (map (λ v. v.op) versions)) }
    ensures sizes { (kept : Kept) (past : Past) → Represents kept past
        → length past.sizes ≤ 2 * max_versions }
{}
