//! Laws of lifelines. Each is proved and does nothing.

ghost use Rattle.std.specs.Prelude.{◌≤◌, ℕ, List, None, length};
ghost use Rattle.smo_ops_types.specs.Commands.{PlainVersion};
ghost use Rattle.smo_ops_spec.specs.ValidPast.{AreVersions};
ghost use Rattle.smo_ops_spec.specs.Past.{no_tables, tables_from};
ghost use Rattle.smo_ops_versions_spec.specs.Lifelines.{lifelines_of, HaveTables};

/// Each version has just the tables whose lifelines cover it, each of one lifeline, with the
/// lifeline's columns.
pub fn each_version_has_the_tables_of_its_lifelines()
    ensures { (versions : List PlainVersion) (k : ℕ) → AreVersions None no_tables versions
        → k ≤ length versions
        → HaveTables k (tables_from no_tables versions k) (lifelines_of versions) }
{}
