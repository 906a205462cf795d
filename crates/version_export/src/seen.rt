//! What an export asks of an archive.

ghost use Rattle.std.specs.Prelude.{◌≡◌, ◌<◌, ◌≤◌, true, length, MatchOption};
ghost use Rattle.std.specs.FinMap.{contains_key};
ghost use Rattle.relations_spec.specs.Spans.{forever};
ghost use Rattle.smo_ops_spec.specs.Past.{Past as SeenPast, tables_of};
ghost use Rattle.smo_ops_spec.specs.InForce.{begins_at};
ghost use Rattle.smo_ops_spec.specs.ValidPast.{IsPast, last_or_nought};
ghost use Rattle.version_export.specs.Seen.{table_in, IsListed};

use prima_base::{Name, OpKind, TimedRow};
use schema_catalog::Schema;
use std::alloc::{AllocFailed, Global};

/// Why a table's rows cannot be listed in a version.
#[derive(Clone, Copy)]
pub enum SeenFault {
    /// The version whose operator loses the table or a column of it, since it names no inverse and
    /// none is derived from it; and the operator's kind.
    NoInverse(u32, OpKind),
    /// Listing them found no memory.
    NoMemory,
}

/// An archive as an export sees it: its versions, and in each the rows of a table with their
/// longest periods.
pub trait Seen {
    // The past that it shows.
    ghost shows: { Self → SeenPast → Type 0 };

    /// The newest version. Each stamp is before the end of time.
    fn newest(&self) -> u32
        ensures count { (past : SeenPast) → shows self.now past → result ≡ length past.versions }
        ensures valid { (past : SeenPast) → shows self.now past → IsPast past }
        ensures ends { (past : SeenPast) → shows self.now past
            → last_or_nought past.last < forever };

    /// The stamp of a version, which is 0 for version 0: `None` exactly where it is not there. It
    /// takes no memory.
    fn stamp_of(&self, version: u32) -> Option<u64>
        ensures { (past : SeenPast) → shows self.now past
            → MatchOption result (length past.versions < version)
            (λ stamp. (version ≤ length past.versions)
            × (stamp ≡ begins_at past.versions version)) };

    /// The tables of a version: `None` exactly where it is not there. It takes no memory.
    fn schema(&self, version: u32) -> Option<&Schema>
        ensures { (past : SeenPast) → shows self.now past
            → MatchOption result (length past.versions < version)
            (λ tables. (version ≤ length past.versions)
            × (tables.now ≡ tables_of past version)) };

    /// Each row of a table of a version with its longest periods, ascending by row and start.
    /// `NoInverse` exactly where the query over all its columns has a first loss.
    fn listing<'a>(
        &'a self,
        alloc: Global,
        version: u32,
        table: &Name,
    ) -> Result<Vec<TimedRow<'a>>, SeenFault>
        requires version { (past : SeenPast) → shows self.now past
            → version ≤ length past.versions }
        requires there { (past : SeenPast) → shows self.now past
            → contains_key (tables_of past version) table.now ≡ true }
        ensures is { (past : SeenPast) → shows self.now past
            → IsListed past version (table_in past version table.now) result };
}

impl<T: Drop> From<AllocFailed<T>> for SeenFault {
    ghost use Rattle.std.specs.Prelude.{◌≡◌};
    ghost use Rattle.version_export.specs.declared.seen.SeenFault.TheVariants as fault;

    ghost from_gives = { λ _ e. e ≡ fault.NoMemory };

    fn from(_error: AllocFailed<T>) -> SeenFault {
        SeenFault::NoMemory
    }
}
