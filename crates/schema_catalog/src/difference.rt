ghost use Rattle.std.specs.Prelude.{◌≡◌, ◌↔◌, IsTrue, T};
ghost use Rattle.std.specs.FinMap.{is_sorted};
ghost use Rattle.std.specs.Option.{option_copied};
ghost use Rattle.prima_base.specs.Order.{bytes_cmp};
ghost use Rattle.schema_catalog.specs.Differences.{IsSame, IsDifference};

use crate::schema::Schema;
use crate::table::SharedTable;
use prima_base::{ColType, Name, NoMemory};
use std::cmp::Ordering;

/// Why two schemas are not the same, or it is not known.
#[derive(Drop)]
pub enum SameFault {
    /// The first name, in name order, that is a table of one of them alone or has other columns
    /// there.
    Differs(Name),
    /// Memory ran out.
    NoMemory,
}

impl From<NoMemory> for SameFault {
    ghost use Rattle.std.specs.Prelude.{◌≡◌};
    ghost use Rattle.schema_catalog.specs.declared.difference.SameFault.TheVariants as fault;

    ghost from_gives = { λ _ e. e ≡ fault.NoMemory };

    fn from(_error: NoMemory) -> SameFault {
        SameFault::NoMemory
    }
}

fn same_columns(a: &[(Name, ColType)], b: &[(Name, ColType)]) -> bool
    ensures { IsTrue result ↔ (a.now ≡ b.now) }
{
    a == b
}

// The first name, in name order, under which tables in the order of their names differ from others.
fn first_difference<'a>(tables: &'a [SharedTable], others: &'a [SharedTable]) -> Option<&'a Name>
    requires tables { T (is_sorted bytes_cmp tables.now) }
    requires others { T (is_sorted bytes_cmp others.now) }
    ensures { IsDifference tables.now others.now (option_copied result) }
{
    for (i, table) in tables.iter().enumerate() {
        let Some(other) = others.get(i) else {
            return Some(table.name());
        };
        match table.name().cmp(other.name()) {
            Ordering::Less => return Some(table.name()),
            Ordering::Greater => return Some(other.name()),
            Ordering::Equal => {}
        }
        if !same_columns(table.columns(), other.columns()) {
            return Some(table.name());
        }
    }
    match others.get(tables.len()) {
        Some(other) => Some(other.name()),
        None => None,
    }
}

/// Whether two schemas have the same tables, each with the same columns. `Differs` has the first
/// name, in name order, that is a table of one of them alone or has other columns there; `NoMemory`
/// where memory runs out.
pub fn same(a: &Schema, b: &Schema) -> Result<(), SameFault>
    ensures { IsSame a.now b.now result }
{
    match first_difference(a.tables(), b.tables()) {
        Some(name) => Err(SameFault::Differs(name.copy()?)),
        None => Ok(()),
    }
}
