//! What is lost on the way back over the versions.

ghost use Rattle.std.specs.Prelude.{◌≡◌, ◌-◌, ◌<◌, ◌≤◌, None, IfOk, OnOk, vec_len};
ghost use Rattle.smo_ops_types.specs.Commands.{versions_of};
ghost use Rattle.smo_ops_spec.specs.Past.{no_tables, tables_from};
ghost use Rattle.smo_ops_spec.specs.ValidPast.{AreVersions};
ghost use Rattle.smo_ops_versions_spec.specs.Steps.{taken};
ghost use Rattle.smo_ops_versions_spec.specs.Ways.{from_next};
ghost use Rattle.smo_ops_versions_spec.specs.LostNames.{losses_stepped, lost_names};

use crate::losses::Losses;
use crate::operator_back::lose_back;
use prima_base::NoMemory;
use schema_catalog::Schema;
use smo_ops_operators::tables_at;
use smo_ops_types::Versions;
use std::alloc::Global;

// Back over the version with this number.
fn lose_version(
    alloc: Global,
    versions: &Versions,
    number: u32,
    losses: &mut Losses,
) -> Result<(), NoMemory>
    requires first { 0 < number }
    requires there { number ≤ vec_len versions.now.list }
    requires versions { AreVersions None no_tables (versions_of versions.now) }
    ensures { OnOk result (losses.new ≡ taken losses_stepped
        (from_next (versions_of versions.now) (number - 1)) losses.old) }
{
    let k = (number - 1) as usize;
    let version = &versions.list[k];
    let nothing = Schema::empty(alloc);
    let before = tables_at(&nothing, versions, k);
    lose_back(
        alloc,
        number,
        before,
        &version.schema,
        &version.op,
        &version.inverse,
        losses,
    )
}

/// What is lost on the way back from version `stored` to version `asked`.
pub(crate) fn lost_names(
    alloc: Global,
    versions: &Versions,
    stored: u32,
    asked: u32,
) -> Result<Losses, NoMemory>
    requires order { asked ≤ stored }
    requires there { stored ≤ vec_len versions.now.list }
    requires versions { AreVersions None no_tables (versions_of versions.now) }
    ensures { IfOk result (λ l. l ≡ lost_names (versions_of versions.now) stored asked) }
{
    let mut losses = Losses::new(alloc);
    let mut k = stored;
    while k > asked {
        lose_version(alloc, versions, k, &mut losses)?;
        k -= 1;
    }
    Ok(losses)
}
