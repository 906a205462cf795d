ghost use Rattle.std.specs.Prelude.{◌≡◌, ◌+◌, ◌≤◌, ◌<◌, ℕ, suc, List, None, IfOk, length};
ghost use Rattle.std.specs.Prelude.{◌-◌, ◌⊎◌, max, not, true, false, get_or};
ghost use Rattle.std.specs.BTreeSet.{contains};
ghost use Rattle.prima_base.specs.Order.{bytes_cmp};
ghost use Rattle.smo_ops_types.specs.declared.version.Version.{Version};
ghost use Rattle.smo_ops_types.specs.Operators.{Operator, operator_of, evolution_of};
ghost use Rattle.smo_ops_types.specs.Operators.{evolutions_of};
ghost use Rattle.smo_ops_types.specs.Commands.{versions_of};
ghost use Rattle.smo_ops_spec.specs.After.{HaveFewNodes, AllHaveFewNodes};
ghost use Rattle.smo_ops_spec.specs.Evolutions.{schema_after_each, evolution_fault};
ghost use Rattle.smo_ops_spec.specs.Inverses.{inverse_fault};
ghost use Rattle.smo_ops_spec.specs.Past.{no_tables, tables_from, newest_from};
ghost use Rattle.smo_ops_spec.specs.ValidPast.{AreVersions};
ghost use Rattle.smo_ops_widths.specs.Widths.{greatest_of, widths_of, widest};
ghost use Rattle.smo_ops_widths.specs.Widths.{widest_with, with_version};
ghost use Rattle.smo_ops_widths.specs.Creating.{creates_one, NameAll};
ghost use Rattle.smo_ops_widths.specs.Dead.{AreDead};
ghost use Rattle.smo_ops_widths.specs.Counted.{stopped};
ghost use Rattle.smo_ops_widths.specs.Shown.{Show};
ghost use Rattle.smo_ops_widths.specs.AtHand.{all_widths};

use crate::dead::go_before;
use crate::measure::greatest;
use crate::names::{creates_one, creates_other, insert_named};
use crate::read_version::widths_ahead;
use crate::way::{carry, go_back};
use crate::widths::{TableWidths, stored_widths};
use prima_base::{Name, NoMemory};
use schema_catalog::Schema;
use smo_ops_operators::{schema_after, tables_at};
use smo_ops_types::{Op, Versions};
use std::alloc::Global;
use std::collections::BTreeSet;

// At this number the measure of what makes a version stops.
const MOST: u64 = 1 << 63;

/// The greatest measure that what makes a version may have.
pub const MAX_MEASURE: u64 = 1_000_000;

// The greatest measure of the tables of the version that the operator makes, read from version
// `stored`.
fn measure_on(
    alloc: Global,
    versions: &Versions,
    op: &Op,
    next: &Schema,
    stored: usize,
) -> Result<u64, NoMemory>
    requires there { stored ≤ length versions.now.list.items }
    requires next { next.now ≡ schema_after_each
        (newest_from no_tables (versions_of versions.now)) (evolution_of op.now) }
    ensures { IfOk result (λ most. (stamp : ℕ) → (inverse : List (List Operator))
        → most ≡ stopped (greatest_of (with_version (versions_of versions.now) stamp
        (evolution_of op.now) inverse) stored (length versions.now.list.items + 1))) }
{
    let last = versions.list.len();
    let mut widths = widths_ahead(alloc, versions, stored, last)?;
    let nothing = Schema::empty(alloc);
    let newest = tables_at(&nothing, versions, last);
    carry(alloc, newest, op, &mut widths)?;
    Ok(greatest(next, &widths))
}

// Whether version `k` has no tables, creates none, or creates one that is not among the names of
// later operators, or one that is dead.
fn is_covered(versions: &Versions, names: &BTreeSet<Name>, dead: &BTreeSet<Name>, k: usize) -> bool
    requires there { k ≤ length versions.now.list.items }
    ensures { result ≡ true → (k ≡ 0) ⊎ ((v : Version) × (k - 1 < length versions.now.list.items)
        × (v ≡ get_or versions.now.list.items (k - 1) v) × (k - 1 + 1 ≡ k)
        × ((creates_one (contains bytes_cmp names.now) (operator_of v.op) ≡ false)
        ⊎ (creates_one (λ n. not (contains bytes_cmp dead.now n)) (operator_of v.op) ≡ false))) }
{
    if k == 0 {
        return true;
    }
    let op = &versions.list[k - 1].op;
    if creates_one(names, op) {
        return !creates_other(dead, op);
    }
    true
}

// The greatest measure of the tables of version `k`, which have these widths, and of the tables of
// the version that the operator makes, read from version `k`. Where it is covered these are left
// out: they are at least as wide where they are read from the version before, and a table that it
// creates is as wide where it is read from the newest version, or nothing is made of it; and where
// there was no table nothing is read.
fn measure_at(
    alloc: Global,
    versions: &Versions,
    op: &Op,
    next: &Schema,
    k: usize,
    widths: &TableWidths,
    names: &BTreeSet<Name>,
    dead: &BTreeSet<Name>,
) -> Result<u64, NoMemory>
    requires there { k < length versions.now.list.items }
    requires versions { AreVersions None no_tables (versions_of versions.now) }
    requires next { next.now ≡ schema_after_each
        (newest_from no_tables (versions_of versions.now)) (evolution_of op.now) }
    ensures { IfOk result (λ more. (stamp : ℕ) → (inverse : List (List Operator))
        → Show (all_widths widths.now) (widths_of (with_version (versions_of versions.now) stamp
        (evolution_of op.now) inverse) (length versions.now.list.items + 1) k)
        → NameAll (contains bytes_cmp names.now) (with_version (versions_of versions.now) stamp
        (evolution_of op.now) inverse) k
        → AreDead (contains bytes_cmp dead.now) (with_version (versions_of versions.now) stamp
        (evolution_of op.now) inverse) k (length versions.now.list.items + 1)
        → (most : ℕ) → stopped (greatest_of (with_version (versions_of versions.now) stamp
        (evolution_of op.now) inverse) (length versions.now.list.items)
        (length versions.now.list.items + 1)) ≤ most
        → stopped (max (max most more) (widest_with (with_version (versions_of versions.now) stamp
        (evolution_of op.now) inverse) (length versions.now.list.items + 1) k))
        ≡ stopped (max most (widest_with (with_version (versions_of versions.now) stamp
        (evolution_of op.now) inverse) (length versions.now.list.items + 1) (suc k)))) }
{
    let nothing = Schema::empty(alloc);
    let back = greatest(tables_at(&nothing, versions, k), widths);
    if is_covered(versions, names, dead, k) {
        return Ok(back);
    }
    let on = measure_on(alloc, versions, op, next, k)?;
    Ok(on.max(back))
}

/// The measure of what makes a version after these, by an operator with its inverse, none where the
/// list is empty: the greatest over the tables of the new version read from an earlier one, and of
/// an earlier version read from the new one, of how many pieces there are times the sum of the
/// greatest number of atoms, the greatest size of a condition, and those of what stands for each
/// column. It stops at 2^63. The operator is accepted on the newest schema, and the inverse leads
/// back.
pub fn widest(alloc: Global, versions: &Versions, op: &Op, inverse: &[Op]) -> Result<u64, NoMemory>
    requires versions { AreVersions None no_tables (versions_of versions.now) }
    requires accepted { evolution_fault (newest_from no_tables (versions_of versions.now))
        (evolution_of op.now) ≡ None }
    requires operator { HaveFewNodes (evolution_of op.now) }
    requires few { AllHaveFewNodes (evolutions_of inverse.now) }
    requires inverse { inverse_fault (newest_from no_tables (versions_of versions.now))
        (evolution_of op.now) (evolutions_of inverse.now) ≡ None }
    ensures { (stamp : ℕ) → IfOk result (λ most. most ≡ widest (with_version
        (versions_of versions.now) stamp (evolution_of op.now) (evolutions_of inverse.now))) }
{
    let nothing = Schema::empty(alloc);
    let mut k = versions.list.len();
    let newest = tables_at(&nothing, versions, k);
    let next = schema_after(alloc, newest, op)?;
    let mut widths = stored_widths(alloc, &next)?;
    go_back(alloc, op, &next, inverse, &mut widths)?;
    let mut names = BTreeSet::new(alloc);
    insert_named(&mut names, op)?;
    let mut dead = BTreeSet::new(alloc);
    go_before(&mut dead, op)?;
    let on = measure_on(alloc, versions, op, &next, k)?;
    let begun = on.max(greatest(newest, &widths));
    let mut most = begun;
    while k > 0 {
        k -= 1;
        let version = &versions.list[k];
        go_back(
            alloc,
            &version.op,
            &version.schema,
            &version.inverse,
            &mut widths,
        )?;
        insert_named(&mut names, &version.op)?;
        go_before(&mut dead, &version.op)?;
        let more = measure_at(alloc, versions, op, &next, k, &widths, &names, &dead)?;
        most = most.max(more);
    }
    Ok(most.min(MOST))
}
