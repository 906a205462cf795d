//! The vault over a borrowed archive and its book of rules.

ghost use Rattle.std.specs.Prelude.{◌≡◌, ◌<◌, IfOk};
ghost use Rattle.smo_ops_spec.specs.Past.{Past};
ghost use Rattle.temporal_lang_types.specs.Queries.{query_of};
ghost use Rattle.archive_core.specs.State.{RepresentsPast, RepresentsSome};
ghost use Rattle.archive_core.specs.State.{IsAsked, IsKeptOfList};
ghost use Rattle.archive_core.specs.Fields.{standing_of, below, is_broken};
ghost use Rattle.script_cli_vault.specs.Shown.{Shows, IsGiven, need_of};

use crate::answer::answer_of;
use crate::kept_row::kept_rows;
use archive_core::{Archive, AskFault, Listing, Rule, RuleBook};
use disk_model::Disk;
use prima_base::Steps;
use prima_base_counter::fresh_steps;
use sessions::{KeptRow, Vault, VaultDone, VaultFault};
use smo_ops_types::Command;
use std::alloc::Global;
use std::marker::Brand;
use std::sync::ledger::{Blank, Ledger};
use temporal_lang_types::Query;

/// What sessions share: an archive on a disk, and the book of rules by which its queries are
/// answered.
#[derive(Drop)]
pub struct ArchiveVault<'a, D: Disk, R: Rule> {
    pub alloc: Global,
    pub archive: &'a mut Archive<D>,
    pub book: &'a RuleBook<R>,
}

/// What the archive answers to a query, with a counter of the ledger.
pub fn ask_counted<'a, D: Disk, L: Ledger, R: Rule>(
    archive: &'a Archive<D>,
    book: &RuleBook<R>,
    query: &Query,
    blank: Blank,
) -> Result<Listing<'a>, AskFault>
    requires name { blank.name ≡ L.name }
    requires parts { blank.parts ≡ L.parts }
    requires some { 0 < blank.parts }
    ensures asked { (past : Past) → RepresentsPast (standing_of archive.now) past
        → IsAsked past (query_of query.now) result }
    ensures listed { (past : Past) → RepresentsPast (standing_of archive.now) past
        → IfOk result (λ listing. IsKeptOfList past (query_of query.now) listing) }
    ensures represents { RepresentsSome (standing_of archive.now) }
{
    let mut steps: Steps<L> = fresh_steps(blank);
    archive.query(book, query, &mut steps)
}

impl<D: Disk, R: Rule> Vault for ArchiveVault<'_, D, R> {
    ghost shows = { λ vault shared. Shows vault.archive.now shared };

    ghost needs = { need_of };

    ghost is_broken = { λ vault. is_broken vault.archive.now };

    ghost faults = { λ vault. (below vault.archive.now).faults };

    // what became of the disk, and that the same archive and book are borrowed still
    ghost commits = { λ old command result new.
        IsGiven old.archive.now new.archive.now command result
        × (new.archive.ghost_name ≡ old.archive.ghost_name) × (new.book ≡ old.book) };

    fn newest(&self) -> u32 {
        self.archive.groups().newest()
    }

    fn commit(&mut self, command: Command) -> Result<VaultDone, VaultFault> {
        answer_of(self.archive.commit(command))
    }

    fn listing(&self, query: &Query) -> Result<Vec<KeptRow>, VaultFault> {
        match ask_counted::<D, Brand, R>(self.archive, self.book, query, Blank::new(1)) {
            Ok(listing) => Ok(kept_rows(self.alloc, &listing.rows)?),
            Err(AskFault::Refused(refusal)) => Err(VaultFault::Refused(refusal)),
            Err(AskFault::NoMemory) => Err(VaultFault::NoMemory),
        }
    }
}
