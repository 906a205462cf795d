//! The pieces of a table over the version that is in force in one part of a slice.

ghost use Rattle.std.specs.Prelude.{◌≡◌, ◌≤◌, IfOk, length};
ghost use Rattle.std.specs.List.{filter};
ghost use Rattle.smo_ops_spec.specs.Past.{no_tables, tables_from};
ghost use Rattle.version_groups.specs.Groups.{versions_in};
ghost use Rattle.piece_ir_spec.specs.Typed.{AllTyped};
ghost use Rattle.piece_ir.specs.Shown.{shown_pieces};
ghost use Rattle.piece_prune.specs.DeadPieces.{LeavesLiving, lives};
ghost use Rattle.rewrite_rules_book.specs.LivingPieces.{AreKnownToLive};

use piece_ir::{Piece, copy_pieces};
use piece_prune::living;
use prima_base::{NoMemory, Period};
use std::alloc::Global;
use version_groups::Groups;

/// Pieces over the version of a part, none of which is dead.
#[derive(Drop)]
pub(crate) struct PartPieces {
    pub(crate) part: (Period, u32),
    pub(crate) pieces: Vec<Piece>,
}

/// Of the pieces over the version of a part, those that are not dead. Where it is known that none
/// of them is, none is looked at again.
pub(crate) fn part_pieces(
    alloc: Global,
    groups: &Groups,
    part: (Period, u32),
    pieces: &[Piece],
    pruned: bool,
) -> Result<PartPieces, NoMemory>
    requires there { part.1 ≤ length groups.now.versions }
    requires typed { AllTyped (tables_from no_tables (versions_in groups.now) part.1)
        (shown_pieces pieces.now) }
    requires pruned { AreKnownToLive pruned (shown_pieces pieces.now) }
    ensures part { IfOk result (λ x. x.part ≡ part) }
    ensures living { IfOk result (λ x. LeavesLiving
        (tables_from no_tables (versions_in groups.now) part.1) (shown_pieces pieces.now)
        (shown_pieces x.pieces.items)) }
    ensures told { IfOk result (λ x. shown_pieces x.pieces.items
        ≡ filter lives (shown_pieces pieces.now)) }
{
    let copies = copy_pieces(alloc, pieces)?;
    if pruned {
        return Ok(PartPieces {
            part,
            pieces: copies,
        });
    }
    let schema = groups.schema_of(part.1);
    let pieces = living(copies, schema);
    Ok(PartPieces { part, pieces })
}
