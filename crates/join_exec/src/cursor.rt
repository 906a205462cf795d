ghost use Rattle.std.specs.Prelude.{IfSome};
ghost use Rattle.prima_base.specs.Order.{shown, IsBorrowed};
ghost use Rattle.prima_base.specs.Columns.{IsValid};
ghost use Rattle.join_exec.specs.HeadValues.{valid_head_once, borrowed_head_once};

use history_store::{CellEntry, CellScan};

/// The entries of a column that are left: the one that was read last, and those not read so far.
#[derive(Drop)]
pub(crate) struct Cursor<'a> {
    pub(crate) head: Option<CellEntry<'a>>,
    pub(crate) unread: CellScan<'a>,
    pub(crate) ghost valid: { IfSome head (λ e. IsValid (shown e.value)) } by { valid_head_once head },
    pub(crate) ghost borrowed: { IfSome head (λ e. IsBorrowed e.value) } by { borrowed_head_once head },
}
