//! The entries of one column, that the rows are given one after the other.

ghost use Rattle.std.specs.Prelude.{◌≡◌, ◌+◌, ◌≤◌, ◌++◌, ◌∷◌, [], true, length, IfOk};
ghost use Rattle.std.specs.Prelude.{MatchOption};
ghost use Rattle.prima_base.specs.declared.value.Value.{Value as OneValue};
ghost use Rattle.prima_base.specs.declared.value.Val.{Val as OneVal};
ghost use Rattle.history_store.specs.Scans.{seen_cell};
ghost use Rattle.join_exec.specs.Entries.{Has, InTurn};
ghost use Rattle.join_exec.specs.Walking.{left, is_past, IsLeft, BeginsOn, IsHeldUntil};

use crate::cursor::Cursor;
use prima_base::{NoMemory, Steps, Val};
use std::sync::ledger::Ledger;

// Whether the entry that was read last has no moment of a row from this one on, or none was read.
fn is_past(cursor: &Cursor<'_>, id: u64, moment: u64) -> bool
    ensures { MatchOption cursor.now.head (result ≡ true)
        (λ e. result ≡ is_past id moment (seen_cell e)) }
{
    match &cursor.head {
        None => true,
        Some(entry) => entry.id < id || (entry.id == id && entry.period.end() <= moment),
    }
}

// Leaves behind the entries that have no moment of a row from this one on.
fn pass_by<'a, L: Ledger>(cursor: &mut Cursor<'a>, id: u64, moment: u64, steps: &mut Steps<L>)
    requires { InTurn (left cursor.old) }
    ensures left { IsLeft id moment (left cursor.old) (left cursor.new) }
    ensures on { BeginsOn id moment (left cursor.new) }
    ensures first { MatchOption cursor.new.head (left cursor.new ≡ [])
        (λ e. left cursor.new ≡ seen_cell e ∷ cursor.new.unread) }
    ensures cost { steps.new + length cursor.new.unread ≡ steps.old + length cursor.old.unread }
    ensures rises { steps.old ≤ steps.new }
{
    'past: while is_past(cursor, id, moment) {
        cursor.head = cursor.unread.next_cell(steps);
        if cursor.head.is_none() {
            return;
        }
    }
}

/// Puts the value that the row has at the moment after the others, and answers until when the row
/// has it.
pub(crate) fn put_value<'a, L: Ledger>(
    values: &mut Vec<Val<'a>>,
    cursor: &mut Cursor<'a>,
    id: u64,
    moment: u64,
    steps: &mut Steps<L>,
) -> Result<u64, NoMemory>
    requires turn { InTurn (left cursor.old) }
    requires there { (v : OneValue) × Has (left cursor.old) id v moment }
    ensures left { IsLeft id moment (left cursor.old) (left cursor.new) }
    ensures value { IfOk result (λ end. (v : OneVal)
        × (values.new.items ≡ values.old.items ++ v ∷ [])
        × IsHeldUntil (left cursor.old) id moment end v) }
    ensures cost { steps.new + length cursor.new.unread ≡ steps.old + length cursor.old.unread }
    ensures rises { steps.old ≤ steps.new }
{
    pass_by(cursor, id, moment, steps);
    let Some(entry) = &cursor.head else {
        // the row has a value at the moment, as `there` says
        unreachable!();
    };
    values.push(entry.value.copy()?)?;
    Ok(entry.period.end())
}
