//! The columns of a table, by name.

ghost use Rattle.std.specs.Prelude.{◌≡◌, ◌<◌, ℕ, List, [], IfSome, length, option_map};
ghost use Rattle.std.specs.Prelude.{slice_index_or};
ghost use Rattle.history_store.specs.Store.{Cell, named};

use prima_base::{ColType, Name};

/// The place of the column with this name.
pub fn column_place(columns: &[(Name, ColType)], name: &Name) -> Option<usize>
    ensures within { IfSome result (λ k. k < length columns.now) }
    ensures place { (cells : List (List Cell)) → length cells ≡ length columns.now
        → named name.now columns.now cells ≡ option_map (λ k. slice_index_or cells k []) result }
{
    for (k, column) in columns.iter().enumerate() {
        if column.0.cmp(name).is_eq() {
            return Some(k);
        }
    }
    None
}
