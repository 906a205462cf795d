ghost use Rattle.std.specs.Prelude.{◌≡◌, ◌↔◌, ◌≤◌, ◌*◌, ℕ, List, map, length};
ghost use Rattle.relations_spec.specs.Listing.{entry_cmp};
ghost use Rattle.relations_spec.specs.Sets.{In, Ascends};
ghost use Rattle.relations_spec.specs.Timed.{Entry};
ghost use Rattle.prima_base.specs.Order.{row_cmp};
ghost use Rattle.prima_base.specs.declared.timed_row.TimedRow.{TimedRow};
ghost use Rattle.prima_base.specs.declared.value.Value.{Value};
ghost use Rattle.prima_base.specs.Timed.{entries_of};
ghost use Rattle.temporal_lang_types.specs.declared.relation.Relation.{Relation};
ghost use Rattle.period_join.specs.Pairs.{related, place_cmp, IsPair};
ghost use Rattle.period_join.specs.RelatedEntries.{related_entries, entries_at};
ghost use Rattle.period_join.specs.RelatedEntries.{AreRelated};

/// The list of the related pairs has just the pairs of places whose periods are related, and it
/// ascends by the left place, then the right one: so it has each of them once. The entries at these
/// places are the related pairs of entries.
pub fn pairs_are_all()
    ensures members { (relation : Relation) → (left : List TimedRow) → (right : List TimedRow)
        → (pair : ℕ × ℕ) → In pair (related relation left right)
        ↔ IsPair relation left right pair }
    ensures ascends { (relation : Relation) → (left : List TimedRow) → (right : List TimedRow)
        → Ascends place_cmp (related relation left right) }
    ensures entries { (relation : Relation) → (left : List TimedRow) → (right : List TimedRow)
        → (d : TimedRow) → map (entries_at d left right) (related relation left right)
        ≡ related_entries relation (entries_of left) (entries_of right) }
    ensures few { (relation : Relation) → (left : List TimedRow) → (right : List TimedRow)
        → length (related relation left right) ≤ length left * length right }
{}

/// Of two lists of entries that ascend, the related pairs are all pairs of an entry of each whose
/// periods are related, and no others, each once: by the left entry, then the right one.
pub fn related_entries_are_all()
    ensures { (relation : Relation) → (left : List (Entry (List Value)))
        → (right : List (Entry (List Value))) → Ascends (entry_cmp row_cmp) left
        → Ascends (entry_cmp row_cmp) right
        → AreRelated relation left right (related_entries relation left right) }
{}
