ghost use Rattle.std.specs.Prelude.{◌≡◌, ◌+◌, ◌<◌, ◌≤◌, ℕ, List, [], ◌∷◌, None, Some, true, false};
ghost use Rattle.std.specs.Prelude.{slice_get};
ghost use Rattle.std.specs.Option.{option_or};
ghost use Rattle.std.specs.FinMap.{get, empty};
ghost use Rattle.relations_spec.specs.Sets.{In};
ghost use Rattle.prima_base.specs.Columns.{Column, names_of};
ghost use Rattle.schema_catalog.specs.Tables.{Tables, columns_of};
ghost use Rattle.cond_expr.specs.Trees.{Tree, Test};
ghost use Rattle.cond_expr.specs.Faults.{references, test_references};
ghost use Rattle.smo_ops_types.specs.Operators.{Operator, partition_table, join_table};
ghost use Rattle.smo_ops_types.specs.Operators.{add_column, rename_column};
ghost use Rattle.smo_ops_types.specs.Commands.{PlainVersion};
ghost use Rattle.smo_ops_spec.specs.OneRow.{same};
ghost use Rattle.smo_ops_spec.specs.Making.{common_names};
ghost use Rattle.smo_ops_spec.specs.Touching.{makes, consumes, made_of};
ghost use Rattle.smo_ops_spec.specs.Losses.{Loss, first_loss};
ghost use Rattle.smo_ops_spec.specs.After.{schema_after};
ghost use Rattle.smo_ops_spec.specs.Evolutions.{members_of_all};
ghost use Rattle.smo_ops_spec.specs.Past.{no_tables, tables_from};
ghost use Rattle.smo_ops_spec.specs.WaysBack.{FilledColumn, by_inverse, by_filling, no_way};
ghost use Rattle.smo_ops_spec.specs.WaysBack.{way_back_over};
ghost use Rattle.smo_ops_versions_spec.specs.Steps.{carrying_each, taken};
ghost use Rattle.smo_ops_versions_spec.specs.Ways.{step_back, back_over_members};
ghost use Rattle.smo_ops_versions_spec.specs.Ways.{to_next, from_next};
ghost use Rattle.smo_ops_versions_spec.specs.ColumnLosses.{Losses, table_loss, column_loss};
ghost use Rattle.smo_ops_versions_spec.specs.LostNames.{first_named, rows_lost, gives_column};
ghost use Rattle.smo_ops_versions_spec.specs.LostNames.{losses_over, losses_filled, losses_undone};
ghost use Rattle.smo_ops_versions_spec.specs.LostNames.{losses_stepped, lost_names};

/// What is lost for queries on the way from version to version, one step at a time: where one
/// stands nothing is, and a way that is one step longer loses what that step makes of the losses
/// before it. Such a step, at the version number `k + 1`, is one over the members of that version's
/// operator, first to last; or back from it, over the members of the operators of its named inverse,
/// first to last; and where none is named, back over the members of its operator, last to first:
/// over the derived inverse of a member, over the filling of the column that was dropped, or back
/// over a member with no way back. The loss of the last two is by that member: `(k + 1, 1)` by the
/// first member of version `k + 1`, `(k + 1, 2)` by the next.
pub fn losses_by_name_are_step_by_step()
    ensures stays { (versions : List PlainVersion) → (v : ℕ) → lost_names versions v v ≡ empty }
    ensures forward { (versions : List PlainVersion) → (v : ℕ) → (q : ℕ) → v ≤ q
        → lost_names versions v (q + 1)
        ≡ taken losses_stepped (to_next versions q) (lost_names versions v q) }
    ensures back { (versions : List PlainVersion) → (v : ℕ) → (q : ℕ) → q < v
        → lost_names versions v q
        ≡ taken losses_stepped (from_next versions q) (lost_names versions v (q + 1)) }
    ensures over { (versions : List PlainVersion) → (k : ℕ) → (v : PlainVersion)
        → (losses : Losses) → slice_get versions k ≡ Some v
        → taken losses_stepped (to_next versions k) losses
        ≡ taken losses_stepped (carrying_each (tables_from no_tables versions k) v.op) losses }
    ensures over_none { (tables : Tables) → (losses : Losses)
        → taken losses_stepped (carrying_each tables []) losses ≡ losses }
    ensures over_each { (tables : Tables) → (op : Operator) → (ops : List Operator)
        → (losses : Losses) → taken losses_stepped (carrying_each tables (op ∷ ops)) losses
        ≡ taken losses_stepped (carrying_each (schema_after tables op) ops)
        (losses_over tables op losses) }
    ensures named { (versions : List PlainVersion) → (k : ℕ) → (v : PlainVersion)
        → (losses : Losses) → (op : List Operator) → (rest : List (List Operator))
        → slice_get versions k ≡ Some v → v.inverse ≡ op ∷ rest
        → taken losses_stepped (from_next versions k) losses
        ≡ taken losses_stepped (carrying_each v.tables (members_of_all v.inverse)) losses }
    ensures unnamed { (versions : List PlainVersion) → (k : ℕ) → (v : PlainVersion)
        → (losses : Losses) → slice_get versions k ≡ Some v → v.inverse ≡ []
        → taken losses_stepped (from_next versions k) losses
        ≡ taken losses_stepped
        (back_over_members (k + 1) 1 (tables_from no_tables versions k) v.op) losses }
    ensures back_none { (k : ℕ) → (i : ℕ) → (before : Tables) → (losses : Losses)
        → taken losses_stepped (back_over_members k i before []) losses ≡ losses }
    ensures back_each { (k : ℕ) → (i : ℕ) → (before : Tables) → (op : Operator)
        → (ops : List Operator) → (losses : Losses)
        → taken losses_stepped (back_over_members k i before (op ∷ ops)) losses
        ≡ losses_stepped (step_back (k, i) before op)
        (taken losses_stepped (back_over_members k (i + 1) (schema_after before op) ops) losses) }
    ensures derived { (loss : Loss) → (before : Tables) → (op : Operator) → (losses : Losses)
        → (inverse : Operator) → way_back_over before op ≡ by_inverse inverse
        → losses_stepped (step_back loss before op) losses
        ≡ losses_over (schema_after before op) inverse losses }
    ensures filled { (loss : Loss) → (before : Tables) → (op : Operator) → (losses : Losses)
        → (f : FilledColumn) → way_back_over before op ≡ by_filling f
        → losses_stepped (step_back loss before op) losses ≡ losses_filled loss f losses }
    ensures undone { (loss : Loss) → (before : Tables) → (op : Operator) → (losses : Losses)
        → way_back_over before op ≡ no_way
        → losses_stepped (step_back loss before op) losses ≡ losses_undone loss before op losses }
{}

/// Over an operator a table that it makes is lost by the first of four rules that applies: an input
/// is lost, and the first lost one decides; it is a PARTITION whose condition names a lost column,
/// by the first such column in written order; it is a JOIN, and a common column is lost in an
/// input, by the first such column in name order, and where both have lost it, by the first input;
/// it is a JOIN whose condition names a lost column, by the first such column in written order,
/// each looked up in the first input and then in the second. Else it is not lost. A table that was
/// consumed and not made has no loss, nor has a column of it, and all others stay.
pub fn made_tables_are_lost_by_rules()
    ensures input { (tables : Tables) → (op : Operator) → (losses : Losses) → (n : List ℕ)
        → (loss : Loss) → makes tables op n ≡ true
        → first_loss (table_loss losses) (made_of op) ≡ Some loss
        → table_loss (losses_over tables op losses) n ≡ Some loss }
    ensures partition { (tables : Tables) → (r : List ℕ) → (s : List ℕ) → (c : Test)
        → (t : List ℕ) → (losses : Losses) → (n : List ℕ) → (loss : Loss)
        → makes tables (partition_table r s c t) n ≡ true → table_loss losses r ≡ None
        → first_named (column_loss losses r) (test_references c) ≡ Some loss
        → table_loss (losses_over tables (partition_table r s c t) losses) n ≡ Some loss }
    ensures common { (tables : Tables) → (r : List ℕ) → (s : List ℕ) → (t : List ℕ) → (c : Test)
        → (losses : Losses) → (loss : Loss)
        → table_loss losses r ≡ None → table_loss losses s ≡ None
        → first_loss (λ n. option_or (column_loss losses r n) (column_loss losses s n))
        (common_names (columns_of tables r) (columns_of tables s)) ≡ Some loss
        → table_loss (losses_over tables (join_table r s t c) losses) t ≡ Some loss }
    ensures condition { (tables : Tables) → (r : List ℕ) → (s : List ℕ) → (t : List ℕ)
        → (c : Test) → (losses : Losses) → (loss : Loss)
        → table_loss losses r ≡ None → table_loss losses s ≡ None
        → first_loss (λ n. option_or (column_loss losses r n) (column_loss losses s n))
        (common_names (columns_of tables r) (columns_of tables s)) ≡ None
        → first_named (λ n. option_or (column_loss losses r n) (column_loss losses s n))
        (test_references c) ≡ Some loss
        → table_loss (losses_over tables (join_table r s t c) losses) t ≡ Some loss }
    ensures else_kept { (tables : Tables) → (op : Operator) → (losses : Losses) → (n : List ℕ)
        → makes tables op n ≡ true
        → first_loss (table_loss losses) (made_of op) ≡ None → rows_lost tables op losses ≡ None
        → table_loss (losses_over tables op losses) n ≡ None }
    ensures gone { (tables : Tables) → (op : Operator) → (losses : Losses) → (n : List ℕ)
        → makes tables op n ≡ false → consumes tables op n ≡ true
        → get (losses_over tables op losses) n ≡ None }
    ensures others { (tables : Tables) → (op : Operator) → (losses : Losses) → (n : List ℕ)
        → makes tables op n ≡ false → consumes tables op n ≡ false
        → get (losses_over tables op losses) n ≡ get losses n }
{}

/// A column of a made table that is not lost itself is lost where an input has lost it, by the
/// first such input. The new column of an ADD COLUMN is lost where its expression names a lost column, by
/// the first such column in written order, and a renamed one as the old one was.
pub fn made_columns_are_lost_by_rules()
    ensures column { (tables : Tables) → (op : Operator) → (losses : Losses) → (n : List ℕ)
        → (columns : List Column) → (c : List ℕ)
        → makes tables op n ≡ true → get (schema_after tables op) n ≡ Some columns
        → In c (names_of columns)
        → first_loss (table_loss losses) (made_of op) ≡ None → rows_lost tables op losses ≡ None
        → gives_column op c ≡ false
        → column_loss (losses_over tables op losses) n c
        ≡ first_loss (λ r. column_loss losses r c) (made_of op) }
    ensures added { (tables : Tables) → (c : List ℕ) → (e : Tree) → (r : List ℕ)
        → (losses : Losses) → (columns : List Column)
        → get (schema_after tables (add_column c e r)) r ≡ Some columns → In c (names_of columns)
        → table_loss losses r ≡ None
        → column_loss (losses_over tables (add_column c e r) losses) r c
        ≡ first_named (column_loss losses r) (references e) }
    ensures renamed { (tables : Tables) → (b : List ℕ) → (r : List ℕ) → (c : List ℕ)
        → (losses : Losses) → (columns : List Column)
        → get (schema_after tables (rename_column b r c)) r ≡ Some columns
        → In c (names_of columns) → table_loss losses r ≡ None
        → column_loss (losses_over tables (rename_column b r c) losses) r c
        ≡ column_loss losses r b }
{}

/// Over the filling of a dropped column the column has the loss of its DROP COLUMN, and all else
/// stays; where the table itself is lost, everything stays. Back over an operator with no way back
/// what it consumed is lost by its version, what it made and did not consume has no loss, and all
/// else stays.
pub fn steps_back_lose_what_is_not_there()
    ensures filled { (f : FilledColumn) → (loss : Loss) → (losses : Losses)
        → table_loss losses f.table ≡ None
        → column_loss (losses_filled loss f losses) f.table f.name ≡ Some loss }
    ensures filled_whole { (f : FilledColumn) → (loss : Loss) → (losses : Losses)
        → table_loss losses f.table ≡ None
        → table_loss (losses_filled loss f losses) f.table ≡ None }
    ensures filled_columns { (f : FilledColumn) → (loss : Loss) → (losses : Losses) → (c : List ℕ)
        → table_loss losses f.table ≡ None → same c f.name ≡ false
        → column_loss (losses_filled loss f losses) f.table c ≡ column_loss losses f.table c }
    ensures filled_others { (f : FilledColumn) → (loss : Loss) → (losses : Losses) → (n : List ℕ)
        → same n f.table ≡ false → get (losses_filled loss f losses) n ≡ get losses n }
    ensures filled_lost { (f : FilledColumn) → (loss : Loss) → (losses : Losses) → (whole : Loss)
        → table_loss losses f.table ≡ Some whole → losses_filled loss f losses ≡ losses }
    ensures undone { (before : Tables) → (op : Operator) → (loss : Loss) → (losses : Losses)
        → (n : List ℕ) → consumes before op n ≡ true
        → table_loss (losses_undone loss before op losses) n ≡ Some loss }
    ensures undone_gone { (before : Tables) → (op : Operator) → (loss : Loss) → (losses : Losses)
        → (n : List ℕ) → makes before op n ≡ true → consumes before op n ≡ false
        → get (losses_undone loss before op losses) n ≡ None }
    ensures undone_others { (before : Tables) → (op : Operator) → (loss : Loss)
        → (losses : Losses) → (n : List ℕ)
        → makes before op n ≡ false → consumes before op n ≡ false
        → get (losses_undone loss before op losses) n ≡ get losses n }
{}
