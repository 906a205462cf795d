ghost use Rattle.std.specs.Prelude.{◌≡◌, ℕ, List, [], ◌∷◌, None};
ghost use Rattle.schema_catalog.specs.Tables.{Tables};
ghost use Rattle.schema_catalog.specs.Databases.{Database};
ghost use Rattle.cond_expr.specs.Trees.{Test};
ghost use Rattle.smo_ops_types.specs.Operators.{rename_table, copy_table, drop_table};
ghost use Rattle.smo_ops_types.specs.Operators.{partition_table};
ghost use Rattle.smo_ops_types.specs.Operators.{merge_table};
ghost use Rattle.smo_ops_spec.specs.Losses.{IsDatabaseWithLosses};
ghost use Rattle.smo_ops_spec.specs.After.{op_fault, schema_after, migrate};
ghost use Rattle.smo_ops_spec.specs.Inverses.{inverse_fault};

/// A RENAME TABLE has the one back as an inverse, and the two together give each database back,
/// with its losses.
pub fn renamed_back_is_as_before()
    ensures inverse { (tables : Tables) → (r : List ℕ) → (t : List ℕ)
        → op_fault tables (rename_table r t) ≡ None
        → inverse_fault tables (rename_table r t ∷ []) ((rename_table t r ∷ []) ∷ []) ≡ None }
    ensures database { (tables : Tables) → (r : List ℕ) → (t : List ℕ) → (database : Database)
        → op_fault tables (rename_table r t) ≡ None
        → IsDatabaseWithLosses tables database
        → migrate (schema_after tables (rename_table r t)) (rename_table t r)
        (migrate tables (rename_table r t) database) ≡ database }
{}

/// A COPY TABLE has the DROP TABLE of the copy as an inverse, and the two together give each
/// database back, with its losses.
pub fn copied_and_dropped_is_as_before()
    ensures inverse { (tables : Tables) → (r : List ℕ) → (t : List ℕ)
        → op_fault tables (copy_table r t) ≡ None
        → inverse_fault tables (copy_table r t ∷ []) ((drop_table t ∷ []) ∷ []) ≡ None }
    ensures database { (tables : Tables) → (r : List ℕ) → (t : List ℕ) → (database : Database)
        → op_fault tables (copy_table r t) ≡ None
        → IsDatabaseWithLosses tables database
        → migrate (schema_after tables (copy_table r t)) (drop_table t)
        (migrate tables (copy_table r t) database) ≡ database }
{}

/// A PARTITION TABLE has the MERGE TABLE of its two parts as an inverse, and the two together give
/// each database back, with its losses.
pub fn partitioned_and_merged_is_as_before()
    ensures inverse { (tables : Tables) → (r : List ℕ) → (s : List ℕ) → (c : Test) → (t : List ℕ)
        → op_fault tables (partition_table r s c t) ≡ None
        → inverse_fault tables (partition_table r s c t ∷ []) ((merge_table s t r ∷ []) ∷ []) ≡ None }
    ensures database { (tables : Tables) → (r : List ℕ) → (s : List ℕ) → (c : Test)
        → (t : List ℕ) → (database : Database)
        → op_fault tables (partition_table r s c t) ≡ None → IsDatabaseWithLosses tables database
        → migrate (schema_after tables (partition_table r s c t)) (merge_table s t r)
        (migrate tables (partition_table r s c t) database) ≡ database }
{}
