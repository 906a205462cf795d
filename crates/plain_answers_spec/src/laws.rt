ghost use Rattle.std.specs.Prelude.{◌≡◌, ◌↔◌, ℕ, List, [], ◌∷◌, map};
ghost use Rattle.std.specs.List.{filter};
ghost use Rattle.relations_spec.specs.Sets.{In, Ascends, set_of};
ghost use Rattle.prima_base.specs.Order.{bytes_cmp, row_cmp};
ghost use Rattle.prima_base.specs.Columns.{Column};
ghost use Rattle.schema_catalog.specs.Tables.{Tables};
ghost use Rattle.schema_catalog.specs.Databases.{Database};
ghost use Rattle.cond_expr.specs.declared.expr.ColRef.{ColRef};
ghost use Rattle.cond_expr.specs.Trees.{Tree, Test};
ghost use Rattle.cond_expr.specs.Values.{value};
ghost use Rattle.smo_ops_spec.specs.OneRow.{Row, Relation, own_cells, meets};
ghost use Rattle.plain_answers_spec.specs.Choosing.{answers_over, Gives};
ghost use Rattle.plain_answers_spec.specs.Branches.{PlainBranch, plain, BranchGives};
ghost use Rattle.plain_answers_spec.specs.Naming.{IsNamed, names_at};
ghost use Rattle.plain_answers_spec.specs.Reading.{Read, read_columns, read_rows, AsMany};
ghost use Rattle.plain_answers_spec.specs.Reading.{AreEnough};
ghost use Rattle.plain_answers_spec.specs.Reading.{needed_reads, plain_read};
ghost use Rattle.plain_answers_spec.specs.Pushing.{pushed_reads};

/// A row is among the answers over relations just where a choice of one row of each, which meets
/// the condition, gives it.
pub fn answers_are_given()
    ensures { (columns : List (List Column)) → (relations : List Relation) → (outs : List Tree)
        → (cond : Test) → (row : Row)
        → In row (answers_over columns relations outs cond)
        ↔ Gives columns relations outs cond row }
{}

/// Over one relation the answers are the outputs of each row that meets the condition, the row
/// being that of atom 0.
pub fn one_relation_is_answered_row_by_row()
    ensures { (columns : List Column) → (rows : Relation) → (outs : List Tree) → (cond : Test)
        → answers_over (columns ∷ []) (rows ∷ []) outs cond
        ≡ map (λ row. map (value (own_cells columns row)) outs)
        (filter (meets columns cond) rows) }
{}

/// A row is in the plain answer of branches just where one of them gives it, for a choice of one
/// row per item.
pub fn plain_rows_are_given()
    ensures { (tables : Tables) → (db : Database) → (branches : List PlainBranch) → (row : Row)
        → In row (plain tables branches db) ↔ ((b : PlainBranch) × In b branches
        × BranchGives tables db b row) }
{}

/// The names of the columns of an atom are those of the references to it, ascending, each once.
pub fn columns_are_named_atom_by_atom()
    ensures members { (i : ℕ) → (references : List ColRef) → (name : List ℕ)
        → In name (names_at i references) ↔ IsNamed i references name }
    ensures ascends { (i : ℕ) → (references : List ColRef)
        → Ascends bytes_cmp (names_at i references) }
{}

/// Over selections and projections of relations there are the same answers as over the whole ones,
/// where each selection is a part of the condition, said of its relation, and each projection keeps
/// the columns that are named of it; so are the plain answers of branches. To keep the columns that
/// a branch names, item by item, is enough; and so it is to select by the pushed condition beside
/// it: the AND of the top-level parts that name at least one column, and only columns of the item.
pub fn what_is_named_and_selected_is_enough()
    ensures answers { (columns : List (List Column)) → (relations : List Relation)
        → (outs : List Tree) → (cond : Test) → (reads : List Read)
        → AsMany reads columns → AsMany columns relations → AreEnough 0 reads outs cond
        → set_of row_cmp (answers_over (read_columns reads columns)
        (read_rows reads columns relations) outs cond)
        ≡ set_of row_cmp (answers_over columns relations outs cond) }
    ensures branches { (tables : Tables) → (db : Database) → (branches : List PlainBranch)
        → (reads : PlainBranch → List Read)
        → ((b : PlainBranch) → In b branches → AsMany (reads b) b.from
        × AreEnough 0 (reads b) b.outs b.cond)
        → plain_read tables reads branches db ≡ plain tables branches db }
    ensures needed_reads { (b : PlainBranch) → AsMany (needed_reads b) b.from
        × AreEnough 0 (needed_reads b) b.outs b.cond }
    ensures pushed_cond { (b : PlainBranch) → AsMany (pushed_reads b) b.from
        × AreEnough 0 (pushed_reads b) b.outs b.cond }
{}
