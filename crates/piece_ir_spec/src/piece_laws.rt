ghost use Rattle.std.specs.Prelude.{◌≡◌, ◌↔◌, ℕ, List, None, map};
ghost use Rattle.relations_spec.specs.Sets.{In};
ghost use Rattle.prima_base.specs.declared.refusal.OpKind.{OpKind as Kind};
ghost use Rattle.schema_catalog.specs.Tables.{Tables};
ghost use Rattle.schema_catalog.specs.Databases.{Database};
ghost use Rattle.smo_ops_types.specs.Operators.{Operator};
ghost use Rattle.smo_ops_spec.specs.OneRow.{Row};
ghost use Rattle.smo_ops_spec.specs.After.{op_fault, schema_after};
ghost use Rattle.piece_ir_spec.specs.Pieces.{PlainPiece, means, all_mean, PieceGives};
ghost use Rattle.piece_ir_spec.specs.Typed.{IsTyped};
ghost use Rattle.piece_ir_spec.specs.Views.{Views};
ghost use Rattle.piece_ir_spec.specs.Unfolding.{unfoldings};
ghost use Rattle.piece_ir_spec.specs.Given.{AreViews};
ghost use Rattle.piece_ir_spec.specs.Rules.{Book, KeepsMeaning, IsValidRule, IsValidBook, HasViews};
ghost use Rattle.piece_ir_spec.specs.Rules.{by_views};
ghost use Rattle.piece_ir_spec.specs.Books.{book_of, AreValidRules, HasEachKind, first_missing};

/// A row is in what a piece means just where a choice of one row per atom, which meets the
/// condition, gives it; and it is in what a list of pieces means just where one of them gives it.
pub fn pieces_mean_what_they_give()
    ensures one { (tables : Tables) → (db : Database) → (p : PlainPiece) → (row : Row)
        → In row (means tables db p) ↔ PieceGives tables db p row }
    ensures all { (tables : Tables) → (db : Database) → (ps : List PlainPiece) → (row : Row)
        → In row (all_mean tables db ps)
        ↔ ((p : PlainPiece) × In p ps × PieceGives tables db p row) }
{}

/// Query rewriting by views: a well-typed piece over the tables after an operator, unfolded by
/// views of the tables that the operator makes, means over every database of the tables before what
/// it means over the carried one. Its unfoldings are well-typed over the tables before, with the
/// same output names and types, and each of their atoms is a source table of one of its atoms.
pub fn unfoldings_keep_the_meaning()
    ensures { (tables : Tables) → (op : Operator) → (views : Views) → (p : PlainPiece)
        → op_fault tables op ≡ None → AreViews tables op views
        → IsTyped (schema_after tables op) p → KeepsMeaning tables op p (unfoldings views p) }
{}

/// A rule that unfolds by views of the tables that its operators make is valid.
pub fn rules_by_views_are_valid()
    ensures { (kind : Kind) → (views : Tables → Operator → Views) → HasViews kind views
        → IsValidRule kind (by_views views) }
{}

/// Valid rules, of each kind one, are a valid book; and of each kind there is one where none is
/// missing.
pub fn valid_rules_make_a_valid_book<T>()
    ensures valid { (handles : T → Kind) → (answers : T → Book) → (rules : List T)
        → AreValidRules handles answers rules
        → HasEachKind handles rules → IsValidBook (book_of handles answers rules) }
    ensures each { (handles : T → Kind) → (rules : List T)
        → first_missing (map handles rules) ≡ None → HasEachKind handles rules }
{}
