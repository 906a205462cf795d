ghost use Rattle.std.specs.Prelude.{◌≡◌, ◌+◌, ◌<◌, ◌≤◌, ℕ, List, [], ◌∷◌, Option, None};
ghost use Rattle.std.specs.FinMap.{get};
ghost use Rattle.relations_spec.specs.Sets.{In};
ghost use Rattle.prima_base.specs.declared.value.ColType.{ColType};
ghost use Rattle.schema_catalog.specs.Tables.{Tables};
ghost use Rattle.schema_catalog.specs.Databases.{Database};
ghost use Rattle.smo_ops_types.specs.Commands.{PlainVersion, PlainCommand};
ghost use Rattle.smo_ops_spec.specs.Effects.{columns_of, rows_under};
ghost use Rattle.smo_ops_spec.specs.Past.{Past, past_with, no_tables, tables_from, tables_of};
ghost use Rattle.smo_ops_spec.specs.Past.{version_at};
ghost use Rattle.smo_ops_spec.specs.History.{past_of};
ghost use Rattle.smo_ops_spec.specs.ValidPast.{AreVersions, IsPast};
ghost use Rattle.smo_ops_spec.specs.ValidValues.{BodyHolds, CommandsHold, EachHolds};
ghost use Rattle.smo_ops_versions_spec.specs.Migration.{migrated_from, migrated};
ghost use Rattle.smo_ops_versions_spec.specs.LostTables.{lost_tables};
ghost use Rattle.plain_answers_spec.specs.Branches.{Item, PlainBranch, plain};
ghost use Rattle.plain_answers_spec.specs.Reading.{Read, read_of};
ghost use Rattle.piece_ir_spec.specs.Pieces.{PlainPiece, all_mean};
ghost use Rattle.piece_ir_spec.specs.Typed.{AllTyped, output_types};
ghost use Rattle.piece_ir_spec.specs.Constants.{ValidInTest, ValidInPieces, ValidInVersions};
ghost use Rattle.piece_ir_spec.specs.Constants.{ValidInEvolution, ValidInEvolutions};
ghost use Rattle.piece_ir_spec.specs.Rules.{Book, IsValidBook, IsValidDatabase};
ghost use Rattle.piece_ir_spec.specs.Chains.{to_previous, to_next, unfolded_to, NoneNamed};
ghost use Rattle.smo_ops_spec.specs.ValidValues.{VersionsHold};
ghost use Rattle.piece_ir_spec.specs.Beginnings.{IsQuestion, first_piece};
ghost use Rattle.piece_ir_spec.specs.UnfoldedPieces.{MayBeAsked, StandFor};
ghost use Rattle.piece_ir_spec.specs.Reading.{Suffices, asked_by_pieces};

/// What is lost by names on the way back to a version is lost on the way from each later version
/// too; and forward nothing is lost.
pub fn what_is_lost_stays_lost()
    ensures back { (versions : List PlainVersion) → (w : ℕ) → (v : ℕ) → (q : ℕ) → (n : List ℕ)
        → q ≤ v → v ≤ w
        → get (lost_tables versions w q) n ≡ None → get (lost_tables versions v q) n ≡ None }
    ensures forward { (versions : List PlainVersion) → (v : ℕ) → (q : ℕ) → (n : List ℕ) → v ≤ q
        → get (lost_tables versions v q) n ≡ None }
{}

/// The way of pieces, one version at a time: at their own version they stay, and each further
/// version has them from its neighbour on the way.
pub fn the_way_of_pieces_is_step_by_step()
    ensures stays { (book : Book) → (versions : List PlainVersion) → (q : ℕ)
        → (ps : List PlainPiece) → unfolded_to book versions q q ps ≡ ps }
    ensures next { (book : Book) → (versions : List PlainVersion) → (v : ℕ) → (q : ℕ)
        → (ps : List PlainPiece) → q ≤ v
        → unfolded_to book versions (v + 1) q ps
        ≡ to_next book versions v (unfolded_to book versions v q ps) }
    ensures previous { (book : Book) → (versions : List PlainVersion) → (v : ℕ) → (q : ℕ)
        → (ps : List PlainPiece) → v < q
        → unfolded_to book versions v q ps ≡ to_previous book versions v
        (unfolded_to book versions (v + 1) q ps) }
{}

/// Versions whose commands have valid constants have them, and so have those of a history: the
/// constants that come into rows, and all of them.
pub fn versions_hold_valid_constants()
    ensures step { (past : Past) → (command : PlainCommand) → VersionsHold past.versions
        → BodyHolds command.body → VersionsHold (past_with past command).versions }
    ensures history { (commands : List PlainCommand) → CommandsHold commands
        → VersionsHold (past_of commands).versions }
    ensures step_of_all { (past : Past) → (command : PlainCommand) → ValidInVersions past.versions
        → ValidInEvolution command.body
        → ValidInVersions (past_with past command).versions }
    ensures history_of_all { (commands : List PlainCommand) → ValidInEvolutions commands
        → ValidInVersions (past_of commands).versions }
{}

/// Pieces over version q, none of whose tables is lost by names on the way from version v, are
/// taken to version v by any book of valid rules: over every valid database of version v they mean
/// there what the pieces mean over that database migrated to version q; they are well-typed there,
/// and have the same names and types of outputs. Where the constants of the versions' operators and
/// named inverses are valid, and those of the pieces, so are theirs there: a derived operator has
/// none of its own, and a filling has 0 or the empty text.
pub fn pieces_are_taken_along()
    ensures means { (book : Book) → IsValidBook book → (versions : List PlainVersion)
        → AreVersions None no_tables versions → VersionsHold versions
        → (v : ℕ) → (q : ℕ) → (ps : List PlainPiece)
        → AllTyped (tables_from no_tables versions q) ps
        → NoneNamed (lost_tables versions v q) ps
        → (db : Database) → IsValidDatabase (tables_from no_tables versions v) db
        → all_mean (tables_from no_tables versions v) db (unfolded_to book versions v q ps)
        ≡ all_mean (tables_from no_tables versions q) (migrated_from versions v q db) ps }
    ensures typed { (book : Book) → IsValidBook book → (versions : List PlainVersion)
        → AreVersions None no_tables versions
        → (v : ℕ) → (q : ℕ) → (ps : List PlainPiece)
        → AllTyped (tables_from no_tables versions q) ps
        → NoneNamed (lost_tables versions v q) ps
        → AllTyped (tables_from no_tables versions v) (unfolded_to book versions v q ps) }
    ensures outputs { (book : Book) → IsValidBook book → (versions : List PlainVersion)
        → AreVersions None no_tables versions
        → (v : ℕ) → (q : ℕ) → (ps : List PlainPiece)
        → AllTyped (tables_from no_tables versions q) ps
        → NoneNamed (lost_tables versions v q) ps
        → (outs : List (List ℕ × Option ColType))
        → ((p : PlainPiece) → In p ps → output_types (tables_from no_tables versions q) p
        ≡ outs)
        → (p : PlainPiece) → In p (unfolded_to book versions v q ps)
        → output_types (tables_from no_tables versions v) p ≡ outs }
    ensures constants { (book : Book) → IsValidBook book → (versions : List PlainVersion)
        → AreVersions None no_tables versions → ValidInVersions versions
        → (v : ℕ) → (q : ℕ) → (ps : List PlainPiece)
        → AllTyped (tables_from no_tables versions q) ps
        → NoneNamed (lost_tables versions v q) ps
        → ValidInPieces ps → ValidInPieces (unfolded_to book versions v q ps) }
{}

/// The pieces of one table, unfolded to version v: over each of its valid databases they mean the
/// selection and projection of the migrated table; and they are well-typed there. Their constants
/// are valid where those of the versions and of the condition are.
pub fn the_pieces_of_a_table()
    ensures means { (book : Book) → IsValidBook book → (versions : List PlainVersion)
        → AreVersions None no_tables versions → VersionsHold versions
        → (v : ℕ) → (q : ℕ) → (table : List ℕ) → (r : Read)
        → IsQuestion (tables_from no_tables versions q) table r
        → get (lost_tables versions v q) table ≡ None
        → (db : Database) → IsValidDatabase (tables_from no_tables versions v) db
        → all_mean (tables_from no_tables versions v) db
        (unfolded_to book versions v q (first_piece table r ∷ []))
        ≡ read_of r (columns_of (tables_from no_tables versions q) table)
        (rows_under (get (migrated_from versions v q db) table)) }
    ensures typed { (book : Book) → IsValidBook book → (versions : List PlainVersion)
        → AreVersions None no_tables versions
        → (v : ℕ) → (q : ℕ) → (table : List ℕ) → (r : Read)
        → IsQuestion (tables_from no_tables versions q) table r
        → get (lost_tables versions v q) table ≡ None
        → AllTyped (tables_from no_tables versions v)
        (unfolded_to book versions v q (first_piece table r ∷ [])) }
    ensures outputs { (book : Book) → IsValidBook book → (versions : List PlainVersion)
        → AreVersions None no_tables versions
        → (v : ℕ) → (q : ℕ) → (table : List ℕ) → (r : Read)
        → IsQuestion (tables_from no_tables versions q) table r
        → get (lost_tables versions v q) table ≡ None
        → (p : PlainPiece) → In p (unfolded_to book versions v q (first_piece table r ∷ []))
        → output_types (tables_from no_tables versions v) p
        ≡ output_types (tables_from no_tables versions q) (first_piece table r) }
    ensures constants { (book : Book) → IsValidBook book → (versions : List PlainVersion)
        → AreVersions None no_tables versions → ValidInVersions versions
        → (v : ℕ) → (q : ℕ) → (table : List ℕ) → (r : Read)
        → IsQuestion (tables_from no_tables versions q) table r
        → get (lost_tables versions v q) table ≡ None
        → ValidInTest r.test → ValidInPieces (unfolded_to book versions v q
        (first_piece table r ∷ [])) }
{}

/// Pieces stand at a version for what is asked of a table of another one, where the table is not
/// lost on the way and they are the first piece, unfolded. The first piece itself does so at its
/// own version; of pieces that do, those that are taken to a neighbour on the way do so there, if
/// the table is not lost from there; and they are well-typed.
pub fn pieces_stand_for_a_table()
    ensures first { (book : Book) → (versions : List PlainVersion) → (q : ℕ) → (table : List ℕ)
        → (r : Read)
        → StandFor book versions q q table r (first_piece table r ∷ []) }
    ensures next { (book : Book) → (versions : List PlainVersion) → (v : ℕ) → (q : ℕ)
        → (table : List ℕ) → (r : Read) → (ps : List PlainPiece) → q ≤ v
        → get (lost_tables versions (v + 1) q) table ≡ None → StandFor book versions v q table r ps
        → StandFor book versions (v + 1) q table r (to_next book versions v ps) }
    ensures previous { (book : Book) → (versions : List PlainVersion) → (v : ℕ) → (q : ℕ)
        → (table : List ℕ) → (r : Read) → (ps : List PlainPiece) → v < q
        → StandFor book versions (v + 1) q table r ps
        → StandFor book versions v q table r (to_previous book versions v ps) }
    ensures typed { (book : Book) → IsValidBook book → (versions : List PlainVersion) → (v : ℕ)
        → (q : ℕ) → (table : List ℕ) → (r : Read) → (ps : List PlainPiece)
        → MayBeAsked versions q table r → StandFor book versions v q table r ps
        → AllTyped (tables_from no_tables versions v) ps }
{}

/// What branches ask of the database of a moment, migrated to version q, is what their answers are
/// over the pieces of their items' tables, unfolded to the version then in force: where none of
/// these tables is lost on that way.
pub fn a_moment_is_read_by_pieces()
    ensures { (book : Book) → IsValidBook book → (past : Past) → IsPast past → EachHolds past
        → VersionsHold past.versions → (m : ℕ) → (q : ℕ)
        → (reads : PlainBranch → List Read) → (branches : List PlainBranch)
        → ((b : PlainBranch) → In b branches → Suffices (tables_of past q) (reads b) b)
        → ((b : PlainBranch) → In b branches → (i : Item) → In i b.from
        → get (lost_tables past.versions (version_at past m) q) i.0 ≡ None)
        → plain (tables_of past q) branches (migrated past m q)
        ≡ asked_by_pieces book past m q reads branches }
{}
