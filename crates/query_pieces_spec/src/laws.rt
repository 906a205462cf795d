ghost use Rattle.std.specs.Prelude.{◌≡◌, ◌<◌, ◌≤◌, ◌++◌, ℕ, List, [], ◌∷◌, Some, None};
ghost use Rattle.std.specs.FinMap.{get};
ghost use Rattle.relations_spec.specs.Sets.{In, set_of};
ghost use Rattle.relations_spec.specs.Spans.{Span, forever};
ghost use Rattle.relations_spec.specs.Timed.{Entry, at};
ghost use Rattle.relations_spec.specs.Listing.{IsListing};
ghost use Rattle.prima_base.specs.Order.{row_cmp};
ghost use Rattle.prima_base.specs.Keeping.{kept};
ghost use Rattle.schema_catalog.specs.Tables.{Tables};
ghost use Rattle.schema_catalog.specs.Databases.{Database};
ghost use Rattle.smo_ops_types.specs.Commands.{PlainVersion};
ghost use Rattle.smo_ops_spec.specs.OneRow.{Row, Relation};
ghost use Rattle.smo_ops_spec.specs.Losses.{Loss};
ghost use Rattle.smo_ops_spec.specs.Past.{Past, tables_of, version_at, database_at};
ghost use Rattle.smo_ops_spec.specs.ValidPast.{IsPast};
ghost use Rattle.smo_ops_spec.specs.ValidValues.{PastHolds};
ghost use Rattle.smo_ops_versions_spec.specs.LostTables.{lost_tables};
ghost use Rattle.plain_answers_spec.specs.Branches.{Item, PlainBranch, item_columns};
ghost use Rattle.plain_answers_spec.specs.Choosing.{answers_over};
ghost use Rattle.plain_answers_spec.specs.Pushing.{pushed_reads};
ghost use Rattle.plain_answers_spec.specs.Reading.{Read, needed_reads, read_columns};
ghost use Rattle.piece_ir_spec.specs.Pieces.{PlainPiece, means, all_mean};
ghost use Rattle.piece_ir_spec.specs.Rules.{Book, IsValidBook};
ghost use Rattle.piece_prune.specs.DeadPieces.{LeavesLiving};
ghost use Rattle.piece_ir_spec.specs.Reading.{Suffices, unfolded_read, unfolded_reads};
ghost use Rattle.piece_ir_spec.specs.UnfoldedPieces.{StandFor};
ghost use Rattle.temporal_lang_types.specs.Queries.{PlainQuery, slice_of, IsLasting};
ghost use Rattle.temporal_lang_spec.specs.Losing.{loss_from, first_loss_of, first_lost};
ghost use Rattle.temporal_lang_spec.specs.Accepted.{fault_of_query};
ghost use Rattle.temporal_lang_spec.specs.Answers.{asked_at, answer};
ghost use Rattle.query_pieces_spec.specs.Gathering.{IsOfPart, IsGathered, HasMoment};
ghost use Rattle.query_pieces_spec.specs.Piecewise.{asked_branches, pieces_at};
ghost use Rattle.query_pieces_spec.specs.Piecewise.{pushed_at};
ghost use Rattle.query_pieces_spec.specs.Piecewise.{IsAskedOf, IsReadByPieces};

/// The first loss of a query is decided version by version. From an earlier version no more is
/// lost. None is lost where none is from a version that is at least each one in force in the slice.
/// Else the loss is that of the least of these versions from which an item is lost; and where there
/// is no first loss, none of them loses an item. The references of the query are to items.
pub fn the_least_lost_version_decides()
    ensures before { (versions : List PlainVersion) → (v : ℕ) → (w : ℕ) → (query : PlainQuery)
        → v ≤ w
        → loss_from versions w query ≡ None → loss_from versions v query ≡ None }
    ensures none { (past : Past) → (query : PlainQuery) → (w : ℕ)
        → ((m : ℕ) → IsAskedOf query m → version_at past m ≤ w)
        → loss_from past.versions w query ≡ None → first_loss_of past query ≡ None }
    ensures some { (past : Past) → (query : PlainQuery) → (m : ℕ) → (loss : Loss)
        → IsAskedOf query m → loss_from past.versions (version_at past m) query ≡ Some loss
        → ((n : ℕ) → IsAskedOf query n → version_at past n < version_at past m
        → loss_from past.versions (version_at past n) query ≡ None)
        → first_loss_of past query ≡ Some loss }
    ensures each { (past : Past) → (query : PlainQuery) → first_loss_of past query ≡ None → (m : ℕ)
        → IsAskedOf query m
        → loss_from past.versions (version_at past m) query ≡ None }
{}

/// A query that is not refused has a slice with moments; of the table of each item it asks a
/// question, that of the columns which its branch names, and these are enough for the branch; so it
/// does of the rows alone that meet the pushed condition. No item of it is lost at a moment of the
/// slice, and no such table on the way from a version in force in the slice.
pub fn an_accepted_query_asks_questions()
    ensures lasting { (past : Past) → (query : PlainQuery) → fault_of_query past query ≡ None
        → IsLasting query.when }
    ensures enough { (past : Past) → (query : PlainQuery) → fault_of_query past query ≡ None
        → (b : PlainBranch) → In b (asked_branches past query)
        → Suffices (tables_of past query.version) (needed_reads b) b }
    ensures pushed { (past : Past) → (query : PlainQuery) → fault_of_query past query ≡ None
        → (b : PlainBranch) → In b (asked_branches past query)
        → Suffices (tables_of past query.version) (pushed_reads b) b }
    ensures found { (past : Past) → (query : PlainQuery) → fault_of_query past query ≡ None
        → first_lost past query ≡ None }
    ensures kept { (past : Past) → (query : PlainQuery) → fault_of_query past query ≡ None → (m : ℕ)
        → IsAskedOf query m
        → (b : PlainBranch) → In b (asked_branches past query) → (i : Item) → In i b.from
        → get (lost_tables past.versions (version_at past m) query.version) i.0 ≡ None }
{}

/// A query that is not refused asks of each moment of its slice what its branches answer over the
/// pieces of their items' tables, unfolded to the version then in force, by any valid book; of each
/// table the rows that meet the pushed condition are enough. So a relation that is this at each
/// moment of the slice, listed over the whole slice with the longest periods, over the borders of
/// versions too, and then cut by KEEP, is the query's answer.
pub fn a_query_is_answered_by_pieces()
    ensures moment { (book : Book) → IsValidBook book → (past : Past) → IsPast past → PastHolds past
        → (query : PlainQuery) → fault_of_query past query ≡ None
        → (m : ℕ) → IsAskedOf query m → asked_at past query m ≡ pieces_at book past query m }
    ensures pushed { (book : Book) → IsValidBook book → (past : Past) → IsPast past → PastHolds past
        → (query : PlainQuery) → fault_of_query past query ≡ None
        → (m : ℕ) → IsAskedOf query m → asked_at past query m ≡ pushed_at book past query m }
    ensures answer { (book : Book) → IsValidBook book → (past : Past) → IsPast past → PastHolds past
        → (query : PlainQuery) → fault_of_query past query ≡ None
        → (slice_of query.when).end ≤ forever → (relation : ℕ → Relation)
        → IsReadByPieces book past query relation
        → (entries : List (Entry Row)) → IsListing row_cmp relation (slice_of query.when) entries
        → kept query.keep entries ≡ answer past query }
{}

/// Rows may be gathered part by part of a slice, in any order of the parts: those of each part have
/// all that holds at its moments, and nothing outside it. At each moment of the parts the rows that
/// are gathered are all that holds then. So what is gathered of parts that have each moment of a
/// query's slice is what the query reads by pieces.
pub fn parts_are_gathered()
    ensures nothing { (relation : ℕ → Relation) → IsGathered relation [] [] }
    ensures more { (relation : ℕ → Relation) → (parts : List Span) → (entries : List (Entry Row))
        → (p : Span) → (news : List (Entry Row))
        → IsGathered relation parts entries → IsOfPart relation p news
        → IsGathered relation (parts ++ p ∷ []) (entries ++ news) }
    ensures read { (book : Book) → (past : Past) → (query : PlainQuery) → (parts : List Span)
        → (entries : List (Entry Row))
        → IsGathered (pieces_at book past query) parts entries
        → ((m : ℕ) → IsAskedOf query m → HasMoment parts m)
        → IsReadByPieces book past query (at row_cmp entries) }
{}

/// Pieces may be run one by one: where entries are at a moment what pieces mean over a database,
/// and further entries are what one piece more means, they are together what all of these pieces
/// mean.
pub fn pieces_are_run_one_by_one()
    ensures nothing { (tables : Tables) → (db : Database) → (m : ℕ)
        → at row_cmp [] m ≡ all_mean tables db [] }
    ensures more { (tables : Tables) → (db : Database) → (ps : List PlainPiece) → (p : PlainPiece)
        → (a : List (Entry Row)) → (b : List (Entry Row)) → (m : ℕ)
        → at row_cmp a m ≡ all_mean tables db ps → at row_cmp b m ≡ means tables db p
        → at row_cmp (a ++ b) m ≡ all_mean tables db (ps ++ p ∷ []) }
{}

/// The pieces that stand at the version in force for what is asked of a table mean, over the
/// database of the moment, what is read of the table by pieces; so do those of them that are not
/// dead, alone. A query of one branch reads by pieces what this branch answers over what is read of
/// its items' tables.
pub fn one_version_is_read()
    ensures table { (book : Book) → (past : Past) → (m : ℕ) → (q : ℕ) → (k : ℕ) → (table : List ℕ)
        → (r : Read) → (ps : List PlainPiece) → version_at past m ≡ k
        → StandFor book past.versions k q table r ps
        → all_mean (tables_of past k) (database_at past m) ps
        ≡ unfolded_read book past m q table r }
    ensures living { (book : Book) → (past : Past) → IsPast past → PastHolds past → (m : ℕ)
        → (q : ℕ) → (k : ℕ) → (table : List ℕ) → (r : Read) → (ps : List PlainPiece)
        → (living : List PlainPiece) → version_at past m ≡ k
        → StandFor book past.versions k q table r ps → LeavesLiving (tables_of past k) ps living
        → all_mean (tables_of past k) (database_at past m) living
        ≡ unfolded_read book past m q table r }
    ensures branch { (book : Book) → (past : Past) → (query : PlainQuery) → (b : PlainBranch)
        → (m : ℕ) → asked_branches past query ≡ b ∷ []
        → pieces_at book past query m ≡ set_of row_cmp
        (answers_over (read_columns (needed_reads b)
        (item_columns (tables_of past query.version) b.from))
        (unfolded_reads book past m query.version (needed_reads b) b.from) b.outs b.cond) }
{}
