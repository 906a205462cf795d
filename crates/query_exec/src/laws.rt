ghost use Rattle.std.specs.Prelude.{◌≡◌, ◌<◌, ◌≤◌, ℕ, List, None, true};
ghost use Rattle.relations_spec.specs.Sets.{In};
ghost use Rattle.relations_spec.specs.Spans.{Span, covers, forever};
ghost use Rattle.piece_ir.specs.ExplainedPieces.{PlainExplained};
ghost use Rattle.smo_ops_spec.specs.ValidPast.{IsPast};
ghost use Rattle.smo_ops_spec.specs.ValidValues.{PastHolds};
ghost use Rattle.smo_ops_spec.specs.Past.{Past, tables_of};
ghost use Rattle.version_groups.specs.Groups.{Kept};
ghost use Rattle.piece_ir_spec.specs.Constants.{ValidInVersions};
ghost use Rattle.piece_ir_spec.specs.Rules.{Book, IsValidBook};
ghost use Rattle.piece_ir.specs.Shown.{shown_pieces};
ghost use Rattle.temporal_lang_spec.specs.Accepted.{fault_of_query};
ghost use Rattle.temporal_lang_spec.specs.Atoms.{with_atoms};
ghost use Rattle.temporal_lang_types.specs.Queries.{PlainQuery};
ghost use Rattle.query_exec.specs.Constants.{ValidInQuery};
ghost use Rattle.query_exec.specs.QueryPieces.{ArePieces, living_pieces};
ghost use Rattle.query_exec.specs.Reads.{part_read};
ghost use Rattle.query_exec.specs.ToldMeanings.{MeanWhatIsAsked};
ghost use Rattle.query_exec.specs.Runs.{IsRun, MeanAlike};
ghost use Rattle.query_exec.specs.declared.part_piece.PartPieces.{PartPieces as OnePart};

/// What is read of a run, over the version of its first part, is what each of its parts has alone:
/// at each moment of the part the pieces of the first, one by one, mean over what is stored of its
/// version what those of the part mean over what is stored of the part's; and as much is read for
/// them at least.
pub fn a_run_is_read_as_each_of_its_parts()
    ensures rows { (kept : Kept) → (first : OnePart) → (more : List OnePart) → (period : Span)
        → IsRun kept first more period → (x : OnePart) → In x more → (m : ℕ)
        → covers x.part.0 m ≡ true → m < forever → MeanAlike kept first.part.1
        (shown_pieces first.pieces.items) x.part.1 (shown_pieces x.pieces.items) m }
    ensures reads { (kept : Kept) → (first : OnePart) → (more : List OnePart) → (period : Span)
        → IsRun kept first more period → (x : OnePart) → In x more
        → part_read kept x ≤ part_read kept first }
{}

/// The pieces of a query that is not refused, by the function: of those into which its items'
/// tables unfold by a valid book, just those that are not dead. The constants of the query, of the
/// versions' operators and of their inverses are valid values.
pub fn living_pieces_are_those_that_are_not_dead()
    ensures { (book : Book) → IsValidBook book → (past : Past) → IsPast past
        → ValidInVersions past.versions → (query : PlainQuery)
        → fault_of_query past query ≡ None → ValidInQuery query
        → ArePieces book past.versions (with_atoms (tables_of past query.version) query)
        (living_pieces book past.versions (with_atoms (tables_of past query.version) query)) }
{}

/// The pieces of a query that is not refused, by a valid book, branch by branch, item by item and
/// version by version: over every valid database of a version those of an item mean what is asked
/// of its table in that database, migrated to the query's version, the columns that the branch
/// names of the rows that meet the condition which is pushed to the item.
pub fn pieces_mean_what_is_asked()
    ensures { (book : Book) → IsValidBook book → (past : Past) → IsPast past → PastHolds past
        → (query : PlainQuery) → fault_of_query past query ≡ None → (list : List PlainExplained)
        → ArePieces book past.versions (with_atoms (tables_of past query.version) query) list
        → MeanWhatIsAsked past.versions (with_atoms (tables_of past query.version) query) list }
{}
