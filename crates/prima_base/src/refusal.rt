use crate::Name;

/// The kinds of schema modification operators (PRISM 2008), and NOP, which changes no table.
#[derive(Clone, Copy, PartialEq, Eq)]
pub enum OpKind {
    Nop,
    CreateTable,
    DropTable,
    RenameTable,
    CopyTable,
    MergeTable,
    PartitionTable,
    DecomposeTable,
    JoinTable,
    AddColumn,
    DropColumn,
    RenameColumn,
}

/// What there can be too many of.
#[derive(Clone, Copy, PartialEq, Eq)]
pub enum What {
    /// Nodes of an expression or a condition.
    Nodes,
    /// Levels of one.
    Depth,
    /// Parts of a CONCAT.
    Parts,
    /// Tables of a branch or of a version.
    Tables,
    /// Branches of a query.
    Branches,
    /// Outputs of a branch.
    Outputs,
    /// Keep conditions of a query.
    Keeps,
    /// Changes of a command.
    Changes,
    /// Columns of a table.
    Columns,
    /// Operators of an inverse.
    Inverse,
    /// Versions of the schema.
    Versions,
}

/// Why an operator is refused. A place counts the operator's nodes from 0.
#[derive(Drop)]
pub enum OpRefusal {
    /// The table is there already.
    Exists(Name),
    /// The table is not there.
    NoTable(Name),
    /// The table has, or was given twice, this column.
    ColumnExists(Name, Name),
    /// The table has no such column.
    NoColumn(Name, Name),
    /// Two tables whose columns do not fit together.
    ColumnsDiffer(Name, Name),
    /// The parts of a decomposition do not cover the table.
    BadCover(Name),
    /// The table would have no column left.
    LastColumn(Name),
    /// The table is named twice.
    SameTable(Name),
    /// The place of a node whose parts have types that it does not take.
    WrongType(u32),
    /// The counted thing, and its limit.
    TooMany(What, u64),
}

/// Why a statement is refused; the comment is the number that its line prints. A place counts the
/// statement's bytes (10) or nodes (25) from 0; stamps are moments.
#[derive(Drop)]
pub enum Refusal {
    /// 10: the place from which no statement goes on.
    Syntax(u32),
    /// 11: the script ends inside the statement.
    Unfinished,
    /// 12: the statement has more than 1,048,576 bytes.
    TooLong,
    /// 20: the given stamp, and the last accepted one, which is not earlier.
    StampNotLater(u64, u64),
    /// 21: the asked version, and the newest.
    NoVersion(u32, u32),
    /// 22: the table that is not there.
    NoTable(Name),
    /// 23: the column that is not there.
    NoColumn(Name),
    /// 24: the alias that stands twice, or the column that several tables have.
    Ambiguous(Name),
    /// 25: the place of the node.
    WrongType(u32),
    /// 26: the table that is there already.
    Exists(Name),
    /// 27: table and column.
    ColumnExists(Name, Name),
    /// 28: two tables whose columns do not fit together.
    ColumnsDiffer(Name, Name),
    /// 29: the table that the parts of a decomposition do not cover.
    BadCover(Name),
    /// 30: the table that would have no column left.
    LastColumn(Name),
    /// 31: the table that is named twice.
    SameTable(Name),
    /// 32: the first table that the inverse does not give back.
    InverseMisses(Name),
    /// 32: the number, from 1, of the inverse's operator, and why it is refused.
    InverseOp(u32, OpRefusal),
    /// 33: the version, and the operator that is not gone back over.
    NoInverse(u32, OpKind),
    /// 34: the two bounds.
    EmptyPeriod(u64, u64),
    /// 35: table, and the first missing column in name order.
    ColumnMissing(Name, Name),
    /// 36: the first branch, from 1, whose outputs differ from those of the first.
    Arity(u32),
    /// 37: the place in the journal, the bytes needed, the limit.
    JournalFull(u64, u64, u64),
    /// 38: the counted thing, and its limit.
    TooMany(What, u64),
    /// 39: the measure of the operator.
    TooWide(u64),
    /// 50: the version that was the newest when the transaction began, and the newest.
    SchemaMoved(u32, u32),
    /// 51: the stamp of the statement that would be too long, and its length in bytes.
    TooLongStamp(u64, u64),
    /// 52: the session, which has a begun transaction.
    Begun(u32),
    /// 53: the session, which has none.
    NotBegun(u32),
    /// 54: the session, and its cursor, which is open.
    CursorOpen(u32, Name),
    /// 55: the session, and the cursor, which is not open.
    NoCursor(u32, Name),
    /// 56: the place of an output that is not there, and how many there are.
    NoOutput(u32, u32),
    /// 57: the place of the output to be summed, which is a TEXT.
    NotANumber(u32),
}
