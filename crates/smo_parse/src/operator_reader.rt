//! Reading of operators, from left to right.

ghost use Rattle.std.specs.Prelude.{◌≡◌, ◌<◌, length, codes};
ghost use Rattle.cond_expr.specs.Seen.{tree, test};
ghost use Rattle.smo_ops_types.specs.Operators.{operator_of};
ghost use Rattle.lexer_spec.specs.Lexemes.{is_word, is_sign};
ghost use Rattle.lexer_combinators.specs.Parsing.{many};
ghost use Rattle.lexer_combinators.specs.Reads.{Reads, ReadsMore, ahead};
ghost use Rattle.smo_parse.specs.OperatorReader as spec;

use lexer::{Cursor, Stop, name, names, outer_cond, outer_expr, outer_where};
use prima_base::{ColType, Name};
use smo_ops::Op;
use std::alloc::Global;

// A column's type.
#[tactic(auto, unfolding(crate::specs::OperatorReader::column_type), using(lexer_combinators::proofs::ReadSteps::choose_takes, lexer_combinators::proofs::ReadSteps::choose_no))]
fn column_type(c: &mut Cursor<'_, '_>) -> Result<ColType, Stop>
    ensures { Reads (λ k. k) (spec.column_type c.old.nodes (ahead c.old)) result c.new }
{
    if c.sees_word(b"INT") {
        c.skip();
        return Ok(ColType::Int);
    }
    if c.sees_word(b"TEXT") {
        c.skip();
        return Ok(ColType::Text);
    }
    Err(Stop::Unexpected)
}

// A column's name and its type.
#[tactic(auto, unfolding(crate::specs::OperatorReader::column))]
fn column(alloc: Global, c: &mut Cursor<'_, '_>) -> Result<(Name, ColType), Stop>
    ensures { Reads (λ k. k) (spec.column c.old.nodes (ahead c.old)) result c.new }
{
    let column = name(alloc, c)?;
    let kind = column_type(c)?;
    Ok((column, kind))
}

// More columns, each after a comma, as many as there are.
fn more_columns(
    alloc: Global,
    c: &mut Cursor<'_, '_>,
    list: &mut Vec<(Name, ColType)>,
) -> Result<(), Stop>
    ensures { ReadsMore (many (is_sign (codes ",")) spec.column c.old.nodes (ahead c.old))
        list.old.items list.new.items result c.new }
{
    while c.sees_sign(b",") {
        c.skip();
        list.push(column(alloc, c)?)?;
    }
    Ok(())
}

// Columns with commas between them, one at least.
#[tactic(auto, unfolding(crate::specs::OperatorReader::columns))]
fn columns(alloc: Global, c: &mut Cursor<'_, '_>) -> Result<Vec<(Name, ColType)>, Stop>
    ensures { Reads (λ v. v.items) (spec.columns c.old.nodes (ahead c.old)) result c.new }
{
    let first = column(alloc, c)?;
    let mut list = vec![in alloc; first]?;
    more_columns(alloc, c, &mut list)?;
    Ok(list)
}

// A table's name and, in brackets, the names of its columns.
#[tactic(auto, unfolding(crate::specs::OperatorReader::part), using(lexer_combinators::proofs::ReadSteps::lead_seen, lexer_combinators::proofs::ReadSteps::lead_not))]
fn part(alloc: Global, c: &mut Cursor<'_, '_>) -> Result<(Name, Vec<Name>), Stop>
    ensures { Reads (λ p. (p.0, p.1.items)) (spec.part c.old.nodes (ahead c.old)) result c.new }
{
    let table = name(alloc, c)?;
    c.expect_sign(b"(")?;
    let columns = names(alloc, c)?;
    c.expect_sign(b")")?;
    Ok((table, columns))
}

// What stands after CREATE.
#[tactic(auto, unfolding(crate::specs::OperatorReader::create_rest), using(lexer_combinators::proofs::ReadSteps::lead_seen, lexer_combinators::proofs::ReadSteps::lead_not))]
fn create_rest(alloc: Global, c: &mut Cursor<'_, '_>) -> Result<Op, Stop>
    ensures { Reads operator_of (spec.create_rest c.old.nodes (ahead c.old)) result c.new }
{
    c.expect_word(b"TABLE")?;
    let table = name(alloc, c)?;
    c.expect_sign(b"(")?;
    let columns = columns(alloc, c)?;
    c.expect_sign(b")")?;
    Ok(Op::CreateTable { table, columns })
}

// What stands after DROP TABLE.
#[tactic(auto, unfolding(crate::specs::OperatorReader::drop_table_rest))]
fn drop_table_rest(alloc: Global, c: &mut Cursor<'_, '_>) -> Result<Op, Stop>
    ensures { Reads operator_of (spec.drop_table_rest c.old.nodes (ahead c.old)) result c.new }
{
    let table = name(alloc, c)?;
    Ok(Op::DropTable { table })
}

// What stands after DROP COLUMN.
#[tactic(auto, unfolding(crate::specs::OperatorReader::drop_column_rest), using(lexer_combinators::proofs::ReadSteps::lead_seen, lexer_combinators::proofs::ReadSteps::lead_not))]
fn drop_column_rest(alloc: Global, c: &mut Cursor<'_, '_>) -> Result<Op, Stop>
    ensures { Reads operator_of (spec.drop_column_rest c.old.nodes (ahead c.old)) result c.new }
{
    let column = name(alloc, c)?;
    c.expect_word(b"FROM")?;
    let table = name(alloc, c)?;
    Ok(Op::DropColumn { column, table })
}

// What stands after DROP.
#[tactic(auto, unfolding(crate::specs::OperatorReader::drop_rest), using(lexer_combinators::proofs::ReadSteps::choose_takes, lexer_combinators::proofs::ReadSteps::choose_no))]
fn drop_rest(alloc: Global, c: &mut Cursor<'_, '_>) -> Result<Op, Stop>
    ensures { Reads operator_of (spec.drop_rest c.old.nodes (ahead c.old)) result c.new }
{
    if c.sees_word(b"TABLE") {
        c.skip();
        return drop_table_rest(alloc, c);
    }
    if c.sees_word(b"COLUMN") {
        c.skip();
        return drop_column_rest(alloc, c);
    }
    Err(Stop::Unexpected)
}

// What stands after RENAME TABLE.
#[tactic(auto, unfolding(crate::specs::OperatorReader::rename_table_rest), using(lexer_combinators::proofs::ReadSteps::lead_seen, lexer_combinators::proofs::ReadSteps::lead_not))]
fn rename_table_rest(alloc: Global, c: &mut Cursor<'_, '_>) -> Result<Op, Stop>
    ensures { Reads operator_of (spec.rename_table_rest c.old.nodes (ahead c.old)) result c.new }
{
    let table = name(alloc, c)?;
    c.expect_word(b"INTO")?;
    let into = name(alloc, c)?;
    Ok(Op::RenameTable { table, into })
}

// What stands after RENAME COLUMN.
#[tactic(auto, unfolding(crate::specs::OperatorReader::rename_column_rest), using(lexer_combinators::proofs::ReadSteps::lead_seen, lexer_combinators::proofs::ReadSteps::lead_not))]
fn rename_column_rest(alloc: Global, c: &mut Cursor<'_, '_>) -> Result<Op, Stop>
    ensures { Reads operator_of (spec.rename_column_rest c.old.nodes (ahead c.old)) result c.new }
{
    let column = name(alloc, c)?;
    c.expect_word(b"IN")?;
    let table = name(alloc, c)?;
    c.expect_word(b"TO")?;
    let into = name(alloc, c)?;
    Ok(Op::RenameColumn {
        column,
        table,
        into,
    })
}

// What stands after RENAME.
#[tactic(auto, unfolding(crate::specs::OperatorReader::rename_rest), using(lexer_combinators::proofs::ReadSteps::choose_takes, lexer_combinators::proofs::ReadSteps::choose_no))]
fn rename_rest(alloc: Global, c: &mut Cursor<'_, '_>) -> Result<Op, Stop>
    ensures { Reads operator_of (spec.rename_rest c.old.nodes (ahead c.old)) result c.new }
{
    if c.sees_word(b"TABLE") {
        c.skip();
        return rename_table_rest(alloc, c);
    }
    if c.sees_word(b"COLUMN") {
        c.skip();
        return rename_column_rest(alloc, c);
    }
    Err(Stop::Unexpected)
}

// What stands after COPY.
#[tactic(auto, unfolding(crate::specs::OperatorReader::copy_rest), using(lexer_combinators::proofs::ReadSteps::lead_seen, lexer_combinators::proofs::ReadSteps::lead_not))]
fn copy_rest(alloc: Global, c: &mut Cursor<'_, '_>) -> Result<Op, Stop>
    ensures { Reads operator_of (spec.copy_rest c.old.nodes (ahead c.old)) result c.new }
{
    c.expect_word(b"TABLE")?;
    let table = name(alloc, c)?;
    c.expect_word(b"INTO")?;
    let into = name(alloc, c)?;
    Ok(Op::CopyTable { table, into })
}

// What stands after MERGE.
#[tactic(auto, unfolding(crate::specs::OperatorReader::merge_rest), using(lexer_combinators::proofs::ReadSteps::lead_seen, lexer_combinators::proofs::ReadSteps::lead_not))]
fn merge_rest(alloc: Global, c: &mut Cursor<'_, '_>) -> Result<Op, Stop>
    ensures { Reads operator_of (spec.merge_rest c.old.nodes (ahead c.old)) result c.new }
{
    c.expect_word(b"TABLE")?;
    let left = name(alloc, c)?;
    c.expect_sign(b",")?;
    let right = name(alloc, c)?;
    c.expect_word(b"INTO")?;
    let into = name(alloc, c)?;
    Ok(Op::MergeTable { left, right, into })
}

// What stands after PARTITION.
#[tactic(auto, unfolding(crate::specs::OperatorReader::partition_rest), using(lexer_combinators::proofs::ReadSteps::lead_seen, lexer_combinators::proofs::ReadSteps::lead_not))]
fn partition_rest(alloc: Global, c: &mut Cursor<'_, '_>) -> Result<Op, Stop>
    ensures { Reads operator_of (spec.partition_rest c.old.nodes (ahead c.old)) result c.new }
{
    c.expect_word(b"TABLE")?;
    let table = name(alloc, c)?;
    c.expect_word(b"INTO")?;
    let yes = name(alloc, c)?;
    c.expect_word(b"WITH")?;
    let cond = outer_cond(alloc, c, false)?;
    c.expect_sign(b",")?;
    let no = name(alloc, c)?;
    Ok(Op::PartitionTable {
        table,
        yes,
        cond,
        no,
    })
}

// What stands after DECOMPOSE.
#[tactic(auto, unfolding(crate::specs::OperatorReader::decompose_rest), using(lexer_combinators::proofs::ReadSteps::lead_seen, lexer_combinators::proofs::ReadSteps::lead_not))]
fn decompose_rest(alloc: Global, c: &mut Cursor<'_, '_>) -> Result<Op, Stop>
    ensures { Reads operator_of (spec.decompose_rest c.old.nodes (ahead c.old)) result c.new }
{
    c.expect_word(b"TABLE")?;
    let table = name(alloc, c)?;
    c.expect_word(b"INTO")?;
    let (left, left_columns) = part(alloc, c)?;
    c.expect_sign(b",")?;
    let (right, right_columns) = part(alloc, c)?;
    Ok(Op::DecomposeTable {
        table,
        left,
        left_columns,
        right,
        right_columns,
    })
}

// What stands after JOIN.
#[tactic(auto, unfolding(crate::specs::OperatorReader::join_rest), using(lexer_combinators::proofs::ReadSteps::lead_seen, lexer_combinators::proofs::ReadSteps::lead_not))]
fn join_rest(alloc: Global, c: &mut Cursor<'_, '_>) -> Result<Op, Stop>
    ensures { Reads operator_of (spec.join_rest c.old.nodes (ahead c.old)) result c.new }
{
    c.expect_word(b"TABLE")?;
    let left = name(alloc, c)?;
    c.expect_sign(b",")?;
    let right = name(alloc, c)?;
    c.expect_word(b"INTO")?;
    let into = name(alloc, c)?;
    let cond = outer_where(alloc, c, false)?;
    Ok(Op::JoinTable {
        left,
        right,
        into,
        cond,
    })
}

// What stands after ADD.
#[tactic(auto, unfolding(crate::specs::OperatorReader::add_rest), using(lexer_combinators::proofs::ReadSteps::lead_seen, lexer_combinators::proofs::ReadSteps::lead_not))]
fn add_rest(alloc: Global, c: &mut Cursor<'_, '_>) -> Result<Op, Stop>
    ensures { Reads operator_of (spec.add_rest c.old.nodes (ahead c.old)) result c.new }
{
    c.expect_word(b"COLUMN")?;
    let column = name(alloc, c)?;
    c.expect_word(b"AS")?;
    let expr = outer_expr(alloc, c, false)?;
    c.expect_word(b"INTO")?;
    let table = name(alloc, c)?;
    Ok(Op::AddColumn {
        column,
        expr,
        table,
    })
}

/// An operator, with the counts of its tree after those that the cursor has.
#[tactic(auto, unfolding(crate::specs::OperatorReader::operator), using(lexer_combinators::proofs::ReadSteps::choose_takes, lexer_combinators::proofs::ReadSteps::choose_no))]
pub fn operator(alloc: Global, c: &mut Cursor<'_, '_>) -> Result<Op, Stop>
    ensures { Reads operator_of (spec.operator c.old.nodes (ahead c.old)) result c.new }
{
    if c.sees_word(b"NOP") {
        c.skip();
        return Ok(Op::Nop);
    }
    if c.sees_word(b"CREATE") {
        c.skip();
        return create_rest(alloc, c);
    }
    if c.sees_word(b"DROP") {
        c.skip();
        return drop_rest(alloc, c);
    }
    if c.sees_word(b"RENAME") {
        c.skip();
        return rename_rest(alloc, c);
    }
    if c.sees_word(b"COPY") {
        c.skip();
        return copy_rest(alloc, c);
    }
    if c.sees_word(b"MERGE") {
        c.skip();
        return merge_rest(alloc, c);
    }
    if c.sees_word(b"PARTITION") {
        c.skip();
        return partition_rest(alloc, c);
    }
    if c.sees_word(b"DECOMPOSE") {
        c.skip();
        return decompose_rest(alloc, c);
    }
    if c.sees_word(b"JOIN") {
        c.skip();
        return join_rest(alloc, c);
    }
    if c.sees_word(b"ADD") {
        c.skip();
        return add_rest(alloc, c);
    }
    Err(Stop::Unexpected)
}
