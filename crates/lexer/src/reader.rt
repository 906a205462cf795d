//! Reading of expressions and conditions, from left to right.

ghost use Rattle.std.specs.Prelude.{◌≡◌, ◌+◌, ◌-◌, ◌≤◌, ◌<◌, ◌++◌, ℕ, List, length, drop, map};
ghost use Rattle.std.specs.Prelude.{take, true, false, codes, [], ◌∷◌, IfOk, IfErr, OnOk, OnErr};
ghost use Rattle.prima_base.specs.declared.refusal.What.TheVariants as what;
ghost use Rattle.cond_expr.specs.Seen.{tree, test};
ghost use Rattle.lexer_spec.specs.Lexemes.{is_word, is_sign};
ghost use Rattle.lexer_combinators.specs.Reads.{Reads, ReadsMore, ahead};
ghost use Rattle.lexer_trees_spec.specs.Reader as spec;
ghost use Rattle.lexer_trees_spec.specs.Where as wheres;
ghost use Rattle.lexer_combinators.specs.Parsing as parsing;

use crate::atom_reader::{atom, falsehood, no_bracket, sees_op, truth};
use cond_expr::{Cond, Expr};
use lexer_combinators::{Cursor, Stop};
use prima_base::{What, limits};
use std::alloc::Global;

// How many constructs may be open at once.
const MOST_OPEN: u32 = limits::MAX_DEPTH as u32;

#[cycle(reads)]
#[tactic(auto, unfolding(lexer_trees_spec::specs::Reader::length_rest), using(lexer_combinators::proofs::ReadSteps::lead_seen, lexer_combinators::proofs::ReadSteps::lead_not))]
fn length_inside(
    alloc: Global,
    c: &mut Cursor<'_, '_>,
    qualified: bool,
    inner: u32,
) -> Result<Expr, Stop>
    requires { inner < 32 }
    ensures { Reads tree (spec.length_rest qualified true (spec.level qualified inner) c.old.nodes
        (ahead c.old)) result c.new }
{
    c.expect_sign(b"(")?;
    let part = expr(alloc, c, qualified, inner)?;
    c.expect_sign(b")")?;
    Ok(Expr::length(alloc, part)?)
}

#[cycle(reads)]
#[tactic(auto, using(lexer_trees_spec::proofs::TreeSteps::length_open, lexer_trees_spec::proofs::TreeSteps::length_shut, lexer_trees_spec::proofs::TreeSteps::length_stuck))]
fn length_rest(
    alloc: Global,
    c: &mut Cursor<'_, '_>,
    qualified: bool,
    depth: u32,
) -> Result<Expr, Stop>
    requires { depth ≤ 32 }
    ensures { Reads tree (spec.length_rest qualified (spec.can depth) (spec.inside qualified depth)
        c.old.nodes (ahead c.old)) result c.new }
{
    if depth == 0 {
        return Err(no_bracket(c));
    }
    length_inside(alloc, c, qualified, depth - 1)
}

#[cycle(reads)]
#[tactic(auto)]
fn more_exprs(
    alloc: Global,
    c: &mut Cursor<'_, '_>,
    parts: &mut Vec<Expr>,
    qualified: bool,
    inner: u32,
) -> Result<(), Stop>
    requires { inner < 32 }
    ensures { ReadsMore (parsing.more (is_sign (codes ",")) what.Parts
        (spec.level qualified inner).expr 7 c.old.nodes (ahead c.old))
        (map tree parts.old.items) (map tree parts.new.items) result c.new }
{
    let mut left: u32 = 7;
    while c.sees_sign(b",") {
        if left == 0 {
            return Err(Stop::TooMany(What::Parts));
        }
        left -= 1;
        c.skip();
        parts.push(expr(alloc, c, qualified, inner)?)?;
    }
    Ok(())
}

#[cycle(reads)]
#[tactic(auto, unfolding(lexer_trees_spec::specs::Reader::concat_rest), using(lexer_combinators::proofs::ReadSteps::lead_seen, lexer_combinators::proofs::ReadSteps::lead_not))]
fn concat_inside(
    alloc: Global,
    c: &mut Cursor<'_, '_>,
    qualified: bool,
    inner: u32,
) -> Result<Expr, Stop>
    requires { inner < 32 }
    ensures { Reads tree (spec.concat_rest qualified true (spec.level qualified inner) c.old.nodes
        (ahead c.old)) result c.new }
{
    c.expect_sign(b"(")?;
    let first = expr(alloc, c, qualified, inner)?;
    let mut parts = vec![in alloc; first]?;
    more_exprs(alloc, c, &mut parts, qualified, inner)?;
    c.expect_sign(b")")?;
    Ok(Expr::concat(parts))
}

#[cycle(reads)]
#[tactic(auto, using(lexer_trees_spec::proofs::TreeSteps::concat_open, lexer_trees_spec::proofs::TreeSteps::concat_shut, lexer_trees_spec::proofs::TreeSteps::concat_stuck))]
fn concat_rest(
    alloc: Global,
    c: &mut Cursor<'_, '_>,
    qualified: bool,
    depth: u32,
) -> Result<Expr, Stop>
    requires { depth ≤ 32 }
    ensures { Reads tree (spec.concat_rest qualified (spec.can depth) (spec.inside qualified depth)
        c.old.nodes (ahead c.old)) result c.new }
{
    if depth == 0 {
        return Err(no_bracket(c));
    }
    concat_inside(alloc, c, qualified, depth - 1)
}

#[cycle(reads)]
#[tactic(auto, unfolding(lexer_trees_spec::specs::Reader::case_rest), using(lexer_combinators::proofs::ReadSteps::lead_seen, lexer_combinators::proofs::ReadSteps::lead_not))]
fn case_rest(
    alloc: Global,
    c: &mut Cursor<'_, '_>,
    qualified: bool,
    inner: u32,
) -> Result<Expr, Stop>
    requires { inner < 32 }
    ensures { Reads tree (spec.case_rest qualified true (spec.level qualified inner) c.old.nodes
        (ahead c.old)) result c.new }
{
    c.expect_word(b"WHEN")?;
    let when = cond(alloc, c, qualified, inner)?;
    c.expect_word(b"THEN")?;
    let yes = expr(alloc, c, qualified, inner)?;
    c.expect_word(b"ELSE")?;
    let no = expr(alloc, c, qualified, inner)?;
    c.expect_word(b"END")?;
    Ok(Expr::case(alloc, when, yes, no)?)
}

#[cycle(reads)]
#[tactic(auto, using(lexer_trees_spec::proofs::TreeSteps::expr_length, lexer_trees_spec::proofs::TreeSteps::expr_length_full, lexer_trees_spec::proofs::TreeSteps::expr_concat, lexer_trees_spec::proofs::TreeSteps::expr_concat_full, lexer_trees_spec::proofs::TreeSteps::expr_case, lexer_trees_spec::proofs::TreeSteps::expr_case_full, lexer_trees_spec::proofs::TreeSteps::expr_case_deep, lexer_trees_spec::proofs::TreeSteps::expr_case_deep_full, lexer_trees_spec::proofs::TreeSteps::expr_else))]
/// An expression, inside which so many constructs may be opened.
pub fn expr(
    alloc: Global,
    c: &mut Cursor<'_, '_>,
    qualified: bool,
    depth: u32,
) -> Result<Expr, Stop>
    requires { depth ≤ 32 }
    ensures { Reads tree ((spec.level qualified depth).expr c.old.nodes (ahead c.old))
        result c.new }
{
    if c.sees_word(b"LENGTH") {
        c.step()?;
        return length_rest(alloc, c, qualified, depth);
    }
    if c.sees_word(b"CONCAT") {
        c.step()?;
        return concat_rest(alloc, c, qualified, depth);
    }
    if c.sees_word(b"CASE") {
        if depth == 0 {
            return Err(c.too_deep());
        }
        c.step()?;
        return case_rest(alloc, c, qualified, depth - 1);
    }
    atom(alloc, c, qualified)
}

#[cycle(reads)]
#[tactic(auto, unfolding(lexer_trees_spec::specs::Reader::comparison), using(lexer_trees_spec::proofs::TreeSteps::op_none, lexer_trees_spec::proofs::TreeSteps::op_counts, lexer_trees_spec::proofs::TreeSteps::op_full))]
fn comparison(
    alloc: Global,
    c: &mut Cursor<'_, '_>,
    qualified: bool,
    depth: u32,
) -> Result<Cond, Stop>
    requires { depth ≤ 32 }
    ensures { Reads test (spec.comparison qualified (spec.can depth) (spec.inside qualified depth)
        c.old.nodes (ahead c.old)) result c.new }
{
    let left = expr(alloc, c, qualified, depth)?;
    let Some(op) = sees_op(c) else {
        return Err(Stop::Unexpected);
    };
    c.step()?;
    let right = expr(alloc, c, qualified, depth)?;
    Ok(Cond::compare(alloc, op, left, right)?)
}

#[cycle(reads)]
#[tactic(auto, unfolding(lexer_trees_spec::specs::Reader::bracketed), using(lexer_combinators::proofs::ReadSteps::lead_seen, lexer_combinators::proofs::ReadSteps::lead_not))]
fn bracketed(
    alloc: Global,
    c: &mut Cursor<'_, '_>,
    qualified: bool,
    inner: u32,
) -> Result<Cond, Stop>
    requires { inner < 32 }
    ensures { Reads test (spec.bracketed qualified true (spec.level qualified inner) c.old.nodes
        (ahead c.old)) result c.new }
{
    let found = cond(alloc, c, qualified, inner)?;
    c.expect_sign(b")")?;
    Ok(found)
}

#[cycle(reads)]
#[tactic(auto, using(lexer_trees_spec::proofs::TreeSteps::fact_not, lexer_trees_spec::proofs::TreeSteps::fact_not_full, lexer_trees_spec::proofs::TreeSteps::fact_not_deep, lexer_trees_spec::proofs::TreeSteps::fact_not_deep_full, lexer_trees_spec::proofs::TreeSteps::fact_bracket, lexer_trees_spec::proofs::TreeSteps::fact_bracket_deep, lexer_trees_spec::proofs::TreeSteps::fact_true, lexer_trees_spec::proofs::TreeSteps::fact_true_full, lexer_trees_spec::proofs::TreeSteps::fact_false, lexer_trees_spec::proofs::TreeSteps::fact_false_full, lexer_trees_spec::proofs::TreeSteps::fact_else))]
/// A condition without AND and OR outside brackets.
pub fn fact(
    alloc: Global,
    c: &mut Cursor<'_, '_>,
    qualified: bool,
    depth: u32,
) -> Result<Cond, Stop>
    requires { depth ≤ 32 }
    ensures { Reads test ((spec.level qualified depth).fact c.old.nodes (ahead c.old))
        result c.new }
{
    if c.sees_word(b"NOT") {
        if depth == 0 {
            return Err(c.too_deep());
        }
        c.step()?;
        let part = fact(alloc, c, qualified, depth - 1)?;
        return Ok(Cond::not(alloc, part)?);
    }
    if c.sees_sign(b"(") {
        if depth == 0 {
            return Err(Stop::TooMany(What::Depth));
        }
        c.skip();
        return bracketed(alloc, c, qualified, depth - 1);
    }
    if c.sees_word(b"TRUE") {
        c.step()?;
        return Ok(truth());
    }
    if c.sees_word(b"FALSE") {
        c.step()?;
        return Ok(falsehood());
    }
    comparison(alloc, c, qualified, depth)
}

#[cycle(reads)]
#[tactic(auto)]
// Each part counts a node, so there are no more than nodes that are left.
fn more_facts(
    alloc: Global,
    c: &mut Cursor<'_, '_>,
    parts: &mut Vec<Cond>,
    qualified: bool,
    depth: u32,
) -> Result<(), Stop>
    requires { depth ≤ 32 }
    ensures { ReadsMore (parsing.nodes_more (is_word (codes "AND"))
        (spec.level qualified depth).fact c.old.nodes (ahead c.old))
        (map test parts.old.items) (map test parts.new.items) result c.new }
{
    let mut left: u32 = 257 - c.nodes;
    while c.sees_word(b"AND") {
        if left == 0 {
            return Err(Stop::TooMany(What::Nodes));
        }
        left -= 1;
        c.skip();
        parts.push(fact(alloc, c, qualified, depth)?)?;
    }
    Ok(())
}

#[cycle(reads)]
#[tactic(auto, unfolding(lexer_trees_spec::specs::Reader::facts), using(lexer_combinators::proofs::ReadSteps::option_not, lexer_combinators::proofs::ReadSteps::option_counts, lexer_combinators::proofs::ReadSteps::option_full))]
fn facts(
    alloc: Global,
    c: &mut Cursor<'_, '_>,
    first: Cond,
    qualified: bool,
    depth: u32,
) -> Result<Cond, Stop>
    requires { depth ≤ 32 }
    ensures { Reads test (spec.facts qualified (spec.can depth) (spec.inside qualified depth)
        (test first) c.old.nodes (ahead c.old)) result c.new }
{
    if !c.sees_word(b"AND") {
        return Ok(first);
    }
    c.step()?;
    let second = fact(alloc, c, qualified, depth)?;
    let mut parts = vec![in alloc; first, second]?;
    more_facts(alloc, c, &mut parts, qualified, depth)?;
    Ok(Cond::and(parts))
}

#[cycle(reads)]
#[tactic(auto, unfolding(lexer_trees_spec::specs::Reader::conj))]
fn conj(alloc: Global, c: &mut Cursor<'_, '_>, qualified: bool, depth: u32) -> Result<Cond, Stop>
    requires { depth ≤ 32 }
    ensures { Reads test (spec.conj qualified (spec.can depth) (spec.inside qualified depth)
        c.old.nodes (ahead c.old)) result c.new }
{
    let first = fact(alloc, c, qualified, depth)?;
    facts(alloc, c, first, qualified, depth)
}

#[cycle(reads)]
#[tactic(auto)]
// Each part counts a node, so there are no more than nodes that are left.
fn more_conjs(
    alloc: Global,
    c: &mut Cursor<'_, '_>,
    parts: &mut Vec<Cond>,
    qualified: bool,
    depth: u32,
) -> Result<(), Stop>
    requires { depth ≤ 32 }
    ensures { ReadsMore (parsing.nodes_more (is_word (codes "OR"))
        (spec.conj qualified (spec.can depth) (spec.inside qualified depth)) c.old.nodes
        (ahead c.old))
        (map test parts.old.items) (map test parts.new.items) result c.new }
{
    let mut left: u32 = 257 - c.nodes;
    while c.sees_word(b"OR") {
        if left == 0 {
            return Err(Stop::TooMany(What::Nodes));
        }
        left -= 1;
        c.skip();
        parts.push(conj(alloc, c, qualified, depth)?)?;
    }
    Ok(())
}

#[cycle(reads)]
#[tactic(auto, unfolding(lexer_trees_spec::specs::Reader::conjs), using(lexer_combinators::proofs::ReadSteps::option_not, lexer_combinators::proofs::ReadSteps::option_counts, lexer_combinators::proofs::ReadSteps::option_full))]
fn conjs(
    alloc: Global,
    c: &mut Cursor<'_, '_>,
    first: Cond,
    qualified: bool,
    depth: u32,
) -> Result<Cond, Stop>
    requires { depth ≤ 32 }
    ensures { Reads test (spec.conjs qualified (spec.can depth) (spec.inside qualified depth)
        (test first) c.old.nodes (ahead c.old)) result c.new }
{
    if !c.sees_word(b"OR") {
        return Ok(first);
    }
    c.step()?;
    let second = conj(alloc, c, qualified, depth)?;
    let mut parts = vec![in alloc; first, second]?;
    more_conjs(alloc, c, &mut parts, qualified, depth)?;
    Ok(Cond::or(parts))
}

#[cycle(reads)]
#[tactic(auto, unfolding(lexer_trees_spec::specs::Reader::cond))]
/// A condition, inside which so many constructs may be opened.
pub fn cond(
    alloc: Global,
    c: &mut Cursor<'_, '_>,
    qualified: bool,
    depth: u32,
) -> Result<Cond, Stop>
    requires { depth ≤ 32 }
    ensures { Reads test ((spec.level qualified depth).cond c.old.nodes (ahead c.old))
        result c.new }
{
    let first = conj(alloc, c, qualified, depth)?;
    conjs(alloc, c, first, qualified, depth)
}

/// An expression inside which nothing is open yet.
#[tactic(auto, unfolding(lexer_trees_spec::specs::Reader::outermost))]
pub fn outer_expr(alloc: Global, c: &mut Cursor<'_, '_>, qualified: bool) -> Result<Expr, Stop>
    ensures { Reads tree ((spec.outermost qualified).expr c.old.nodes (ahead c.old)) result c.new }
{
    expr(alloc, c, qualified, MOST_OPEN)
}

/// A condition inside which nothing is open yet.
#[tactic(auto, unfolding(lexer_trees_spec::specs::Reader::outermost))]
pub fn outer_cond(alloc: Global, c: &mut Cursor<'_, '_>, qualified: bool) -> Result<Cond, Stop>
    ensures { Reads test ((spec.outermost qualified).cond c.old.nodes (ahead c.old)) result c.new }
{
    cond(alloc, c, qualified, MOST_OPEN)
}

/// An expression with counts of its own: 256 nodes and 32 open constructs, whatever was counted
/// before it. After it the cursor's count is as it was, whatever the answer.
#[tactic(auto, using(lexer_combinators::proofs::ReadSteps::fresh_fails))]
pub fn fresh_expr(alloc: Global, c: &mut Cursor<'_, '_>, qualified: bool) -> Result<Expr, Stop>
    ensures read { Reads tree (parsing.fresh (spec.outermost qualified).expr c.old.nodes
        (ahead c.old)) result c.new }
    ensures count { c.new.nodes ≡ c.old.nodes }
{
    let before = c.nodes;
    c.nodes = 0;
    let found = outer_expr(alloc, c, qualified);
    c.nodes = before;
    found
}

/// A condition with counts of its own, as `fresh_expr`.
#[tactic(auto, using(lexer_combinators::proofs::ReadSteps::fresh_fails))]
pub fn fresh_cond(alloc: Global, c: &mut Cursor<'_, '_>, qualified: bool) -> Result<Cond, Stop>
    ensures read { Reads test (parsing.fresh (spec.outermost qualified).cond c.old.nodes
        (ahead c.old)) result c.new }
    ensures count { c.new.nodes ≡ c.old.nodes }
{
    let counted = c.nodes;
    c.nodes = 0;
    let found = outer_cond(alloc, c, qualified);
    c.nodes = counted;
    found
}

/// The condition after a WHERE, where one comes, and else TRUE; counted with what was counted
/// before it.
#[tactic(auto, unfolding(lexer_trees_spec::specs::Where::outer_where), using(lexer_combinators::proofs::ReadSteps::option_not, lexer_combinators::proofs::ReadSteps::option_takes))]
pub fn outer_where(alloc: Global, c: &mut Cursor<'_, '_>, qualified: bool) -> Result<Cond, Stop>
    ensures { Reads test (wheres.outer_where qualified c.old.nodes (ahead c.old)) result c.new }
{
    if !c.sees_word(b"WHERE") {
        return Ok(truth());
    }
    c.skip();
    outer_cond(alloc, c, qualified)
}

/// The condition after a WHERE, where one comes, and else TRUE; with counts of its own, as
/// `fresh_cond`.
#[tactic(auto, unfolding(lexer_trees_spec::specs::Where::fresh_where), using(lexer_combinators::proofs::ReadSteps::option_not, lexer_combinators::proofs::ReadSteps::option_takes))]
pub fn fresh_where(alloc: Global, c: &mut Cursor<'_, '_>, qualified: bool) -> Result<Cond, Stop>
    ensures read { Reads test (wheres.fresh_where qualified c.old.nodes (ahead c.old)) result
        c.new }
    ensures count { c.new.nodes ≡ c.old.nodes }
{
    if !c.sees_word(b"WHERE") {
        return Ok(truth());
    }
    c.skip();
    fresh_cond(alloc, c, qualified)
}
