ghost use Rattle.std.specs.Prelude.{◌≡◌, None, map, IfOk, OnOk, IfErr};
ghost use Rattle.smo_ops_types.specs.Operators.{operator_of};
ghost use Rattle.smo_ops_spec.specs.After.{op_fault, schema_after, IsValid};
ghost use Rattle.piece_ir_spec.specs.Typed.{IsTyped};
ghost use Rattle.piece_ir_spec.specs.Rules.{IsValidBook};
ghost use Rattle.piece_ir_spec.specs.Books.{book_of, AreValidRules, HasEachKind};
ghost use Rattle.piece_ir_spec.specs.Books.{first_twice as twice, first_missing as missing};
ghost use Rattle.piece_prune.specs.Shown.{piece_of, shown_pieces};
ghost use Rattle.rewrite_rules_book.specs.Faults.{IsBookChecked, IsFault};
ghost use Rattle.rewrite_rules_book.specs.LivingPieces.{AllLiving};

use crate::Rule;
use crate::kind::{first_missing, first_twice, kind_of, same_kind};
use piece_prune::Piece;
use prima_base::{NoMemory, OpKind};
use schema_catalog::Schema;
use smo_ops_types::Op;
use std::alloc::Global;

/// Why boxed rules make no book.
#[derive(Drop)]
pub enum BookFault {
    /// The kind of the first rule of whose kind one stood before.
    Twice(OpKind),
    /// No kind stands twice; the first kind, in the order of the table of operators, of which there
    /// is no rule.
    Missing(OpKind),
    /// Memory ran out.
    NoMemory,
}

impl From<NoMemory> for BookFault {
    ghost use Rattle.std.specs.Prelude.{◌≡◌};
    ghost use Rattle.rewrite_rules_book.specs.declared.book.BookFault.TheVariants.{NoMemory as OutOfMemory};

    ghost from_gives = { λ _ e. e ≡ OutOfMemory };

    fn from(_error: NoMemory) -> BookFault {
        BookFault::NoMemory
    }
}

// The kinds of the rules, in their order.
fn kinds_of<R: Rule>(alloc: Global, rules: &[R]) -> Result<Vec<OpKind>, NoMemory>
    ensures { IfOk result (λ v. v.items ≡ map R.handles rules.now) }
{
    let mut kinds = Vec::with_capacity(alloc, rules.len())?;
    for rule in rules {
        kinds.push(rule.kind())?;
    }
    Ok(kinds)
}

fn check(kinds: &[OpKind]) -> Result<(), BookFault>
    ensures { IsBookChecked kinds.now result }
{
    if let Some(kind) = first_twice(kinds) {
        return Err(BookFault::Twice(kind));
    }
    if let Some(kind) = first_missing(kinds) {
        return Err(BookFault::Missing(kind));
    }
    Ok(())
}

fn check_rules<R: Rule>(alloc: Global, rules: &[R]) -> Result<(), BookFault>
    ensures checked { IsBookChecked (map R.handles rules.now) result }
    ensures each { OnOk result (missing (map R.handles rules.now) ≡ None) }
    ensures once { OnOk result (twice (map R.handles rules.now) ≡ None) }
{
    let kinds = kinds_of(alloc, rules)?;
    check(&kinds)?;
    Ok(())
}

// Each of them is valid.
fn all_known<R: Rule>(rules: &[R])
    ensures { AreValidRules R.handles R.answers rules.now }
{
    match rules {
        [] => {}
        [rule, rest @ ..] => {
            rule.kind();
            all_known(rest);
        }
    }
}

// What the first rule of the operator's kind answers; where there is none, no piece.
fn rewrite_by<R: Rule>(
    alloc: Global,
    rules: &[R],
    op: &Op,
    before: &Schema,
    piece: &Piece,
) -> Result<Vec<Piece>, NoMemory>
    requires valid { IsValid before.now }
    requires accepted { op_fault before.now (operator_of op.now) ≡ None }
    requires typed { IsTyped (schema_after before.now (operator_of op.now)) (piece_of piece.now) }
    ensures is { IfOk result (λ news. shown_pieces news.items
        ≡ book_of R.handles R.answers rules.now (operator_of op.now) before.now
        (piece_of piece.now)) }
    ensures living { IfOk result (λ news. AllLiving (shown_pieces news.items)) }
{
    match rules {
        [] => Ok(Vec::new(alloc)),
        [rule, rest @ ..] => {
            if same_kind(rule.kind(), kind_of(op)) {
                return rule.rewrite(alloc, op, before, piece);
            }
            rewrite_by(alloc, rest, op, before, piece)
        }
    }
}

// With a rule of each kind they are a valid book.
fn known<R: Rule>(rules: &[R])
    requires { missing (map R.handles rules.now) ≡ None }
    ensures { IsValidBook (book_of R.handles R.answers rules.now) }
{
    all_known(rules);
}

/// Rules, mostly boxed: one for each kind of operator, in a book that `new` makes.
#[derive(Drop)]
pub struct RuleBook<R: Rule> {
    /// The rules, in their order.
    pub rules: Vec<R>,
    // no kind of operator is without a rule
    pub ghost each: { missing (map R.handles rules.items) ≡ None },
}

impl<R: Rule> RuleBook<R> {
    /// The book of these rules, in their order.
    ///
    /// `Twice` exactly where a rule's kind stood before, with the first such kind; then `Missing`
    /// exactly where of a kind there is no rule, with the first such kind. `NoMemory` where memory
    /// runs out.
    pub fn new(alloc: Global, rules: Vec<R>) -> Result<RuleBook<R>, BookFault>
        ensures same { IfOk result (λ book. book.rules.items ≡ rules.items) }
        ensures each { IfOk result (λ book. HasEachKind R.handles book.rules.items) }
        ensures once { IfOk result (λ book. twice (map R.handles book.rules.items) ≡ None) }
        ensures fault { IfErr result (λ fault. IsFault (map R.handles rules.items) fault) }
    {
        check_rules(alloc, &rules)?;
        Ok(RuleBook { rules })
    }

    /// Nothing is done: the book is valid.
    pub fn known(&self)
        ensures { IsValidBook (book_of R.handles R.answers self.now.rules.items) }
    {
        known(&self.rules);
    }

    /// What the rule of the operator's kind answers, none of which is dead. The operator is accepted
    /// on the valid schema before it, and the piece is well-typed over the schema after it. The one
    /// error is `NoMemory`, where memory runs out.
    pub fn rewrite(
        &self,
        alloc: Global,
        op: &Op,
        before: &Schema,
        piece: &Piece,
    ) -> Result<Vec<Piece>, NoMemory>
        requires valid { IsValid before.now }
        requires accepted { op_fault before.now (operator_of op.now) ≡ None }
        requires typed { IsTyped (schema_after before.now (operator_of op.now))
            (piece_of piece.now) }
        ensures is { IfOk result (λ news. shown_pieces news.items
            ≡ book_of R.handles R.answers self.now.rules.items (operator_of op.now) before.now
            (piece_of piece.now)) }
        ensures living { IfOk result (λ news. AllLiving (shown_pieces news.items)) }
    {
        rewrite_by(alloc, &self.rules, op, before, piece)
    }
}
