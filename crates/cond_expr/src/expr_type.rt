ghost use Rattle.std.specs.Prelude.{◌≡◌, ◌+◌, ◌<◌, ◌^◌, ◌⊎◌, ℕ, List, Some, None, Ok, Err, true};
ghost use Rattle.std.specs.Prelude.{map, IfOk, MatchOption, MatchResult, IsOk, OnOk};
ghost use Rattle.prima_base.specs.declared.value.ColType.{ColType as Kind};
ghost use Rattle.cond_expr.specs.declared.fault.TypeFault.TheVariants.{NoColumn, WrongType};
ghost use Rattle.cond_expr.specs.declared.fault.TypeFault.TheVariants.{NoMemory as OutOfMemory};
ghost use Rattle.cond_expr.specs.Trees.{length_of, joined};
ghost use Rattle.cond_expr.specs.Seen.{tree, test, trees_of, tests_of};
ghost use Rattle.cond_expr.specs.Sizes.{nodes_of, trees_nodes, test_nodes, tests_nodes};
ghost use Rattle.cond_expr.specs.Kinds.{kinds_of, kind_of, is_typed, value_kind};
ghost use Rattle.cond_expr.specs.Faults.{references, trees_references, test_references};
ghost use Rattle.cond_expr.specs.Faults.{tests_references, first_unknown, untyped, test_untyped};
ghost use Rattle.cond_expr.specs.Faults.{first_of};
ghost use Rattle.cond_expr.specs.TypeChecks.{Checked, TestChecked};
ghost use Rattle.cond_expr.specs.Walks.{Walked, TreesWalked, TestWalked, TestsWalked};

use crate::{ColRef, Column, Cond, Expr, TypeFault};
use prima_base::{ColType, Name, Value};

/// The type of an expression that has one, and how many nodes the expression has.
#[derive(Clone, Copy)]
pub struct TypedExpr {
    /// Its type.
    pub kind: ColType,
    /// The expressions and conditions in it, itself included.
    pub nodes: u32,
}

/// An expression's type, and the number of the node after it.
#[derive(Clone, Copy)]
pub(crate) struct Typed {
    kind: ColType,
    next: u32,
}

/// Whether all parts of a list are texts, and the number of the node after them.
#[derive(Clone, Copy)]
pub(crate) struct Parts {
    texts: bool,
    next: u32,
}

/// The type of a value. It takes no memory.
pub fn value_kind(value: &Value) -> ColType
    ensures { result ≡ value_kind value.now }
{
    match value {
        Value::Int(_) => ColType::Int,
        Value::Text(_) => ColType::Text,
    }
}

// The type of the first column that the reference names.
fn column_kind(reference: &ColRef, columns: &[Column]) -> Option<ColType>
    ensures { result ≡ kinds_of columns.now reference.now.whose reference.now.name }
{
    for column in columns {
        if reference.names(column) {
            return Some(column.kind);
        }
    }
    None
}

// The name of the first reference, in written order, that names no column.
#[cycle(unknown)]
fn first_unknown<'e>(expr: &'e Expr, columns: &[Column]) -> Option<&'e Name>
    ensures { MatchOption result (first_unknown (kinds_of columns.now) (references (tree expr.now))
        ≡ None)
        (λ n. first_unknown (kinds_of columns.now) (references (tree expr.now)) ≡ Some n.now) }
{
    match expr {
        Expr::Col(reference) => match column_kind(reference, columns) {
            Some(_) => None,
            None => Some(&reference.name),
        },
        Expr::Const(_) => None,
        Expr::Length(part) => first_unknown(part, columns),
        Expr::Concat(parts) => first_unknown_of_list(parts, columns),
        Expr::Case(cond, first, second) => {
            if let Some(name) = first_unknown_of_cond(cond, columns) {
                return Some(name);
            }
            if let Some(name) = first_unknown(first, columns) {
                return Some(name);
            }
            first_unknown(second, columns)
        }
    }
}

#[cycle(unknown)]
fn first_unknown_of_list<'e>(list: &'e [Expr], columns: &[Column]) -> Option<&'e Name>
    ensures { MatchOption result (first_unknown (kinds_of columns.now)
        (trees_references (trees_of (map tree list.now))) ≡ None)
        (λ n. first_unknown (kinds_of columns.now) (trees_references (trees_of (map tree list.now)))
        ≡ Some n.now) }
{
    for part in list {
        if let Some(name) = first_unknown(part, columns) {
            return Some(name);
        }
    }
    None
}

#[cycle(unknown)]
fn first_unknown_of_cond<'e>(cond: &'e Cond, columns: &[Column]) -> Option<&'e Name>
    ensures { MatchOption result (first_unknown (kinds_of columns.now)
        (test_references (test cond.now)) ≡ None)
        (λ n. first_unknown (kinds_of columns.now) (test_references (test cond.now)) ≡ Some n.now) }
{
    match cond {
        Cond::False | Cond::True => None,
        Cond::Cmp(_, left, right) => {
            if let Some(name) = first_unknown(left, columns) {
                return Some(name);
            }
            first_unknown(right, columns)
        }
        Cond::And(parts) => first_unknown_of_conds(parts, columns),
        Cond::Or(parts) => first_unknown_of_conds(parts, columns),
        Cond::Not(part) => first_unknown_of_cond(part, columns),
    }
}

#[cycle(unknown)]
fn first_unknown_of_conds<'e>(list: &'e [Cond], columns: &[Column]) -> Option<&'e Name>
    ensures { MatchOption result (first_unknown (kinds_of columns.now)
        (tests_references (tests_of (map test list.now))) ≡ None)
        (λ n. first_unknown (kinds_of columns.now) (tests_references (tests_of (map test list.now)))
        ≡ Some n.now) }
{
    for part in list {
        if let Some(name) = first_unknown_of_cond(part, columns) {
            return Some(name);
        }
    }
    None
}

// The type of an expression whose first node has the number `at`, or the number of the first node
// that has none.
#[cycle(types)]
fn type_at(expr: &Expr, columns: &[Column], at: u32) -> Result<Typed, u32>
    requires { at + nodes_of (tree expr.now) < 2 ^ 32 }
    ensures { Walked (kinds_of columns.now) at (tree expr.now) result }
{
    match expr {
        Expr::Col(reference) => match column_kind(reference, columns) {
            Some(kind) => Ok(Typed { kind, next: at + 1 }),
            None => Err(at),
        },
        Expr::Const(Value::Int(_)) => Ok(Typed {
            kind: ColType::Int,
            next: at + 1,
        }),
        Expr::Const(Value::Text(_)) => Ok(Typed {
            kind: ColType::Text,
            next: at + 1,
        }),
        Expr::Length(part) => length_at(part, columns, at),
        Expr::Concat(parts) => concat_at(parts, columns, at),
        Expr::Case(cond, first, second) => {
            let next = cond_at(cond, columns, at + 1)?;
            let first = type_at(first, columns, next)?;
            let second = type_at(second, columns, first.next)?;
            if first.kind == second.kind {
                return Ok(second);
            }
            Err(at)
        }
    }
}

#[cycle(types)]
fn length_at(part: &Expr, columns: &[Column], at: u32) -> Result<Typed, u32>
    requires { at + nodes_of (length_of (tree part.now)) < 2 ^ 32 }
    ensures { Walked (kinds_of columns.now) at (length_of (tree part.now)) result }
{
    match type_at(part, columns, at + 1) {
        Ok(
            Typed {
                kind: ColType::Text,
                next,
            },
        ) => Ok(Typed {
            kind: ColType::Int,
            next,
        }),
        Ok(_) => Err(at),
        Err(place) => Err(place),
    }
}

#[cycle(types)]
fn concat_at(parts: &[Expr], columns: &[Column], at: u32) -> Result<Typed, u32>
    requires { at + nodes_of (joined (trees_of (map tree parts.now))) < 2 ^ 32 }
    ensures { Walked (kinds_of columns.now) at (joined (trees_of (map tree parts.now))) result }
{
    match list_at(parts, columns, at + 1) {
        Ok(Parts { texts: true, next }) => Ok(Typed {
            kind: ColType::Text,
            next,
        }),
        Ok(_) => Err(at),
        Err(place) => Err(place),
    }
}

// Whether all of a list are texts, whose first node has the number `at`.
#[cycle(types)]
fn list_at(list: &[Expr], columns: &[Column], at: u32) -> Result<Parts, u32>
    requires { at + trees_nodes (trees_of (map tree list.now)) < 2 ^ 32 }
    ensures { TreesWalked (kinds_of columns.now) at (trees_of (map tree list.now)) result }
{
    let mut walked = Parts {
        texts: true,
        next: at,
    };
    for part in list {
        let typed = type_at(part, columns, walked.next)?;
        walked = Parts {
            texts: walked.texts && typed.kind == ColType::Text,
            next: typed.next,
        };
    }
    Ok(walked)
}

// The number of the node after a condition whose first node has the number `at`, or the number of
// the first node that has no type.
#[cycle(types)]
fn cond_at(cond: &Cond, columns: &[Column], at: u32) -> Result<u32, u32>
    requires { at + test_nodes (test cond.now) < 2 ^ 32 }
    ensures { TestWalked (kinds_of columns.now) at (test cond.now) result }
{
    match cond {
        Cond::False | Cond::True => Ok(at + 1),
        Cond::Cmp(_, left, right) => {
            let left = type_at(left, columns, at + 1)?;
            let right = type_at(right, columns, left.next)?;
            if left.kind == right.kind {
                return Ok(right.next);
            }
            Err(at)
        }
        Cond::And(parts) => conds_at(parts, columns, at + 1),
        Cond::Or(parts) => conds_at(parts, columns, at + 1),
        Cond::Not(part) => cond_at(part, columns, at + 1),
    }
}

#[cycle(types)]
fn conds_at(list: &[Cond], columns: &[Column], at: u32) -> Result<u32, u32>
    requires { at + tests_nodes (tests_of (map test list.now)) < 2 ^ 32 }
    ensures { TestsWalked (kinds_of columns.now) at (tests_of (map test list.now)) result }
{
    let mut next = at;
    for part in list {
        next = cond_at(part, columns, next)?;
    }
    Ok(next)
}

/// The name of the first reference of an expression, in written order, that names no column. It
/// takes no memory.
pub fn unknown_of_expr<'e>(expr: &'e Expr, columns: &[Column]) -> Option<&'e Name>
    ensures { MatchOption result (first_unknown (kinds_of columns.now) (references (tree expr.now))
        ≡ None)
        (λ n. first_unknown (kinds_of columns.now) (references (tree expr.now)) ≡ Some n.now) }
{
    first_unknown(expr, columns)
}

/// The name of the first reference of a condition, in written order, that names no column. It takes
/// no memory.
pub fn unknown_of_cond<'e>(cond: &'e Cond, columns: &[Column]) -> Option<&'e Name>
    ensures { MatchOption result (first_unknown (kinds_of columns.now)
        (test_references (test cond.now)) ≡ None)
        (λ n. first_unknown (kinds_of columns.now) (test_references (test cond.now)) ≡ Some n.now) }
{
    first_unknown_of_cond(cond, columns)
}

/// The type of an expression and its number of nodes, or the number, in pre-order from 0, of the
/// first node whose parts have types that it does not take, parts before their node and left before
/// right; a reference that names no column is such a node. It takes no memory.
pub fn typed_expr(expr: &Expr, columns: &[Column]) -> Result<TypedExpr, u32>
    requires { nodes_of (tree expr.now) < 2 ^ 32 }
    ensures kind { IfOk result (λ t. kind_of (kinds_of columns.now) (tree expr.now)
        ≡ Some t.kind) }
    ensures nodes { IfOk result (λ t. t.nodes ≡ nodes_of (tree expr.now)) }
    ensures place { MatchResult result (λ _. first_of
        (untyped (kinds_of columns.now) 0 (tree expr.now)) ≡ None)
        (λ p. first_of (untyped (kinds_of columns.now) 0 (tree expr.now)) ≡ Some p) }
{
    match type_at(expr, columns, 0) {
        Ok(typed) => Ok(TypedExpr {
            kind: typed.kind,
            nodes: typed.next,
        }),
        Err(place) => Err(place),
    }
}

/// Whether a condition is well-typed, and then its number of nodes; if not, the number of the first
/// node that is not, as for `typed_expr`. It takes no memory.
pub fn typed_cond(cond: &Cond, columns: &[Column]) -> Result<u32, u32>
    requires { test_nodes (test cond.now) < 2 ^ 32 }
    ensures nodes { IfOk result (λ n. n ≡ test_nodes (test cond.now)) }
    ensures typed { OnOk result (is_typed (kinds_of columns.now) (test cond.now) ≡ true) }
    ensures place { MatchResult result (λ _. first_of
        (test_untyped (kinds_of columns.now) 0 (test cond.now)) ≡ None)
        (λ p. first_of (test_untyped (kinds_of columns.now) 0 (test cond.now)) ≡ Some p) }
{
    match cond_at(cond, columns, 0) {
        Ok(next) => Ok(next),
        Err(place) => Err(place),
    }
}

/// The type of an expression over some columns. The first column that a reference names decides.
///
/// The first unknown reference, in written order, comes before all types; then the first node whose
/// parts have types that it does not take, parts before their node and left before right.
/// `NoMemory` comes only where the name of an unknown reference is to be copied. The tree has fewer
/// than 2^32 nodes, so that each has a number that fits `WrongType`: `expr_size` counts them.
#[tactic(auto, using(crate::proofs::FaultLaws::known_typed))]
pub fn type_of(expr: &Expr, columns: &[Column]) -> Result<ColType, TypeFault>
    requires { nodes_of (tree expr.now) < 2 ^ 32 }
    ensures checked { Checked (kinds_of columns.now) (tree expr.now) result }
    ensures typed { (k : Kind) → kind_of (kinds_of columns.now) (tree expr.now) ≡ Some k
        → result ≡ Ok k }
    ensures unknown { (n : List ℕ) → first_unknown (kinds_of columns.now)
        (references (tree expr.now)) ≡ Some n
        → (result ≡ Err (NoColumn n)) ⊎ (result ≡ Err OutOfMemory) }
    ensures wrong { (p : ℕ) → first_unknown (kinds_of columns.now) (references (tree expr.now))
        ≡ None
        → first_of (untyped (kinds_of columns.now) 0 (tree expr.now)) ≡ Some p
        → result ≡ Err (WrongType p) }
{
    if let Some(name) = first_unknown(expr, columns) {
        return Err(TypeFault::NoColumn(name.copy()?));
    }
    match type_at(expr, columns, 0) {
        Ok(typed) => Ok(typed.kind),
        Err(place) => Err(TypeFault::WrongType(place)),
    }
}

/// Whether a condition is well-typed over some columns. The first column that a reference names
/// decides.
///
/// The faults and their order are those of `type_of`. The tree has fewer than 2^32 nodes, so that
/// each has a number that fits `WrongType`: `cond_size` counts them.
#[tactic(auto, using(crate::proofs::FaultLaws::known_test))]
pub fn check_cond(cond: &Cond, columns: &[Column]) -> Result<(), TypeFault>
    requires { test_nodes (test cond.now) < 2 ^ 32 }
    ensures checked { TestChecked (kinds_of columns.now) (test cond.now) result }
    ensures typed { is_typed (kinds_of columns.now) (test cond.now) ≡ true → IsOk result }
    ensures unknown { (n : List ℕ) → first_unknown (kinds_of columns.now)
        (test_references (test cond.now)) ≡ Some n
        → (result ≡ Err (NoColumn n)) ⊎ (result ≡ Err OutOfMemory) }
    ensures wrong { (p : ℕ) → first_unknown (kinds_of columns.now) (test_references (test cond.now))
        ≡ None
        → first_of (test_untyped (kinds_of columns.now) 0 (test cond.now)) ≡ Some p
        → result ≡ Err (WrongType p) }
{
    if let Some(name) = first_unknown_of_cond(cond, columns) {
        return Err(TypeFault::NoColumn(name.copy()?));
    }
    match cond_at(cond, columns, 0) {
        Ok(_) => Ok(()),
        Err(place) => Err(TypeFault::WrongType(place)),
    }
}
