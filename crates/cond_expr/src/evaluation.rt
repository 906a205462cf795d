ghost use Rattle.std.specs.Prelude.{◌≡◌, ◌≤◌, ◌++◌, map, length, take, pos, IfOk, ℕ, List};
ghost use Rattle.prima_base.specs.Bytes.{IsTxt};
ghost use Rattle.prima_base.specs.Order.{shown, bytes_of, is_borrowed, IsBorrowed};
ghost use Rattle.cond_expr.specs.Trees.{column};
ghost use Rattle.cond_expr.specs.Values.{value, texts, truth, all_true, some_true};
ghost use Rattle.cond_expr.specs.Values.{agrees, chosen};
ghost use Rattle.cond_expr.specs.Seen.{tree, test, trees_of, tests_of};
ghost use Rattle.cond_expr.specs.Rows.{flat, IsValid, AreValid, lies_elsewhere};
ghost use Rattle.cond_expr.specs.declared.expr.Whose.{Whose as WhoseColumn};

use crate::{CmpOp, ColRef, Column, Cond, Expr};
use prima_base::limits::MAX_TEXT;
use prima_base::{NoMemory, Txt, Val};
use std::alloc::Global;
use std::cmp::Ordering;

// The value of the first column that the reference names.
fn look_up<'a>(
    columns: &[Column],
    values: &[Val<'a>],
    reference: &ColRef,
) -> Result<Val<'a>, NoMemory>
    requires { AreValid values.now }
    ensures value { IfOk result (λ w. shown w
        ≡ flat columns.now values.now reference.now.whose reference.now.name) }
    ensures valid { IfOk result (λ w. IsValid (shown w)) }
    ensures borrowed { IfOk result (λ w. is_borrowed w
        ≡ lies_elsewhere columns.now values.now reference.now.whose reference.now.name) }
{
    match columns {
        [] => Ok(Val::Int(0)),
        [first, rest @ ..] => match values {
            [] => Ok(Val::Int(0)),
            [value, more @ ..] => {
                if reference.names(first) {
                    return value.copy();
                }
                look_up(rest, more, reference)
            }
        },
    }
}

// The same, borrowed.
fn lend_column<'a>(columns: &[Column], values: &'a [Val<'_>], reference: &ColRef) -> Val<'a>
    requires { AreValid values.now }
    ensures value { shown result
        ≡ flat columns.now values.now reference.now.whose reference.now.name }
    ensures valid { IsValid (shown result) }
    ensures borrowed { IsBorrowed result }
{
    match columns {
        [] => Val::Int(0),
        [first, rest @ ..] => match values {
            [] => Val::Int(0),
            [value, more @ ..] => {
                if reference.names(first) {
                    return value.lend();
                }
                lend_column(rest, more, reference)
            }
        },
    }
}

// The bytes of a text, and none of a number.
fn bytes_of<'v>(v: &'v Val<'_>) -> &'v [u8]
    ensures { result.now ≡ bytes_of (shown v.now) }
{
    match v {
        Val::Int(_) => &[],
        Val::Slice(bytes) => bytes,
        Val::Own(text) => text.bytes(),
    }
}

fn byte_count(v: &Val<'_>) -> i64
    ensures { result ≡ pos (length (bytes_of (shown v.now))) }
{
    match v {
        Val::Int(_) => 0,
        Val::Slice(bytes) => bytes.len() as i64,
        Val::Own(text) => text.bytes().len() as i64,
    }
}

// Appends what fits of a value's bytes.
fn append(joined: &mut Vec<u8>, v: &Val<'_>) -> Result<(), NoMemory>
    requires room { length joined.old.items ≤ 4096 }
    requires text { IsTxt joined.old.items }
    requires valid { IsValid (shown v.now) }
    ensures bytes { IfOk result (λ _. joined.new.items
        ≡ take 4096 (joined.old.items ++ bytes_of (shown v.now))) }
    ensures text { IfOk result (λ _. IsTxt joined.new.items) }
{
    let bytes = bytes_of(v);
    let room = MAX_TEXT - joined.len();
    let fits = room.min(bytes.len());
    joined.extend_from_slice(&bytes[..fits])?;
    Ok(())
}

/// Whether two values in this order meet the comparison. It takes no memory.
pub fn decide(op: CmpOp, order: Ordering) -> bool
    ensures { result ≡ agrees op order }
{
    match op {
        CmpOp::Eq => order == Ordering::Equal,
        CmpOp::Ne => order != Ordering::Equal,
        CmpOp::Lt => order == Ordering::Less,
        CmpOp::Le => order != Ordering::Greater,
        CmpOp::Gt => order == Ordering::Greater,
        CmpOp::Ge => order != Ordering::Less,
    }
}

/// The value of an expression over one value a column. The value of a plain column stays borrowed
/// where it was, also where a CASE chooses it. It fails only when out of memory.
///
/// The values are valid: a text among them has at most 4,096 bytes and no control byte.
/// `Value::lend` and `lend_row` give valid ones of any `Value`; of values that a store lends, its
/// scan's contract has to say it. The constants of a tree are `Value`s, and so valid as they are.
///
/// Where `type_of` accepts the expression, and the values are of the columns' types, one for one,
/// the value is of that type (`accepted_has_a_value_of_its_type`). Elsewhere it is the one of the
/// definition, which speaks of all trees: a reference that names no column, or a column without a
/// value, has the value 0, and a number has no bytes.
#[cycle(eval)]
pub fn eval<'a>(
    alloc: Global,
    expr: &Expr,
    columns: &[Column],
    values: &[Val<'a>],
) -> Result<Val<'a>, NoMemory>
    requires { AreValid values.now }
    ensures value { IfOk result (λ v. shown v
        ≡ value (flat columns.now values.now) (tree expr.now)) }
    ensures valid { IfOk result (λ v. IsValid (shown v)) }
    ensures borrowed { IfOk result (λ v. (w : WhoseColumn) → (n : List ℕ)
        → chosen (flat columns.now values.now) (tree expr.now) ≡ column w n
        → is_borrowed v ≡ lies_elsewhere columns.now values.now w n) }
{
    match expr {
        Expr::Col(reference) => look_up(columns, values, reference),
        Expr::Const(constant) => constant.to_val(),
        Expr::Length(part) => {
            let v = eval(alloc, part, columns, values)?;
            Ok(Val::Int(byte_count(&v)))
        }
        Expr::Concat(parts) => Ok(Val::Own(join(alloc, parts, columns, values)?)),
        Expr::Case(cond, first, second) => {
            if holds(alloc, cond, columns, values)? {
                return eval(alloc, first, columns, values);
            }
            eval(alloc, second, columns, values)
        }
    }
}

// The first bytes of the joined texts.
#[cycle(eval)]
fn join(
    alloc: Global,
    parts: &[Expr],
    columns: &[Column],
    values: &[Val<'_>],
) -> Result<Txt, NoMemory>
    requires { AreValid values.now }
    ensures value { IfOk result (λ t. t ≡ take 4096
        (texts (flat columns.now values.now) (trees_of (map tree parts.now)))) }
    ensures valid { IfOk result (λ t. IsTxt t) }
{
    let mut joined = Vec::new(alloc);
    for part in parts {
        let v = eval(alloc, part, columns, values)?;
        append(&mut joined, &v)?;
    }
    Ok(Txt::owning(alloc, joined))
}

// A side of a comparison: a constant and the value of a plain column are borrowed, so that a
// condition over many rows copies no text that it only compares.
#[cycle(eval)]
fn side<'a>(
    alloc: Global,
    expr: &'a Expr,
    columns: &[Column],
    values: &'a [Val<'_>],
) -> Result<Val<'a>, NoMemory>
    requires { AreValid values.now }
    ensures value { IfOk result (λ v. shown v
        ≡ value (flat columns.now values.now) (tree expr.now)) }
    ensures valid { IfOk result (λ v. IsValid (shown v)) }
    ensures borrowed { IfOk result (λ v. (w : WhoseColumn) → (n : List ℕ)
        → tree expr.now ≡ column w n → IsBorrowed v) }
{
    match expr {
        Expr::Col(reference) => Ok(lend_column(columns, values, reference)),
        Expr::Const(constant) => Ok(constant.lend()),
        _ => eval(alloc, expr, columns, values),
    }
}

/// Whether a condition holds over one value a column. It fails only when out of memory.
///
/// The values are valid, as for `eval`. Where `check_cond` accepts the condition, and the values
/// are of the columns' types, one for one, each comparison is between two values of one type.
/// Elsewhere an INT is before a TEXT.
#[cycle(eval)]
pub fn holds(
    alloc: Global,
    cond: &Cond,
    columns: &[Column],
    values: &[Val<'_>],
) -> Result<bool, NoMemory>
    requires { AreValid values.now }
    ensures { IfOk result (λ b. b ≡ truth (flat columns.now values.now) (test cond.now)) }
{
    match cond {
        Cond::False => Ok(false),
        Cond::True => Ok(true),
        Cond::Cmp(op, left, right) => {
            let left = side(alloc, left, columns, values)?;
            let right = side(alloc, right, columns, values)?;
            Ok(decide(*op, left.compare(&right)))
        }
        Cond::And(parts) => all_hold(alloc, parts, columns, values),
        Cond::Or(parts) => some_hold(alloc, parts, columns, values),
        Cond::Not(part) => Ok(!holds(alloc, part, columns, values)?),
    }
}

#[cycle(eval)]
fn all_hold(
    alloc: Global,
    parts: &[Cond],
    columns: &[Column],
    values: &[Val<'_>],
) -> Result<bool, NoMemory>
    requires { AreValid values.now }
    ensures { IfOk result (λ b. b ≡ all_true (flat columns.now values.now)
        (tests_of (map test parts.now))) }
{
    for part in parts {
        if !holds(alloc, part, columns, values)? {
            return Ok(false);
        }
    }
    Ok(true)
}

#[cycle(eval)]
fn some_hold(
    alloc: Global,
    parts: &[Cond],
    columns: &[Column],
    values: &[Val<'_>],
) -> Result<bool, NoMemory>
    requires { AreValid values.now }
    ensures { IfOk result (λ b. b ≡ some_true (flat columns.now values.now)
        (tests_of (map test parts.now))) }
{
    for part in parts {
        if holds(alloc, part, columns, values)? {
            return Ok(true);
        }
    }
    Ok(false)
}
