//! Reading of expressions that have no parts, and of signs.

ghost use Rattle.std.specs.Prelude.{◌≡◌, ◌+◌, ◌-◌, ◌^◌, ◌≤◌, ◌<◌, ℕ, ℤ, List, length, drop, map};
ghost use Rattle.std.specs.Prelude.{true, false, codes, IfOk, IfErr, OnOk, OnErr, Some};
ghost use Rattle.std.specs.Option.{option_map};
ghost use Rattle.prima_base.specs.declared.refusal.What.TheVariants as what;
ghost use Rattle.cond_expr.specs.Seen.{tree, test};
ghost use Rattle.cond_expr.specs.Trees.{constant, always, never};
ghost use Rattle.prima_base.specs.Bytes.{IsName};
ghost use Rattle.lexer_spec.specs.Lexemes.{is_word, is_sign, integer, signed_value, is_name};
ghost use Rattle.lexer_spec.specs.Lexemes.{is_one_of, reserved};
ghost use Rattle.lexer_spec.specs.Bytes.{text_value};
ghost use Rattle.lexer_combinators.specs.Reads.{Reads, ReadsMore, ahead, sees};
ghost use Rattle.lexer.specs.Numbers.{in_range};
ghost use Rattle.lexer_trees_spec.specs.Reader.{first_op};
ghost use Rattle.lexer_combinators.specs.declared.cursor.Stop.TheVariants as stop;
ghost use Rattle.lexer_trees_spec.specs.Reader as spec;
ghost use Rattle.lexer_combinators.specs.Parsing as parsing;

use crate::constant_reader::{name, name_of, text_of};
use crate::number::int_value;
use crate::word::is_name;
use cond_expr::{CmpOp, ColRef, Cond, Expr, Whose};
use lexer_combinators::{Cursor, Stop};
use lexer_spec::TokenKind;
use prima_base::{Value, What};
use std::alloc::Global;

/// Why no bracket opens, where no more constructs may be opened.
pub fn no_bracket(c: &Cursor<'_, '_>) -> Stop
    ensures deep { sees (is_sign (codes "(")) (ahead c.now) ≡ true
        → result ≡ stop.TooMany what.Depth }
    ensures stuck { sees (is_sign (codes "(")) (ahead c.now) ≡ false → result ≡ stop.Unexpected }
{
    if c.sees_sign(b"(") {
        Stop::TooMany(What::Depth)
    } else {
        Stop::Unexpected
    }
}

/// The comparison that comes next, if one does.
pub fn sees_op(c: &Cursor<'_, '_>) -> Option<CmpOp>
    ensures { result ≡ first_op (ahead c.now) }
{
    if c.sees_sign(b"=") {
        return Some(CmpOp::Eq);
    }
    if c.sees_sign(b"<>") {
        return Some(CmpOp::Ne);
    }
    if c.sees_sign(b"<") {
        return Some(CmpOp::Lt);
    }
    if c.sees_sign(b"<=") {
        return Some(CmpOp::Le);
    }
    if c.sees_sign(b">") {
        return Some(CmpOp::Gt);
    }
    if c.sees_sign(b">=") {
        return Some(CmpOp::Ge);
    }
    None
}

// What follows a name.
#[tactic(auto, unfolding(lexer_trees_spec::specs::Reader::ref_rest), using(lexer_combinators::proofs::ReadSteps::option_not, lexer_combinators::proofs::ReadSteps::option_takes))]
fn reference(
    alloc: Global,
    c: &mut Cursor<'_, '_>,
    first: &[u8],
    qualified: bool,
) -> Result<Expr, Stop>
    requires { IsName first.now }
    ensures { Reads tree (spec.ref_rest qualified first.now c.old.nodes (ahead c.old))
        result c.new }
{
    let first = name_of(alloc, first)?;
    if !qualified {
        return Ok(Expr::Col(ColRef {
            whose: Whose::Atom(0),
            name: first,
        }));
    }
    if !c.sees_sign(b".") {
        return Ok(Expr::Col(ColRef {
            whose: Whose::Free,
            name: first,
        }));
    }
    c.skip();
    let column = name(alloc, c)?;
    Ok(Expr::Col(ColRef {
        whose: Whose::Alias(first),
        name: column,
    }))
}

/// A constant or a reference.
#[tactic(auto, using(lexer_spec::proofs::Valid::named))]
pub fn atom(alloc: Global, c: &mut Cursor<'_, '_>, qualified: bool) -> Result<Expr, Stop>
    ensures { Reads tree (parsing.choose (spec.atom_arm qualified true spec.nothing) c.old.nodes
        (ahead c.old)) result c.new }
{
    if c.rest.is_empty() {
        return Err(Stop::Unexpected);
    }
    let token = c.rest[0];
    match token.kind {
        TokenKind::Word => {
            if !is_name(token.text) {
                return Err(Stop::Unexpected);
            }
            c.step()?;
            reference(alloc, c, token.text, qualified)
        }
        TokenKind::Number => match int_value(token.text) {
            None => Err(Stop::Unexpected),
            Some(number) => {
                c.step()?;
                Ok(Expr::Const(Value::Int(number)))
            }
        },
        TokenKind::Text => {
            c.step()?;
            let text = text_of(alloc, token.text)?;
            Ok(Expr::Const(Value::Text(text)))
        }
        TokenKind::Sign => Err(Stop::Unexpected),
    }
}

/// The condition that holds.
pub fn truth() -> Cond
    ensures { test result ≡ always }
{
    Cond::True
}

/// The condition that does not hold.
pub fn falsehood() -> Cond
    ensures { test result ≡ never }
{
    Cond::False
}
