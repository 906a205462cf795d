//! Reading of names and constants, where a statement has them: each is one token.

ghost use Rattle.std.specs.Prelude.{◌≡◌, ◌+◌, ◌≤◌, ◌<◌, length, drop, map, IfOk, IfErr, codes};
ghost use Rattle.prima_base.specs.Bytes.{IsName};
ghost use Rattle.lexer_spec.specs.declared.kind.TokenKind.TheVariants as kind;
ghost use Rattle.lexer_spec.specs.declared.scan_of.Scanned.TheVariants.{Of};
ghost use Rattle.lexer_spec.specs.Bytes.{text_value, scan_of};
ghost use Rattle.lexer_spec.specs.Lexemes.{is_sign};
ghost use Rattle.lexer_combinators.specs.Reads.{Reads, ReadsMore, ahead};
ghost use Rattle.lexer_trees_spec.specs.Constants as spec;
ghost use Rattle.lexer_combinators.specs.declared.cursor.Stop.TheVariants as stop;

use crate::number::{int_value, natural_value};
use crate::word::is_name;
use lexer_combinators::{Cursor, Stop};
use lexer_spec::TokenKind;
use prima_base::{FOREVER, Name, Txt, Value};
use std::alloc::Global;

// The bytes that a text literal stands for, from after its opening quote on.
#[tactic(auto, unfolding(lexer_spec::specs::Bytes::text_value), using(crate::proofs::Steps::dropped))]
fn undoubled(alloc: Global, bytes: &[u8]) -> Result<Vec<u8>, Stop>
    ensures ok { IfOk result (λ v. v.items ≡ text_value bytes.now) }
    ensures err { IfErr result (λ e. e ≡ stop.NoMemory) }
{
    let mut out = Vec::new(alloc);
    let mut i = 0;
    while i < bytes.len() {
        if bytes[i] == b'\'' {
            if i + 1 < bytes.len() && bytes[i + 1] == b'\'' {
                i += 1;
            } else {
                return Ok(out);
            }
        }
        out.push(bytes[i])?;
        i += 1;
    }
    Ok(out)
}

/// The name of these bytes. Only memory can be missing.
pub fn name_of(alloc: Global, text: &[u8]) -> Result<Name, Stop>
    requires { IsName text.now }
    ensures ok { IfOk result (λ n. n ≡ text.now) }
    ensures err { IfErr result (λ e. e ≡ stop.NoMemory) }
{
    Ok(Name::of(alloc, text)?)
}

/// The text that a whole literal stands for. Only memory can be missing.
#[tactic(auto, using(lexer_spec::proofs::Valid::texted))]
pub fn text_of(alloc: Global, literal: &[u8]) -> Result<Txt, Stop>
    requires { scan_of literal.now ≡ Of kind.Text (length literal.now) }
    ensures ok { IfOk result (λ t. t ≡ text_value (drop 1 literal.now)) }
    ensures err { IfErr result (λ e. e ≡ stop.NoMemory) }
{
    let bytes = undoubled(alloc, &literal[1..])?;
    Ok(Txt::owning(alloc, bytes))
}

/// A name: a word of at most 63 bytes that is not reserved.
#[tactic(auto, unfolding(lexer_trees_spec::specs::Constants::name), using(lexer_spec::proofs::Valid::named))]
pub fn name(alloc: Global, c: &mut Cursor<'_, '_>) -> Result<Name, Stop>
    ensures { Reads (λ n. n) (spec.name c.old.nodes (ahead c.old)) result c.new }
{
    if c.rest.is_empty() {
        return Err(Stop::Unexpected);
    }
    let token = c.rest[0];
    match token.kind {
        TokenKind::Word => {
            if !is_name(token.text) {
                return Err(Stop::Unexpected);
            }
            c.skip();
            name_of(alloc, token.text)
        }
        _ => Err(Stop::Unexpected),
    }
}

/// A number from 0 to the most that may stand there.
#[tactic(auto, unfolding(lexer_trees_spec::specs::Constants::natural))]
pub fn natural(c: &mut Cursor<'_, '_>, most: u64) -> Result<u64, Stop>
    ensures value { Reads (λ n. n) (spec.natural most c.old.nodes (ahead c.old)) result c.new }
    ensures within { IfOk result (λ n. n ≤ most) }
{
    if c.rest.is_empty() {
        return Err(Stop::Unexpected);
    }
    let token = c.rest[0];
    match token.kind {
        TokenKind::Number => match natural_value(token.text, most) {
            None => Err(Stop::Unexpected),
            Some(number) => {
                c.skip();
                Ok(number)
            }
        },
        _ => Err(Stop::Unexpected),
    }
}

/// A moment: a number from 0 to 2^64 - 2.
#[tactic(auto, unfolding(lexer_trees_spec::specs::Constants::moment, lexer_trees_spec::specs::Constants::natural))]
pub fn moment(c: &mut Cursor<'_, '_>) -> Result<u64, Stop>
    ensures value { Reads (λ n. n) (spec.moment c.old.nodes (ahead c.old)) result c.new }
    ensures within { IfOk result (λ n. n < 18446744073709551615) }
{
    natural(c, FOREVER - 1)
}

/// A number from 0 to 2^32 - 1, as that of a version.
#[tactic(auto, unfolding(lexer_trees_spec::specs::Constants::small, lexer_trees_spec::specs::Constants::natural))]
pub fn small(c: &mut Cursor<'_, '_>) -> Result<u32, Stop>
    ensures { Reads (λ n. n) (spec.small c.old.nodes (ahead c.old)) result c.new }
{
    let number = natural(c, 4_294_967_295)?;
    Ok(number as u32)
}

/// An integer constant: a number from -2^63 to 2^63 - 1.
#[tactic(auto, unfolding(lexer_trees_spec::specs::Constants::int))]
pub fn int(c: &mut Cursor<'_, '_>) -> Result<i64, Stop>
    ensures { Reads (λ z. z) (spec.int c.old.nodes (ahead c.old)) result c.new }
{
    if c.rest.is_empty() {
        return Err(Stop::Unexpected);
    }
    let token = c.rest[0];
    match token.kind {
        TokenKind::Number => match int_value(token.text) {
            None => Err(Stop::Unexpected),
            Some(number) => {
                c.skip();
                Ok(number)
            }
        },
        _ => Err(Stop::Unexpected),
    }
}

/// A text constant, as what its literal stands for.
#[tactic(auto, unfolding(lexer_trees_spec::specs::Constants::literal))]
pub fn literal(alloc: Global, c: &mut Cursor<'_, '_>) -> Result<Txt, Stop>
    ensures { Reads (λ t. t) (spec.literal c.old.nodes (ahead c.old)) result c.new }
{
    if c.rest.is_empty() {
        return Err(Stop::Unexpected);
    }
    let token = c.rest[0];
    match token.kind {
        TokenKind::Text => {
            c.skip();
            text_of(alloc, token.text)
        }
        _ => Err(Stop::Unexpected),
    }
}

/// A constant: an integer or a text.
#[tactic(auto, unfolding(lexer_trees_spec::specs::Constants::constant))]
pub fn constant(alloc: Global, c: &mut Cursor<'_, '_>) -> Result<Value, Stop>
    ensures { Reads (λ v. v) (spec.constant c.old.nodes (ahead c.old)) result c.new }
{
    if c.rest.is_empty() {
        return Err(Stop::Unexpected);
    }
    let token = c.rest[0];
    match token.kind {
        TokenKind::Number => match int_value(token.text) {
            None => Err(Stop::Unexpected),
            Some(number) => {
                c.skip();
                Ok(Value::Int(number))
            }
        },
        TokenKind::Text => {
            c.skip();
            Ok(Value::Text(text_of(alloc, token.text)?))
        }
        _ => Err(Stop::Unexpected),
    }
}

// More names, each after a comma, as many as there are.
fn more_names(alloc: Global, c: &mut Cursor<'_, '_>, list: &mut Vec<Name>) -> Result<(), Stop>
    ensures { ReadsMore (spec.more_names c.old.nodes (ahead c.old)) list.old.items list.new.items
        result c.new }
{
    while c.sees_sign(b",") {
        c.skip();
        list.push(name(alloc, c)?)?;
    }
    Ok(())
}

/// Names with commas between them, one at least.
#[tactic(auto, unfolding(lexer_trees_spec::specs::Constants::names))]
pub fn names(alloc: Global, c: &mut Cursor<'_, '_>) -> Result<Vec<Name>, Stop>
    ensures { Reads (λ v. v.items) (spec.names c.old.nodes (ahead c.old)) result c.new }
{
    let first = name(alloc, c)?;
    let mut list = vec![in alloc; first]?;
    more_names(alloc, c, &mut list)?;
    Ok(list)
}
