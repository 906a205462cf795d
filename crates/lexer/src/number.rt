//! The values of number tokens.

ghost use Rattle.std.specs.Prelude.{◌≡◌, ◌^◌, ◌≤◌, ◌<◌, length};
ghost use Rattle.lexer_spec.specs.Lexemes.{integer, signed_value};
ghost use Rattle.lexer.specs.Numbers.{in_range, natural_in};

use crate::scanned::magnitude;

// The integer of 64 bits with this magnitude.
fn in_range(negative: bool, number: u64) -> Option<i64>
    ensures { result ≡ in_range (signed_value negative number) }
{
    if !negative || number == 0 {
        return if number <= 9_223_372_036_854_775_807 {
            Some(number as i64)
        } else {
            None
        };
    }
    // The least integer has no opposite, so it is counted down from -1.
    let below = number - 1;
    if below <= 9_223_372_036_854_775_807 {
        Some(-1 - below as i64)
    } else {
        None
    }
}

/// The number of these bytes, an optional minus and digits, if it is one from -2^63 to 2^63 - 1.
pub fn int_value(text: &[u8]) -> Option<i64>
    ensures { result ≡ in_range (integer text.now) }
{
    if text.is_empty() {
        return Some(0);
    }
    let negative = text[0] == b'-';
    let digits = if negative { &text[1..] } else { text };
    match magnitude(digits) {
        Some(number) => in_range(negative, number),
        None => None,
    }
}

// The natural number with this magnitude: there is no other below zero than zero itself.
fn above_zero(negative: bool, number: u64, most: u64) -> Option<u64>
    ensures { result ≡ natural_in most (signed_value negative number) }
{
    if negative && number > 0 {
        return None;
    }
    if number <= most { Some(number) } else { None }
}

/// The number of these bytes, an optional minus and digits, if it is one from 0 to the most that
/// may stand there.
pub fn natural_value(text: &[u8], most: u64) -> Option<u64>
    ensures { result ≡ natural_in most (integer text.now) }
{
    if text.is_empty() {
        return Some(0);
    }
    let negative = text[0] == b'-';
    let digits = if negative { &text[1..] } else { text };
    match magnitude(digits) {
        Some(number) => above_zero(negative, number, most),
        None => None,
    }
}
