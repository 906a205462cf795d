ghost use Rattle.std.specs.Prelude.{◌≡◌, ◌++◌, [], ◌∷◌, true, false, length, drop, slice_index};
ghost use Rattle.std.specs.Prelude.{◌<◌, ◌+◌, ◌==◌, ℕ, MatchOption};
ghost use Rattle.prima_base.specs.Order.{value_cmp, bytes_cmp};
ghost use Rattle.cond_expr_dead.specs.Steps.{least, all_top, raised, following, following_text};
ghost use Rattle.cond_expr_dead.specs.Shown.{tried_value, tried_values};

use prima_base::limits::MAX_TEXT;
use prima_base::{ColType, Value};
use std::cmp::Ordering;

/// The least byte of a text.
const LEAST_BYTE: u8 = 0x20;

/// A value that is tried for a column. Its bytes lie in a constant, so it takes no memory.
#[derive(Clone, Copy)]
pub(crate) enum Tried<'a> {
    Number(i64),
    /// A text.
    Bytes(&'a [u8]),
    /// A text and one byte after it.
    Longer(&'a [u8], u8),
}

/// The least value of a type.
pub(crate) fn least(kind: ColType) -> Tried<'static>
    ensures { tried_value result ≡ least kind }
{
    match kind {
        ColType::Int => Tried::Number(i64::MIN),
        ColType::Text => Tried::Bytes(&[]),
    }
}

/// The place of the last byte below 0xFF.
#[tactic(auto, using(crate::proofs::LongerTexts::top_more))]
fn last_low(bytes: &[u8]) -> Option<usize>
    ensures { MatchOption result (all_top bytes.now ≡ true) (λ p. (p < length bytes.now)
        × ((slice_index bytes.now p == 255) ≡ false) × (all_top (drop (p + 1) bytes.now) ≡ true)) }
{
    let mut place = bytes.len();
    while place > 0 {
        place -= 1;
        if bytes[place] != 255 {
            return Some(place);
        }
    }
    None
}

/// The next byte of a text; 0x7F is none.
fn raised(byte: u8) -> u8
    requires { byte < 255 }
    ensures { result ≡ raised byte }
{
    if byte == 126 { 128 } else { byte + 1 }
}

/// The next text: one byte longer, or with its last byte raised that can be.
#[tactic(auto, using(crate::proofs::LongerTexts::room_follows, crate::proofs::LongerTexts::raised_follows, crate::proofs::LongerTexts::none_follows))]
fn next_text(bytes: &[u8]) -> Option<Tried<'_>>
    ensures { tried_values result ≡ following_text bytes.now }
{
    if bytes.len() < MAX_TEXT {
        return Some(Tried::Longer(bytes, LEAST_BYTE));
    }
    match last_low(bytes) {
        Some(place) => Some(Tried::Longer(&bytes[..place], raised(bytes[place]))),
        None => None,
    }
}

/// The next value after a constant.
#[tactic(auto, using(crate::proofs::LongerTexts::number_follows, crate::proofs::LongerTexts::no_number_follows))]
pub(crate) fn next(limit: &Value) -> Option<Tried<'_>>
    ensures { tried_values result ≡ following limit.now }
{
    match limit {
        Value::Int(n) => {
            if *n < i64::MAX {
                return Some(Tried::Number(*n + 1));
            }
            None
        }
        Value::Text(text) => next_text(text.bytes()),
    }
}

/// The constant itself.
pub(crate) fn same(limit: &Value) -> Tried<'_>
    ensures { tried_value result ≡ limit.now }
{
    match limit {
        Value::Int(n) => Tried::Number(*n),
        Value::Text(text) => Tried::Bytes(text.bytes()),
    }
}

/// Compares a text and one byte after it with another text.
#[tactic(auto, using(crate::proofs::LongerTexts::to_shorter, crate::proofs::LongerTexts::to_longer))]
fn compare_longer(prefix: &[u8], last: u8, other: &[u8]) -> Ordering
    ensures { result ≡ bytes_cmp (prefix.now ++ last ∷ []) other.now }
{
    if other.len() <= prefix.len() {
        return prefix.cmp(other).then(Ordering::Greater);
    }
    let shared = prefix.cmp(&other[..prefix.len()]);
    shared.then([last].as_slice().cmp(&other[prefix.len()..]))
}

/// Compares a value that is tried with a constant.
pub(crate) fn compare(tried: &Tried<'_>, limit: &Value) -> Ordering
    ensures { result ≡ value_cmp (tried_value tried.now) limit.now }
{
    match (tried, limit) {
        (Tried::Number(n), Value::Int(m)) => n.cmp(m),
        (Tried::Number(_), Value::Text(_)) => Ordering::Less,
        (Tried::Bytes(_) | Tried::Longer(_, _), Value::Int(_)) => Ordering::Greater,
        (Tried::Bytes(bytes), Value::Text(text)) => (*bytes).cmp(text.bytes()),
        (Tried::Longer(prefix, last), Value::Text(text)) => {
            compare_longer(prefix, *last, text.bytes())
        }
    }
}
