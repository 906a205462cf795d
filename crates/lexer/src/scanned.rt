//! The longest token at the start of bytes.

ghost use Rattle.std.specs.Prelude.{◌≡◌, ◌+◌, ◌-◌, ◌*◌, ◌^◌, ◌≤◌, ◌<◌, ℕ, Bool, List, length, drop};
ghost use Rattle.std.specs.Prelude.{take, MatchOption, ◌∷◌, [], false, true, get_or};
ghost use Rattle.std.specs.List.{prefix_len};
ghost use Rattle.prima_base.specs.Bytes as base;
ghost use Rattle.lexer_spec.specs.Bytes as spec;

use lexer_spec::{Scanned, TokenKind};
use prima_base::is_name_byte;
use prima_base::limits::MAX_TEXT;

fn is_digit(b: u8) -> bool
    ensures { result ≡ base.is_digit b }
{
    b'0' <= b && b <= b'9'
}

fn is_word_start(b: u8) -> bool
    ensures { result ≡ spec.is_word_start b }
{
    (b'a' <= b && b <= b'z') || (b'A' <= b && b <= b'Z') || b == b'_'
}

/// Whether the byte is a blank: a space, a tab, an LF or a CR. It takes no memory.
pub fn is_blank(b: u8) -> bool
    ensures { result ≡ spec.is_blank b }
{
    b == b' ' || b == b'\t' || b == b'\n' || b == b'\r'
}

fn is_control(b: u8) -> bool
    ensures { result ≡ base.is_control b }
{
    b < 32 || b == 127
}

/// How many bytes of blanks and comments stand at the start.
#[tactic(auto, unfolding(lexer_spec::specs::Bytes::gap_len), using(crate::proofs::Steps::dropped))]
pub fn gap(bytes: &[u8]) -> usize
    ensures value { result ≡ spec.gap_len false 0 bytes.now }
    ensures within { result ≤ length bytes.now }
{
    let mut i = 0;
    let mut comment = false;
    while i < bytes.len() {
        if comment {
            comment = bytes[i] != b'\n';
            i += 1;
        } else if is_blank(bytes[i]) {
            i += 1;
        } else if bytes[i] == b'-' && i + 1 < bytes.len() && bytes[i + 1] == b'-' {
            comment = true;
            i += 2;
        } else {
            return i;
        }
    }
    i
}

// Where a text ends, from after its opening quote on.
#[tactic(auto, unfolding(lexer_spec::specs::Bytes::text_from), using(crate::proofs::Steps::dropped))]
fn text_end(bytes: &[u8]) -> Scanned
    ensures value { result ≡ spec.text_from 1 bytes.now }
    ensures within { spec.Within (length bytes.now + 1) result }
{
    let mut i = 0;
    while i < bytes.len() {
        if bytes[i] == b'\'' {
            if i + 1 < bytes.len() && bytes[i + 1] == b'\'' {
                // A doubled quote goes on.
                i += 2;
            } else {
                return Scanned::Of(TokenKind::Text, i + 2);
            }
        } else if is_control(bytes[i]) {
            return Scanned::Bad(i + 1);
        } else {
            i += 1;
        }
    }
    Scanned::Open
}

// How many bytes a text stands for, from after its opening quote on.
#[tactic(auto, unfolding(lexer_spec::specs::Bytes::text_value), using(crate::proofs::Steps::dropped))]
fn text_size(bytes: &[u8]) -> usize
    ensures value { result ≡ length (spec.text_value bytes.now) }
{
    let mut i = 0;
    let mut size = 0;
    while i < bytes.len() {
        if bytes[i] == b'\'' {
            if i + 1 < bytes.len() && bytes[i + 1] == b'\'' {
                i += 2;
            } else {
                return size;
            }
        } else {
            i += 1;
        }
        size += 1;
    }
    size
}

// The text after an opening quote.
fn scanned_text(bytes: &[u8]) -> Scanned
    ensures value { result ≡ spec.scan_sized (length (spec.text_value bytes.now))
        (spec.text_from 1 bytes.now) }
    ensures within { spec.Within (length bytes.now + 1) result }
{
    match text_end(bytes) {
        Scanned::Of(kind, n) => {
            if text_size(bytes) > MAX_TEXT {
                Scanned::Long
            } else {
                Scanned::Of(kind, n)
            }
        }
        other => other,
    }
}

// One digit more; none where the number has more than 64 bits.
fn with_digit(number: u64, digit: u8) -> Option<u64>
    ensures { MatchOption result (2 ^ 64 ≤ number * 10 + (digit - 48))
        (λ n. n ≡ number * 10 + (digit - 48)) }
{
    let tens = number.checked_mul(10)?;
    tens.checked_add(u64::from(digit.saturating_sub(48)))
}

/// The number of these digits; none where it has more than 64 bits.
pub fn magnitude(digits: &[u8]) -> Option<u64>
    ensures { MatchOption result (2 ^ 64 ≤ spec.number digits.now)
        (λ n. n ≡ spec.number digits.now) }
{
    let mut number = 0;
    for digit in digits {
        match with_digit(number, *digit) {
            Some(more) => number = more,
            None => return None,
        }
    }
    Some(number)
}

fn is_big(negative: bool, digits: &[u8]) -> bool
    ensures { result ≡ spec.is_big negative (spec.number digits.now) }
{
    match magnitude(digits) {
        Some(number) => negative && number > 9_223_372_036_854_775_808,
        None => true,
    }
}

fn digits_len(bytes: &[u8]) -> usize
    ensures value { result ≡ prefix_len base.is_digit bytes.now }
    ensures within { result ≤ length bytes.now }
{
    bytes.iter().take_while(|b| is_digit(**b)).count()
}

// The number whose digits are these, so many bytes after its prefix.
fn scanned_number(negative: bool, signs: usize, bytes: &[u8]) -> Scanned
    requires few { signs ≤ 1 }
    requires some { 0 < prefix_len base.is_digit bytes.now }
    requires room { length bytes.now < 2 ^ 62 }
    ensures value { result ≡ spec.scanned_number negative signs (spec.digits_of bytes.now) }
    ensures within { spec.Within (signs + length bytes.now) result }
{
    let n = digits_len(bytes);
    if is_big(negative, &bytes[..n]) {
        Scanned::Big
    } else {
        Scanned::Of(TokenKind::Number, signs + n)
    }
}

fn word_len(bytes: &[u8]) -> usize
    ensures value { result ≡ prefix_len base.is_name_byte bytes.now }
    ensures within { result ≤ length bytes.now }
{
    bytes.iter().take_while(|b| is_name_byte(**b)).count()
}

fn first_of(bytes: &[u8]) -> u8
    ensures { result ≡ get_or bytes.now 0 0 }
{
    if bytes.is_empty() { 0 } else { bytes[0] }
}

fn sign(first: u8, next: u8, len: usize) -> Scanned
    requires { 0 < next → 0 < len }
    ensures value { result ≡ spec.sign first next }
    ensures within { spec.Within (len + 1) result }
{
    if (first == b'<' && (next == b'=' || next == b'>')) || (first == b'>' && next == b'=') {
        return Scanned::Of(TokenKind::Sign, 2);
    }
    if first == b'('
        || first == b')'
        || first == b','
        || first == b'.'
        || first == b'<'
        || first == b'='
        || first == b'>'
    {
        return Scanned::Of(TokenKind::Sign, 1);
    }
    Scanned::Bad(0)
}

/// The token at the start, as long as possible.
#[tactic(auto, unfolding(lexer_spec::specs::Bytes::scanned_from))]
pub fn scan_at(bytes: &[u8]) -> Scanned
    requires { length bytes.now ≤ 1048576 }
    ensures value { result ≡ spec.scan_of bytes.now }
    ensures within { spec.Within (length bytes.now) result }
{
    if bytes.is_empty() {
        return Scanned::End;
    }
    let first = bytes[0];
    let rest = &bytes[1..];
    if is_word_start(first) {
        return Scanned::Of(TokenKind::Word, word_len(rest) + 1);
    }
    if is_digit(first) {
        return scanned_number(false, 0, bytes);
    }
    if first == b'\'' {
        return scanned_text(rest);
    }
    let next = first_of(rest);
    if first == b'-' && is_digit(next) {
        return scanned_number(true, 1, rest);
    }
    sign(first, next, rest.len())
}
