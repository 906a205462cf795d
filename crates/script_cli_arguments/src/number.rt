//! A number among the words of a call, as decimal digits.

ghost use Rattle.std.specs.Prelude.{◌≡◌};
ghost use Rattle.std.specs.List.{list_all};
ghost use Rattle.std.specs.Char.{is_ascii_digit};
ghost use Rattle.script_cli_arguments.specs.Arguments as spec;

fn are_digits(bytes: &[u8]) -> bool
    ensures { result ≡ list_all is_ascii_digit bytes.now }
{
    bytes.iter().all(|byte| byte.is_ascii_digit())
}

/// The number that the text writes: 1 to 20 digits, with a value below 2^64.
pub fn number_of(text: &str) -> Option<u64>
    ensures { result ≡ spec.number_of text.now }
{
    if text.is_empty() || text.len() > 20 || !are_digits(text.as_bytes()) {
        return None;
    }
    text.parse().ok()
}
