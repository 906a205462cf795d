//! Reserved words and names.

ghost use Rattle.std.specs.Prelude.{◌≡◌, map};
ghost use Rattle.lexer_spec.specs.Lexemes.{is_name, is_one_of, reserved};

use prima_base::limits::MAX_NAME;

const RESERVED: [&[u8]; 60] = [
    b"ADD",
    b"AND",
    b"AS",
    b"AT",
    b"CASE",
    b"CHECKPOINT",
    b"COLUMN",
    b"CONCAT",
    b"COPY",
    b"COVERING",
    b"CREATE",
    b"DECOMPOSE",
    b"DELETE",
    b"DROP",
    b"DURING",
    b"ELSE",
    b"END",
    b"ENDING",
    b"EVOLVE",
    b"EXPLAIN",
    b"FALSE",
    b"FROM",
    b"IN",
    b"INSERT",
    b"INT",
    b"INTO",
    b"INVERSE",
    b"JOIN",
    b"KEEP",
    b"LASTING",
    b"LENGTH",
    b"MERGE",
    b"NOP",
    b"NOT",
    b"OF",
    b"OR",
    b"OVERLAPPING",
    b"PARTITION",
    b"QUERY",
    b"RENAME",
    b"SCHEMA",
    b"SELECT",
    b"SET",
    b"SHOW",
    b"SIZES",
    b"STARTING",
    b"TABLE",
    b"TEXT",
    b"THEN",
    b"TO",
    b"TRUE",
    b"UNION",
    b"UPDATE",
    b"VALUES",
    b"VERSION",
    b"VERSIONS",
    b"WHEN",
    b"WHERE",
    b"WITH",
    b"now",
];

fn is_one_of(words: &[&[u8]], text: &[u8]) -> bool
    ensures { result ≡ is_one_of (map (λ w. w.now) words.now) text.now }
{
    for word in words {
        if text == *word {
            return true;
        }
    }
    false
}

fn is_reserved(text: &[u8]) -> bool
    ensures { result ≡ is_one_of reserved text.now }
{
    is_one_of(&RESERVED, text)
}

/// Whether a word is a name: it has at most 63 bytes and is not reserved.
#[tactic(auto, unfolding(lexer_spec::specs::Lexemes::is_name))]
pub fn is_name(text: &[u8]) -> bool
    ensures { result ≡ is_name text.now }
{
    text.len() <= MAX_NAME && !is_reserved(text)
}
