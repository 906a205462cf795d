//! Laws of scripts. Each is proved and does nothing.

ghost use Rattle.std.specs.Prelude.{◌≡◌, ◌↔◌, [], ◌∷◌, ◌++◌, List, ℕ, true};
ghost use Rattle.prima_base.specs.Bytes.{is_text_byte};
ghost use Rattle.lexer_spec.specs.Spaced.{Each as EachByte, IsGap, IsOpen};
ghost use Rattle.script_parse.specs.Script.{is_clean, statements_of, tail_of};
ghost use Rattle.script_parse.specs.Joining.{Each};
ghost use Rattle.script_parse_laws.specs.Parts.{HasOpenText, IsClosed, IsInside, IsOpenFault};
ghost use Rattle.script_parse_laws.specs.Parts.{IsScript};
ghost use Rattle.script_parse_laws.specs.Parts.{IsShownText};

use lexer::tokens_are_spaced;
use script_parse::{script_is_its_statements, statements_are_of_a_script};

/// Each script has one reading as statements and a tail, and the splitter's are these.
pub fn a_script_is_read_in_one_way()
    ensures read { (script : List ℕ) → IsScript script (statements_of script) (tail_of script) }
    ensures only { (script : List ℕ) → (statements : List (List ℕ)) → (tail : List ℕ)
        → IsScript script statements tail
        → (statements ≡ statements_of script) × (tail ≡ tail_of script) }
{
    script_is_its_statements();
    statements_are_of_a_script();
}

/// A text that does not end cannot come from a script: no statement has one, and so none has the
/// lexical fault `OpenQuote`.
pub fn a_statement_has_no_open_text()
    ensures texts { (script : List ℕ) → (statements : List (List ℕ)) → (tail : List ℕ)
        → IsScript script statements tail → Each (λ s. HasOpenText s → ⊥) statements }
    ensures faults { (script : List ℕ) → (statements : List (List ℕ)) → (tail : List ℕ)
        → IsScript script statements tail → Each (λ s. IsOpenFault s → ⊥) statements }
    ensures faulty { (text : List ℕ) → IsOpenFault text → HasOpenText text }
{
    tokens_are_spaced();
}

/// The texts of the lexer are those without a control byte, whether they end or not.
pub fn texts_of_the_lexer_are_texts()
    ensures closed { (bytes : List ℕ) → IsClosed bytes ↔ IsShownText bytes }
    ensures open { (bytes : List ℕ) → IsOpen bytes
        ↔ (IsInside bytes × EachByte is_text_byte bytes) }
{}

/// A tail is clean just where it is a gap of the lexer: blanks and comments alone.
pub fn a_clean_tail_is_a_gap()
    ensures { (tail : List ℕ) → (is_clean tail ≡ true) ↔ IsGap tail [] }
{}
