ghost use Rattle.std.specs.Prelude.{◌≡◌, ◌↔◌, List, ℕ, true};
ghost use Rattle.script_parse.specs.Script.{is_clean, statements_of, tail_of};
ghost use Rattle.script_parse.specs.Pads.{ArePads};
ghost use Rattle.script_parse.specs.Joining.{joined, IsStatement, IsTail, Each};

/// A script is its statements, each with a `;` after it, and the tail; and no statement and no tail
/// holds a `;` outside its texts and comments.
pub fn script_is_its_statements()
    ensures joined { (script : List ℕ) → joined (statements_of script) (tail_of script) ≡ script }
    ensures statements { (script : List ℕ) → Each IsStatement (statements_of script) }
    ensures tail { (script : List ℕ) → IsTail (tail_of script) }
{}

/// Whatever statements and tail are joined are found again.
pub fn statements_are_of_a_script()
    ensures statements { (statements : List (List ℕ)) → (tail : List ℕ)
        → Each IsStatement statements → IsTail tail
        → statements_of (joined statements tail) ≡ statements }
    ensures tail { (statements : List (List ℕ)) → (tail : List ℕ) → Each IsStatement statements
        → IsTail tail
        → tail_of (joined statements tail) ≡ tail }
{}

/// A tail is clean just where it is blanks and comments alone.
pub fn clean_is_blanks_and_comments()
    ensures { (tail : List ℕ) → (is_clean tail ≡ true) ↔ ArePads tail }
{}
