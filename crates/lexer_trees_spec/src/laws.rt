//! Laws of readers and their grammars. Each is proved and does nothing.

ghost use Rattle.std.specs.Prelude.{◌≡◌, ℕ, Bool, List, ◌++◌, ◌||◌, false, codes};
ghost use Rattle.cond_expr.specs.Trees.{Tree, Test};
ghost use Rattle.lexer_spec.specs.Lexemes.{Lexeme, is_sign};
ghost use Rattle.lexer_trees_spec.specs.Grammar.{IsExpr, IsCond};
ghost use Rattle.lexer_combinators.specs.Prefixes.{DetermineEachOther};
ghost use Rattle.lexer_trees_spec.specs.Reader.{outermost, follow_expr, follow_cond};
ghost use Rattle.lexer_combinators.specs.TokenCounts.{AddUp};
ghost use Rattle.lexer_trees_spec.specs.TreeCounts.{expr_counts, cond_counts};
ghost use Rattle.lexer_combinators.specs.Parsing.{IsCorrectParser, fresh};
ghost use Rattle.lexer_combinators.specs.Grammar.{Size};
ghost use Rattle.lexer_combinators.specs.Grammar as grammar;
ghost use Rattle.lexer_trees_spec.specs.Constants as spec;

/// The readers of expressions and conditions, also with counts of their own, are good for their
/// grammars: what they read is in them, what is in them they read, and a fault stands at the first
/// place.
pub fn trees_are_read()
    ensures expr { (q : Bool) → IsCorrectParser 0 32 (outermost q).expr (IsExpr q) (follow_expr q) }
    ensures cond { (q : Bool) → IsCorrectParser 0 32 (outermost q).cond (IsCond q) (follow_cond q) }
    ensures fresh_expr { (q : Bool) (low : ℕ)
        → IsCorrectParser low 32 (fresh (outermost q).expr) (grammar.fresh (IsExpr q))
        (follow_expr q) }
    ensures fresh_cond { (q : Bool) (low : ℕ)
        → IsCorrectParser low 32 (fresh (outermost q).cond) (grammar.fresh (IsCond q))
        (follow_cond q) }
{}

/// The readers of names and constants are good for their grammars.
pub fn constants_are_read()
    ensures name { (low d : ℕ) → IsCorrectParser low d spec.name spec.name_grammar (λ x. false) }
    ensures natural { (most low d : ℕ) → IsCorrectParser low d (spec.natural most)
        (spec.natural_grammar most) (λ x. false) }
    ensures moment { (low d : ℕ) → IsCorrectParser low d spec.moment spec.moment_grammar
        (λ x. false) }
    ensures small { (low d : ℕ) → IsCorrectParser low d spec.small spec.small_grammar (λ x. false) }
    ensures int { (low d : ℕ) → IsCorrectParser low d spec.int spec.int_grammar (λ x. false) }
    ensures literal { (low d : ℕ) → IsCorrectParser low d spec.literal spec.literal_grammar
        (λ x. false) }
    ensures constant { (low d : ℕ) → IsCorrectParser low d spec.constant spec.constant_grammar
        (λ x. false) }
    ensures names { (d : ℕ) → IsCorrectParser 0 d spec.names spec.names_grammar
        (λ x. is_sign (codes ",") x || false) }
{}

/// A prefix of tokens that is in the grammar has one tree, of one size.
pub fn trees_are_one()
    ensures expr { (q : Bool) (a b : Tree) (s t : Size) (f : List Lexeme) → IsExpr q a s f
        → IsExpr q b t f → (a ≡ b) × (s ≡ t) }
    ensures cond { (q : Bool) (a b : Test) (s t : Size) (f : List Lexeme) → IsCond q a s f
        → IsCond q b t f → (a ≡ b) × (s ≡ t) }
{}

/// A list of tokens has one prefix that spells a tree: two prefixes of one list with one and the
/// same tree are the same prefix, and so is what stands after them.
pub fn prefixes_are_one()
    ensures expr { (q : Bool) (a : Tree) (s t : Size) (f g us vs : List Lexeme) → IsExpr q a s f
        → IsExpr q a t g → f ++ us ≡ g ++ vs → (f ≡ g) × (us ≡ vs) × (s ≡ t) }
    ensures cond { (q : Bool) (a : Test) (s t : Size) (f g us vs : List Lexeme) → IsCond q a s f
        → IsCond q a t g → f ++ us ≡ g ++ vs → (f ≡ g) × (us ≡ vs) × (s ≡ t) }
{}

/// In a list of tokens the tree that stands at its prefix and the rest after it determine each
/// other.
pub fn trees_and_rests()
    ensures expr { (q : Bool) → DetermineEachOther (IsExpr q) }
    ensures cond { (q : Bool) → DetermineEachOther (IsCond q) }
{}

/// What is counted at each token is together the size of the tree.
pub fn counts_add_up()
    ensures expr { (q : Bool) (e : Tree) (s : Size) (f : List Lexeme) (h : IsExpr q e s f)
        → AddUp (expr_counts q e s f h) s f }
    ensures cond { (q : Bool) (c : Test) (s : Size) (f : List Lexeme) (h : IsCond q c s f)
        → AddUp (cond_counts q c s f h) s f }
{}
