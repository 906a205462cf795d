//! Laws of reading queries. Each is proved and does nothing.

ghost use Rattle.std.specs.Prelude.{◌≡◌, ◌≤◌, ℕ, Bool, List, length, get_or, None, codes};
ghost use Rattle.prima_base.specs.declared.refusal.What.{What};
ghost use Rattle.lexer_spec.specs.Lexemes.{Lexeme, is_sign};
ghost use Rattle.lexer_combinators.specs.Parsing.{IsCorrectParser, Exceeds, Valid};
ghost use Rattle.lexer_combinators.specs.Grammar.{Size};
ghost use Rattle.lexer_combinators.specs.Overflows.{IsFirstOverflow};
ghost use Rattle.temporal_lang_types.specs.Queries.{PlainQuery};
ghost use Rattle.temporal_lang_grammar_spec.specs.QueryGrammar.{IsBranch, IsAsk, IsFullAsk};
ghost use Rattle.temporal_lang_grammar_spec.specs.AggregateGrammar.{IsRelation, AreAggs};
ghost use Rattle.temporal_lang_grammar_spec.specs.AggregateReader as aggregate;
ghost use Rattle.temporal_lang_grammar_spec.specs.QueryOverflows.{ask_overflows};
ghost use Rattle.temporal_lang_grammar_spec.specs.QueryReader as spec;

/// The readers of queries and their branches are good for their grammars: what is read is in them,
/// what is in them is read, and a fault stands at the first place.
pub fn queries_are_correct()
    ensures branch { IsCorrectParser 0 32 spec.branch IsBranch spec.follow_branch }
    ensures ask { IsCorrectParser 0 32 spec.ask IsAsk spec.follow_ask }
    ensures full_ask { IsCorrectParser 0 32 spec.full_ask IsFullAsk spec.follow_full_ask }
{}

/// The readers of relations and of aggregates are good for their grammars, whatever comes after a
/// relation, and up to a comma after aggregates.
pub fn aggregates_are_correct()
    ensures relation { (follow : Lexeme → Bool)
        → IsCorrectParser 0 32 aggregate.relation IsRelation follow }
    ensures aggregates { IsCorrectParser 0 32 aggregate.aggs AreAggs (is_sign (codes ",")) }
{}

/// Tokens that spell a query within the limits spell no other one.
pub fn queries_are_one()
    ensures { (q r : PlainQuery) (s t : Size) (f : List Lexeme) → IsAsk q s f → IsAsk r t f
        → s.nodes ≤ 256 → Valid 32 s → q ≡ r }
{}

/// The tokens at which a count passes its limit tell what is too much in a query: of what first
/// passes its limit there is more than it, and where nothing does, there is more of nothing. Each
/// token of the query has its place among them.
pub fn overflows_tell_what_is_too_much()
    ensures some { (q : PlainQuery) (s : Size) (f : List Lexeme) (h : IsAsk q s f) (w : What)
        (k : ℕ) → IsFirstOverflow w (ask_overflows q s f h) k → Exceeds w 0 32 s }
    ensures none { (q : PlainQuery) (s : Size) (f : List Lexeme) (h : IsAsk q s f)
        → ((k : ℕ) → get_or (ask_overflows q s f h) k None ≡ None) → Valid 32 s }
    ensures each { (q : PlainQuery) (s : Size) (f : List Lexeme) (h : IsAsk q s f)
        → length (ask_overflows q s f h) ≡ length f }
{}
