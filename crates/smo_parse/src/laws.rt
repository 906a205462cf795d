//! Laws of the texts of operators. Each is proved and does nothing.

ghost use Rattle.std.specs.Prelude.{ℕ, ◌≤◌, List, map, Ok};
ghost use Rattle.smo_ops_types.specs.Operators.{Operator, operator_of};
ghost use Rattle.smo_ops_types.specs.declared.op.Op.{Op as AnOp};
ghost use Rattle.lexer_spec.specs.declared.token.Token.{Token};
ghost use Rattle.lexer_spec.specs.Lexemes.{Lexeme, lexeme};
ghost use Rattle.lexer_combinators.specs.TokenCounts.{AddUp};
ghost use Rattle.lexer_combinators.specs.Parsing.{IsCorrectParser, Valid};
ghost use Rattle.lexer_combinators.specs.Grammar.{Size};
ghost use Rattle.lexer_combinators.specs.Found.{IsRead};
ghost use Rattle.smo_parse.specs.Productions.{IsOperator};
ghost use Rattle.smo_parse.specs.OperatorReader.{operator, follow_operator};
ghost use Rattle.smo_parse.specs.OperatorCounts.{operator_counts};
ghost use Rattle.smo_parse.specs.Printed.{tree_depth, IsReadAgain};

/// The reader of operators is good for their grammar: what is read is in it, what is in it is read,
/// and a fault stands at the first place.
pub fn operators_are_correct()
    ensures { IsCorrectParser 0 32 operator IsOperator follow_operator }
{}

/// What is counted at each token of an operator is together its size.
pub fn operator_counts_add_up()
    ensures { (o : Operator) (s : Size) (f : List Lexeme) (h : IsOperator o s f)
        → AddUp (operator_counts o s f h) s f }
{}

/// Print, then read: whatever tokens the lexer finds in the canonical text of an operator, they
/// come without a fault, and reading them gives the operator, whole. (`tokens` finds them, or
/// memory runs out.) It holds of every operator that tokens spell within the limits of reading, and
/// so of whatever `parse_op` gives, where its expression or condition is at most 32 deep.
pub fn printed_operators_are_read()
    ensures spelled { (o : Operator) (s : Size) (list : List Token)
        → IsOperator o s (map lexeme list) → s.nodes ≤ 256 → Valid 32 s → tree_depth o ≤ 32
        → IsReadAgain o }
    ensures given { (list : List Token) (from : ℕ) (op : AnOp) (place : ℕ)
        → IsRead operator_of IsOperator list from (Ok (op, place))
        → tree_depth (operator_of op) ≤ 32 → IsReadAgain (operator_of op) }
{}
