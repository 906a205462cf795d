//! Laws of statements and of their texts. Each is proved and does nothing.

ghost use Rattle.lexer_combinators.specs.Parsing.{IsCorrectParser};
ghost use Rattle.script_parse.specs.Lexing.{TextsAreLexed};
ghost use Rattle.script_parse.specs.Productions.{IsStatement};
ghost use Rattle.script_parse.specs.StatementReader.{statement, follow_statement};
ghost use Rattle.script_parse.specs.Reading.{LimitsAreKept, ReadingsAreOfTheGrammar};
ghost use Rattle.script_parse.specs.Reading.{ReadingsAreOne, StatementsAreRead};

/// The function from a text to its tokens, or to its first lexical fault, agrees with the relation
/// between them.
pub fn texts_are_lexed()
    ensures { TextsAreLexed }
{}

/// The reader of statements is good for their grammar: what is read is in it, what is in it is
/// read, and a fault stands at the first place.
pub fn statements_are_correct()
    ensures { IsCorrectParser 0 32 statement IsStatement follow_statement }
{}

/// What a text is read as is so by the grammar.
pub fn readings_are_of_the_grammar()
    ensures { ReadingsAreOfTheGrammar }
{}

/// By the grammar a text has one reading, the one that it is read as.
pub fn readings_are_one()
    ensures { ReadingsAreOne }
{}

/// Tokens that spell a statement within the limits are read as it, and over them they are refused
/// for what is too much.
pub fn statements_are_read()
    ensures { StatementsAreRead }
{}

/// A count that passes its limit at a token is refused, whatever stands after that token.
pub fn limits_are_kept()
    ensures { LimitsAreKept }
{}
