//! Reading of relations of periods.

ghost use Rattle.lexer_combinators.specs.Reads.{Reads, ahead};
ghost use Rattle.temporal_lang_grammar_spec.specs.AggregateReader as spec;

use lexer::{Cursor, Stop};
use temporal_lang_types::Relation;

/// A relation, by its word, which is a name everywhere else.
#[tactic(auto, unfolding(temporal_lang_grammar_spec::specs::AggregateReader::relation), using(lexer_combinators::proofs::ReadSteps::choose_takes, lexer_combinators::proofs::ReadSteps::choose_no))]
pub fn relation(c: &mut Cursor<'_, '_>) -> Result<Relation, Stop>
    ensures { Reads (λ r. r) (spec.relation c.old.nodes (ahead c.old)) result c.new }
{
    if c.sees_word(b"BEFORE") {
        c.skip();
        return Ok(Relation::Before);
    }
    if c.sees_word(b"MEETS") {
        c.skip();
        return Ok(Relation::Meets);
    }
    if c.sees_word(b"OVERLAPS") {
        c.skip();
        return Ok(Relation::Overlaps);
    }
    if c.sees_word(b"CONTAINS") {
        c.skip();
        return Ok(Relation::Contains);
    }
    if c.sees_word(b"EQUALS") {
        c.skip();
        return Ok(Relation::Equals);
    }
    Err(Stop::Unexpected)
}
