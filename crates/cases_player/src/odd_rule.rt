//! Rules that are lawful and answer oddly.

ghost use Rattle.cases_player.specs.Opposite.{opposite};

use piece_ir::Piece;
use prima_base::{NoMemory, OpKind};
use rewrite_rules::Rule;
use schema_catalog::Schema;
use smo_ops_types::Op;
use std::alloc::Global;

/// The rule, but that it finds no memory, whatever it is asked.
#[derive(Drop)]
pub(crate) struct RuleWithoutMemory<R: Rule> {
    pub rule: R,
}

impl<R: Rule> Rule for RuleWithoutMemory<R> {
    ghost handles = { λ r. R.handles r.rule };

    ghost answers = { λ r. R.answers r.rule };

    fn kind(&self) -> OpKind {
        self.rule.kind()
    }

    fn rewrite(
        &self,
        _alloc: Global,
        _op: &Op,
        _before: &Schema,
        _piece: &Piece,
    ) -> Result<Vec<Piece>, NoMemory> {
        Err(NoMemory)
    }
}

/// The rule, but that its pieces come in the opposite order.
#[derive(Drop)]
pub(crate) struct OppositeRule<R: Rule> {
    pub rule: R,
}

impl<R: Rule> Rule for OppositeRule<R> {
    ghost handles = { λ r. R.handles r.rule };

    ghost answers = { λ r. opposite (R.answers r.rule) };

    #[tactic(auto, using(crate::proofs::OppositeLaw::valid))]
    fn kind(&self) -> OpKind {
        self.rule.kind()
    }

    #[tactic(auto, using(crate::proofs::OppositeLaw::shown_opposite))]
    fn rewrite(
        &self,
        alloc: Global,
        op: &Op,
        before: &Schema,
        piece: &Piece,
    ) -> Result<Vec<Piece>, NoMemory> {
        let mut news = self.rule.rewrite(alloc, op, before, piece)?;
        news.reverse();
        Ok(news)
    }
}
