use crate::{ColRef, Column, Cond, Expr, Fill, Whose, fill_cond, fill_expr};
use prima_base::NoMemory;
use std::alloc::Global;

/// Puts each reference for itself.
#[derive(Drop)]
pub struct Itself;

impl Fill for Itself {
    ghost use Rattle.cond_expr.specs.Trees.{column};

    ghost puts = { λ _. column };

    fn put(&self, _alloc: Global, reference: &ColRef) -> Result<Expr, NoMemory> {
        Ok(Expr::Col(reference.copy()?))
    }
}

impl Whose {
    ghost use Rattle.std.specs.Prelude.{◌≡◌, IfOk};

    /// An equal one.
    pub fn copy(&self) -> Result<Whose, NoMemory>
        ensures { IfOk result (λ w. w ≡ self.now) }
    {
        match self {
            Whose::Free => Ok(Whose::Free),
            Whose::Alias(name) => Ok(Whose::Alias(name.copy()?)),
            Whose::Atom(atom) => Ok(Whose::Atom(*atom)),
        }
    }
}

impl ColRef {
    ghost use Rattle.std.specs.Prelude.{◌≡◌, IfOk};

    /// An equal reference.
    pub fn copy(&self) -> Result<ColRef, NoMemory>
        ensures { IfOk result (λ r. r ≡ self.now) }
    {
        Ok(ColRef {
            whose: self.whose.copy()?,
            name: self.name.copy()?,
        })
    }
}

impl Column {
    ghost use Rattle.std.specs.Prelude.{◌≡◌, IfOk};

    /// An equal column.
    pub fn copy(&self) -> Result<Column, NoMemory>
        ensures { IfOk result (λ c. c ≡ self.now) }
    {
        Ok(Column {
            atom: self.atom,
            name: self.name.copy()?,
            kind: self.kind,
        })
    }
}

impl Expr {
    ghost use Rattle.std.specs.Prelude.{◌≡◌, IfOk};
    ghost use Rattle.cond_expr.specs.Seen.{tree};

    /// An equal expression.
    #[tactic(auto, using(crate::proofs::TreeLaws::fill_itself))]
    pub fn copy(&self, alloc: Global) -> Result<Expr, NoMemory>
        ensures { IfOk result (λ e. tree e ≡ tree self.now) }
    {
        fill_expr(alloc, &Itself, self)
    }
}

impl Cond {
    ghost use Rattle.std.specs.Prelude.{◌≡◌, IfOk};
    ghost use Rattle.cond_expr.specs.Seen.{test};

    /// An equal condition.
    #[tactic(auto, using(crate::proofs::TreeLaws::test_fill_itself))]
    pub fn copy(&self, alloc: Global) -> Result<Cond, NoMemory>
        ensures { IfOk result (λ c. test c ≡ test self.now) }
    {
        fill_cond(alloc, &Itself, self)
    }
}
