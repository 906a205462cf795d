use cond_expr::{Cond, Expr};
use prima_base::{Name, NoMemory};
use std::alloc::Global;

/// A table that an operator makes, as a query over the tables before: for each choice of one row
/// per atom that meets all parts, a row. In a column that is named it has the output there, and in
/// any other what the first atom's row has in the column of this name.
#[derive(Drop)]
pub struct View {
    /// The tables, by their names.
    pub atoms: Vec<Name>,
    /// What a choice has to meet. No part: each choice is taken.
    pub parts: Vec<Cond>,
    /// The outputs, by their names.
    pub outs: Vec<(Name, Expr)>,
}

/// A table that an operator makes, with its views: it is their union.
#[derive(Drop)]
pub struct TableViews {
    /// The made table.
    pub table: Name,
    /// Its views. None: it has no rows.
    pub views: Vec<View>,
}

impl View {
    ghost use Rattle.std.specs.Prelude.{◌≡◌, [], ◌∷◌, IfOk, map};
    ghost use Rattle.cond_expr.specs.Seen.{test};
    ghost use Rattle.smo_ops_types.specs.Changes.{sets_of};
    ghost use Rattle.piece_ir_spec.specs.Views.{whole as whole_table};
    ghost use Rattle.piece_ir.specs.Shown.{view_of};

    /// Of one table the rows that meet all parts, with these outputs. The one error is `NoMemory`,
    /// where memory runs out.
    pub fn of_table(
        alloc: Global,
        table: &Name,
        parts: Vec<Cond>,
        outs: Vec<(Name, Expr)>,
    ) -> Result<View, NoMemory>
        ensures { IfOk result (λ v. view_of v
            ≡ record {
              atoms = table.now ∷ [];
              parts = map test parts.items;
              outs =
                  sets_of outs.items;
            }) }
    {
        let mut atoms = Vec::new(alloc);
        atoms.push(table.copy()?)?;
        Ok(View { atoms, parts, outs })
    }

    /// All rows of one table, as they are. The one error is `NoMemory`, where memory runs out.
    pub fn whole(alloc: Global, table: &Name) -> Result<View, NoMemory>
        ensures { IfOk result (λ v. view_of v ≡ whole_table table.now) }
    {
        View::of_table(alloc, table, Vec::new(alloc), Vec::new(alloc))
    }
}
