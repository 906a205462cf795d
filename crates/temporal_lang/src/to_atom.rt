ghost use Rattle.std.specs.Prelude.{◌≡◌, ◌≤◌, length, IfOk};
ghost use Rattle.cond_expr.specs.Trees.{column};
ghost use Rattle.cond_expr.specs.Seen.{tree};

use crate::item::{alias_place, column_place};
use cond_expr::{ColRef, Expr, Fill, Whose};
use prima_base::{Name, NoMemory};
use schema_catalog::Schema;
use std::alloc::Global;

// Puts for each reference the one to the atom that is the item's place in its branch.
#[derive(Drop)]
pub(crate) struct ToAtoms<'a> {
    pub(crate) schema: &'a Schema,
    pub(crate) from: &'a [(Name, Name)],
    pub(crate) ghost few: { length from.now ≤ 8 },
}

fn atom(place: usize, name: &Name) -> Result<Expr, NoMemory>
    requires { place ≤ 8 }
    ensures { IfOk result (λ e. tree e ≡ column (Whose.Atom place) name.now) }
{
    Ok(Expr::Col(ColRef {
        whose: Whose::Atom(place as u32),
        name: name.copy()?,
    }))
}

impl<'a> Fill for ToAtoms<'a> {
    ghost use Rattle.temporal_lang_spec.specs.Atoms.{sources_of, to_atoms};

    ghost puts = { λ s. to_atoms (sources_of s.schema.now s.from.now) };

    fn put(&self, _alloc: Global, reference: &ColRef) -> Result<Expr, NoMemory> {
        match &reference.whose {
            Whose::Free => atom(
                column_place(self.schema, self.from, &reference.name),
                &reference.name,
            ),
            Whose::Alias(alias) => atom(alias_place(self.from, alias), &reference.name),
            Whose::Atom(_) => Ok(Expr::Col(reference.copy()?)),
        }
    }
}
