//! Expressions and conditions over the columns of atoms: trees, their types with their first
//! faults, values and sizes.
//!
//! A contract sees a tree as a plain mirror of it (`specs/Trees.antt`, read by `tree` and `test` of
//! `specs/Seen.antt`), and a value as it is shown.
#![tactic(auto)]

mod atom_column;
mod borrowed;
mod comparison;
mod copy;
mod evaluation;
mod expr;
mod expr_type;
mod fault;
mod fill;
mod laws;
mod maker;
mod pin;
mod reference;
mod size;

pub use atom_column::{columns_at, push_columns_at};
pub use borrowed::lend_row;
pub use comparison::{same_way, turned_op};
pub use copy::Itself;
pub use evaluation::{decide, eval, holds};
pub use expr::{CmpOp, ColRef, Column, Cond, Expr, TreeSize, Whose};
pub use expr_type::{
    TypedExpr, check_cond, type_of, typed_cond, typed_expr, unknown_of_cond, unknown_of_expr,
    value_kind,
};
pub use fault::TypeFault;
pub use fill::{Fill, fill_cond, fill_expr};
pub use laws::{
    accepted_has_a_value_of_its_type, filling_atoms_is_substitution, filling_is_substitution,
    fillings_compose, valid_values_are_computed, values_depend_on_references_alone,
};
pub use pin::{pinned, pinned_parts_hold};
pub use reference::gather_references;
pub use size::{cond_size, expr_size};
