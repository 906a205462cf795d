//! The twelve boxed rules, one for each kind of operator: each takes a piece over the tables after
//! an operator to pieces over those before it, by the views of the tables that the operator makes.
#![tactic(auto)]

mod add_column;
mod copy_table;
mod create_table;
mod decompose_table;
mod drop_column;
mod drop_table;
mod every_rule;
mod join_table;
mod made_table;
mod merge_table;
mod nop;
mod pair;
mod part;
mod partition_table;
mod rename_column;
mod rename_table;
mod table_view;
mod unfolded_piece;
mod view;

pub use add_column::AddColumnRule;
pub use copy_table::CopyTableRule;
pub use create_table::CreateTableRule;
pub use decompose_table::DecomposeTableRule;
pub use drop_column::DropColumnRule;
pub use drop_table::DropTableRule;
pub use join_table::JoinTableRule;
pub use merge_table::MergeTableRule;
pub use nop::NopRule;
pub use partition_table::PartitionTableRule;
pub use rename_column::RenameColumnRule;
pub use rename_table::RenameTableRule;
pub use rewrite_rules_book::{BookFault, Rule, RuleBook};
