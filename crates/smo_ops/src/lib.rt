//! Schema modification operators, changes of rows, and the commands that are made of them: what
//! each means, and the checks before a command is accepted.
//!
//! The types stand in `smo_ops_types`, with their plain mirrors that contracts see; what they mean
//! in `smo_ops_spec`, and the ways from version to version in `smo_ops_versions_spec`; the schema
//! after an operator in `smo_ops_operators`. The checks and the effects of changes stand here, and
//! all is exported again.
#![tactic(auto)]

mod check;
mod count;
mod effect;
mod type_check;
mod version;

pub use check::{CheckedChange, check_change, check_changes};
pub use count::{check_counts, check_evolve, check_size};
pub use effect::{inserted_row, make_set, row_meets, row_value, row_with_sets};
pub use prima_base::OpRefusal;
pub use smo_ops_operators::{
    Made, OwnColumns, after, check_inverse, check_way_back, consumed, derived, made, made_of,
    operator_refusal, schema_after,
};
pub use smo_ops_spec::{
    a_command_is_checked_by_the_newest_schema, a_command_is_seen_from_its_stamp_on,
    a_list_is_refused_by_its_first_refused_member, a_past_has_the_states_of_its_history,
    a_version_is_in_force_up_to_the_next, add_column_keeps_the_cells, an_inverse_leads_back,
    change_keeps_a_relation, changes_keep_a_database, commands_make_valid_pasts,
    consumed_tables_are_gone, copy_keeps_the_rows, counted_operators_are_few, counts_are_by_table,
    create_table_is_valid, created_table_is_empty, decompose_makes_the_projections,
    decomposed_and_joined_again, drop_column_keeps_the_other_cells, gains_and_losses_fit,
    insertions_are_a_union, join_has_the_cells_of_both, losses_are_handed_on, made_columns_by_name,
    made_tables_are_there, made_tables_depend_on_their_inputs, merge_is_the_union,
    migrated_database_is_of_the_next_schema, next_schema_is_valid,
    no_gain_and_no_loss_is_no_change, nop_changes_nothing, other_tables_stay,
    partition_is_in_two_parts, pasts_that_agree_have_the_same_states,
    rename_column_keeps_the_cells, rename_keeps_the_rows, valid_values_stay,
};
pub use smo_ops_types::{
    Body, Change, ChangeFault, Command, InverseFault, Op, OpFault, Version, Versions,
};
pub use smo_ops_versions_spec::{
    a_lost_table_may_be_taken_for_an_empty_one, a_step_is_over_its_version,
    copied_and_dropped_is_as_before, each_table_has_a_column, losses_by_name_are_step_by_step,
    made_columns_are_lost_by_rules, made_tables_are_lost_by_rules, names_tell_what_is_lost,
    partitioned_and_merged_is_as_before, renamed_back_is_as_before,
    steps_back_lose_what_is_not_there, the_way_is_step_by_step, the_way_keeps_a_database,
    the_way_keeps_valid_values, what_is_derived_leads_back, what_is_lost_has_no_inverse,
    what_is_lost_is_lost_from_later_versions,
};
pub use version::begins_at;
