//! The ways between the versions of a past: a database taken from version to version, forward over
//! the operators and back over their inverses, named or derived, and the fillings of dropped
//! columns; and the tables and columns that are lost on the way, by names alone. And the lifelines
//! of tables: the longest runs of versions in which no operator makes or consumes one. Definitions
//! (`specs/`) and their laws.
#![tactic(auto)]

mod lifeline_laws;
mod loss_laws;
mod round_trip;
mod way_laws;

pub use lifeline_laws::each_version_has_the_tables_of_its_lifelines;
pub use loss_laws::{
    losses_by_name_are_step_by_step, made_columns_are_lost_by_rules, made_tables_are_lost_by_rules,
    steps_back_lose_what_is_not_there,
};
pub use round_trip::{
    copied_and_dropped_is_as_before, partitioned_and_merged_is_as_before, renamed_back_is_as_before,
};
pub use way_laws::{
    a_lost_table_may_be_taken_for_an_empty_one, a_step_is_over_its_version,
    each_table_has_a_column, names_tell_what_is_lost, the_way_is_step_by_step,
    the_way_keeps_a_database, the_way_keeps_valid_values, what_is_derived_leads_back,
    what_is_lost_has_no_inverse, what_is_lost_is_lost_from_later_versions,
};
