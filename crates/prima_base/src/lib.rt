//! Values, names, rows, periods and refusals: the words that every other crate speaks in.
//!
//! A contract sees a text and a name as their bytes, a row as the list of its values, a period as
//! its two moments, and a counter as its count.
#![tactic(auto)]

mod agg_row;
mod column;
mod failure;
mod fault;
mod keep;
pub mod limits;
mod name;
mod period;
mod refusal;
mod reserved;
mod row;
mod text;
mod timed_row;
mod value;

pub use agg_row::{AggRow, AggValue};
pub use column::copy_columns;
pub use failure::{Failed, NoMemory};
pub use fault::CallFault;
pub use keep::Keep;
pub use name::{Name, NameFault, is_name_byte};
pub use period::{FOREVER, Period, meet};
pub use prima_base_counter::Steps;
pub use refusal::{OpKind, OpRefusal, Refusal, What};
pub use reserved::push_all_reserved;
pub use row::{Row, rows_are_told_apart};
pub use text::{Txt, TxtFault};
pub use timed_row::TimedRow;
pub use value::{ColType, Val, Value, compare_vals, copy_vals};
