//! The lines of replies: what is answered to a query, to a command, to a checkpoint and to
//! sessions, the pieces that a query runs, the versions, the tables of a schema, the lifelines of
//! tables, and the refusals. Each is put into a sink.
//!
//! `specs/Texts.antt`, `specs/SessionTexts.antt` and `specs/RefusalTexts.antt` say each line by its
//! bytes.
#![tactic(auto)]

mod aggregate;
mod explanation;
mod lifeline;
mod line;
mod listing;
mod made_reply;
mod pair;
mod printer;
mod refusal;
mod reply;
mod schema;
mod session;
mod stop;
mod version;

pub use aggregate::put_aggregate;
pub use explanation::{explain_text, put_explained};
pub use lifeline::{put_count, put_size};
pub use listing::{Listing, put_listing};
pub use pair::{put_pair, put_pair_count};
pub use printer::piece_text;
pub use refusal::put_refusal;
pub use reply::{put_changed, put_checkpoint, put_evolved, put_not_a_journal, put_wrong_words};
pub use schema::put_schema;
pub use session::{
    put_aborted, put_begun, put_buffered, put_closed, put_cursor, put_empty, put_kept, put_opened,
};
pub use stop::PutStop;
pub use version::put_versions;
