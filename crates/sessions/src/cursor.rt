ghost use Rattle.std.specs.Prelude.{◌≡◌, ◌≤◌, ◌+◌, ◌-◌, min, vec_len, length};
ghost use Rattle.std.specs.Prelude.{take, drop};
ghost use Rattle.sessions.specs.Kept.{kept_entries};

use crate::KeptRow;
use prima_base::Name;
use temporal_lang_types::When;

/// An open cursor: the answer at its opening, and how many of its rows were fetched.
#[derive(Drop)]
pub struct Cursor {
    pub(crate) rows: Vec<KeptRow>,
    pub(crate) fetched: usize,
    // the periods of the rows are told
    pub(crate) periods: bool,
    ghost within: { fetched ≤ vec_len rows },
}

/// What is told of an open cursor: its session and name, and how many rows were fetched of how
/// many.
#[derive(Clone, Copy)]
pub struct CursorLine<'a> {
    pub session: u32,
    pub name: &'a Name,
    pub fetched: u64,
    pub total: u64,
}

impl Cursor {
    ghost use Rattle.std.specs.Prelude.{◌≡◌, ◌≤◌, ◌+◌, ◌-◌, min, vec_len, length};
    ghost use Rattle.sessions.specs.Kept.{kept_entries};
    ghost use Rattle.sessions.specs.SessionStates.{a_cursor, advanced};
    ghost use Rattle.sessions.specs.Meaning.{plain_cursor};
    ghost use Rattle.sessions.specs.Lines.{line_of, line_seen};
    ghost use Rattle.sessions.specs.Steps.{tells_periods};

    // A cursor on these rows, of which none was fetched.
    pub(crate) fn on(rows: Vec<KeptRow>, when: When) -> Cursor
        ensures cursor { plain_cursor result
            ≡ a_cursor (kept_entries rows.items) 0 (tells_periods when) }
        ensures rows { result.rows.items ≡ rows.items }
    {
        let periods = match when {
            When::AsOf(_) => false,
            When::Always | When::During(..) => true,
        };
        Cursor {
            rows,
            fetched: 0,
            periods,
        }
    }

    // How many rows there are in all.
    pub(crate) fn total(&self) -> u64
        ensures { result ≡ length self.now.rows.items }
    {
        self.rows.len() as u64
    }

    // What is told of it, under its session and name.
    pub(crate) fn line<'a>(&self, session: u32, name: &'a Name) -> CursorLine<'a>
        ensures { line_seen result ≡ line_of ((session, name.now), plain_cursor self.now) }
    {
        CursorLine {
            session,
            name,
            fetched: self.fetched as u64,
            total: self.rows.len() as u64,
        }
    }

    // Goes on over the next rows: so many, or all that are left. Tells from where.
    pub(crate) fn advance(&mut self, count: u32) -> usize
        ensures from { result ≡ self.old.fetched }
        ensures within { result ≤ length self.old.rows.items }
        ensures rows { self.new.rows.items ≡ self.old.rows.items }
        ensures advanced { plain_cursor self.new ≡ advanced count (plain_cursor self.old) }
    {
        let from = self.fetched;
        self.fetched = from + next_rows(&self.rows, from, count).len();
        from
    }
}

// The rows from a place on: so many, or all that are left.
pub(crate) fn next_rows(rows: &[KeptRow], from: usize, count: u32) -> &[KeptRow]
    requires { from ≤ length rows.now }
    ensures rows { kept_entries result.now ≡ take count (drop from (kept_entries rows.now)) }
    ensures within { from + length result.now ≤ length rows.now }
{
    let rest = &rows[from..];
    &rest[..rest.len().min(count as usize)]
}
