//! A case: changes of one table, made in both stores.

use crate::change_case::{MadeChange, Numbers, made_change, made_row};
use crate::comparison::Difference;
use crate::line::{Line, read_line};
use crate::pair::Pair;
use crate::word::read_row;
use cases_store_tables::{add_copies, current};
use cases_text::{LinePlayer, first_word, play_lines, read_number, with_number, write_number};
use prima_base::{ColType, Name, NameFault, NoMemory, Row};
use std::alloc::{AllocError, Global};

// How many rows are looked at one by one, and how many of more than that.
const MOST_ROWS: usize = 24;

const SOME_ROWS: usize = 6;

// The case that is played: both tables, the rows that the next change loses and gains, all that
// came in changes so far, the number of steps, and the step at which the tables first differed.
#[derive(Drop)]
struct Case {
    alloc: Global,
    name: Vec<u8>,
    pair: Pair,
    lost: Vec<Row>,
    gained: Vec<Row>,
    seen: Vec<Row>,
    steps: u64,
    found: Option<(u64, Difference)>,
    answers: Vec<u8>,
}

// What is told of a difference.
fn write_difference(difference: Difference, text: &mut Vec<u8>) -> Result<(), NoMemory> {
    match difference {
        Difference::Sizes => text.extend_from_slice(b"sizes")?,
        Difference::Rows => text.extend_from_slice(b"current rows")?,
        Difference::Holding => text.extend_from_slice(b"rows held")?,
        Difference::Between => text.extend_from_slice(b"rows between cuts")?,
        Difference::RowsWith => text.extend_from_slice(b"rows with a value")?,
        Difference::Few => text.extend_from_slice(b"how many are few")?,
        Difference::Keys => text.extend_from_slice(b"keys")?,
        Difference::Cells => text.extend_from_slice(b"cells")?,
        Difference::RowsAt(moment) => {
            text.extend_from_slice(b"rows at ")?;
            write_number(moment, text)?;
        }
        Difference::Restored => text.extend_from_slice(b"restored table")?,
        Difference::Change => text.extend_from_slice(b"no change of the table")?,
    }
    Ok(())
}

impl Case {
    fn new(alloc: Global) -> Case {
        Case {
            alloc,
            name: Vec::new(alloc),
            pair: Pair::new(alloc),
            lost: Vec::new(alloc),
            gained: Vec::new(alloc),
            seen: Vec::new(alloc),
            steps: 0,
            found: None,
            answers: Vec::new(alloc),
        }
    }

    fn begin(&mut self, name: &[u8]) -> Result<(), NoMemory> {
        self.end()?;
        self.name = Vec::from_slice(self.alloc, name)?;
        self.pair = Pair::new(self.alloc);
        self.lost.clear();
        self.gained.clear();
        self.seen.clear();
        self.steps = 0;
        self.found = None;
        Ok(())
    }

    // Puts a column after the others; what is no name makes none.
    fn column(&mut self, text: &[u8]) -> Result<(), NoMemory> {
        let (name, kind) = first_word(text);
        let kind = match kind {
            b"int" => ColType::Int,
            _ => ColType::Text,
        };
        match Name::new(self.alloc, name) {
            Ok(name) => self.pair.add_column(name, kind),
            Err(NameFault::NoMemory) => Err(NoMemory),
            Err(_) => Ok(()),
        }
    }

    fn note(&mut self, difference: Option<Difference>) {
        if let (None, Some(difference)) = (self.found, difference) {
            self.found = Some((self.steps, difference));
        }
    }

    // Makes the change in both tables, by all rows or row by row; what is none of the table is
    // noted.
    fn apply(&mut self, stamp: u64, whole: bool) -> Result<(), NoMemory> {
        self.steps = self.steps.wrapping_add(1);
        let is_change = if whole {
            self.pair
                .change_whole(stamp, &mut self.lost, &mut self.gained)?
        } else {
            self.pair.change(stamp, &mut self.lost, &mut self.gained)?
        };
        if !is_change {
            self.note(Some(Difference::Change));
        }
        Ok(())
    }

    // Makes the change, and compares all after it.
    fn change(&mut self, stamp: u64, whole: bool) -> Result<(), NoMemory> {
        add_copies(&mut self.seen, &self.lost)?;
        add_copies(&mut self.seen, &self.gained)?;
        self.apply(stamp, whole)?;
        self.lost.clear();
        self.gained.clear();
        self.compare_all()
    }

    // Of the rows that came in changes so many that all can be compared at each: all of them where
    // they are few.
    fn some_seen(&self) -> Result<Vec<Row>, NoMemory> {
        let step = if self.seen.len() <= MOST_ROWS {
            1
        } else {
            self.seen.len() / SOME_ROWS
        };
        let mut rows = Vec::new(self.alloc);
        for (place, row) in self.seen.iter().enumerate() {
            if place.checked_rem(step) == Some(0) {
                rows.push(row.copy()?)?;
            }
        }
        Ok(rows)
    }

    fn compare_all(&mut self) -> Result<(), NoMemory> {
        self.seen.sort_unstable();
        self.seen.dedup();
        let rows = self.some_seen()?;
        let now = self.pair.compare_now(&rows)?;
        self.note(now);
        let histories = self.pair.compare_histories()?;
        self.note(histories);
        Ok(())
    }

    // Asks for an index, and compares all after it.
    fn index(&mut self, column: u64) -> Result<(), NoMemory> {
        self.steps = self.steps.wrapping_add(1);
        self.pair.index(column)?;
        self.compare_all()
    }

    // Goes on with the table that the scans make; that they make none is noted.
    fn go_on(&mut self) -> Result<(), NoMemory> {
        if !self.pair.restore()? {
            self.note(Some(Difference::Restored));
        }
        Ok(())
    }

    // The same, and compares all after it.
    fn restore(&mut self) -> Result<(), NoMemory> {
        self.steps = self.steps.wrapping_add(1);
        self.go_on()?;
        self.compare_all()
    }

    // A row for each number from the first to the last, with the number in its place.
    fn numbered(&self, text: &[u8]) -> Result<Vec<Row>, NoMemory> {
        let (first, others) = first_word(text);
        let (last, words) = first_word(others);
        let mut rows = Vec::new(self.alloc);
        for number in read_number(first)..=read_number(last) {
            let text = with_number(self.alloc, words, number)?;
            rows.push(read_row(self.alloc, &text)?)?;
        }
        Ok(rows)
    }

    // Draws the rows that a made change loses and gains.
    fn draw(&mut self, numbers: &mut Numbers, made: &MadeChange) -> Result<(), NoMemory> {
        let current = self.pair.plain().current()?;
        for _ in 0..made.lost {
            let place = numbers.below(current.len() as u64) as usize;
            if let Some(row) = current.get(place) {
                self.lost.push(row.copy()?)?;
            }
        }
        let mut rows = Vec::new(self.alloc);
        for _ in 0..made.gained {
            rows.push(made_row(self.alloc, numbers, self.pair.columns())?)?;
        }
        self.gained = self.pair.plain().fresh(&rows)?;
        Ok(())
    }

    // Makes one of the made changes, and compares what the tables show now, looked at by one row of
    // it.
    fn make(&mut self, numbers: &mut Numbers) -> Result<(), NoMemory> {
        let made = made_change(numbers, self.pair.columns().len());
        if made.restore {
            self.go_on()?;
        }
        if let Some(column) = made.index {
            self.pair.index(column)?;
        }
        self.draw(numbers, &made)?;
        let stamp = self.pair.last().wrapping_add(1);
        self.apply(stamp, made.whole)?;
        let mut row = Vec::new(self.alloc);
        for first in [self.lost.first(), self.gained.first()] {
            if let Some(first) = first {
                row.push(first.copy()?)?;
            }
        }
        self.lost.clear();
        self.gained.clear();
        let now = self.pair.compare_now(&row)?;
        self.note(now);
        Ok(())
    }

    // So many of them from a seed; after each so many all is compared.
    fn made(&mut self, text: &[u8]) -> Result<(), NoMemory> {
        let (seed, others) = first_word(text);
        let (count, every) = first_word(others);
        let every = read_number(every);
        let mut numbers = Numbers::from_seed(read_number(seed));
        let mut left = every;
        for _ in 0..read_number(count) {
            self.make(&mut numbers)?;
            left = left.saturating_sub(1);
            if left == 0 {
                let histories = self.pair.compare_histories()?;
                self.note(histories);
                left = every;
            }
        }
        Ok(())
    }

    fn figures(&mut self) -> Result<(), NoMemory> {
        let Some(table) = self.pair.stored() else {
            return Ok(());
        };
        let rows = current(table)?.len();
        self.answers.extend_from_slice(&self.name)?;
        self.answers.extend_from_slice(b": rows ")?;
        write_number(rows as u64, &mut self.answers)?;
        self.answers.extend_from_slice(b", keys ")?;
        write_number(table.keys(), &mut self.answers)?;
        self.answers.extend_from_slice(b", cells ")?;
        write_number(table.cells(), &mut self.answers)?;
        self.answers.push(b'\n')?;
        Ok(())
    }

    // Puts rows among those that the next change gains, or loses.
    fn rows(&mut self, line: Line<'_>) -> Result<(), NoMemory> {
        match line {
            Line::Gain(text) => self.gained.push(read_row(self.alloc, text)?)?,
            Line::Lose(text) => self.lost.push(read_row(self.alloc, text)?)?,
            Line::Gains(text) => {
                let rows = self.numbered(text)?;
                add_copies(&mut self.gained, &rows)?;
            }
            Line::Loses(text) => {
                let rows = self.numbered(text)?;
                add_copies(&mut self.lost, &rows)?;
            }
            _ => {}
        }
        Ok(())
    }
}

impl LinePlayer for Case {
    fn line(&mut self, line: &[u8]) -> Result<(), NoMemory> {
        match read_line(line) {
            Line::Name(name) => self.begin(name),
            Line::Column(text) => self.column(text),
            Line::At(stamp) => self.change(stamp, false),
            Line::Whole(stamp) => self.change(stamp, true),
            Line::Index(column) => self.index(column),
            Line::Restore => self.restore(),
            Line::Made(text) => self.made(text),
            Line::Figures => self.figures(),
            rows => self.rows(rows),
        }
    }

    // Answers the case that was played, if there is one.
    fn end(&mut self) -> Result<(), NoMemory> {
        if self.name.is_empty() {
            return Ok(());
        }
        self.answers.extend_from_slice(&self.name)?;
        match self.found {
            None => self.answers.extend_from_slice(b": same")?,
            Some((step, difference)) => {
                self.answers.extend_from_slice(b": step ")?;
                write_number(step, &mut self.answers)?;
                self.answers.extend_from_slice(b", ")?;
                write_difference(difference, &mut self.answers)?;
            }
        }
        self.answers.push(b'\n')?;
        Ok(())
    }
}

/// Plays the cases of a text of lines. The one error comes where memory runs out.
pub(crate) fn play(alloc: Global, cases: &[u8]) -> Result<Vec<u8>, AllocError> {
    let mut case = Case::new(alloc);
    play_lines(&mut case, cases)?;
    Ok(case.answers)
}
