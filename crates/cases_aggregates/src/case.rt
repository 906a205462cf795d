//! A case: the rows of two sides, and what is asked of them.

use crate::answer::{write_count, write_entry, write_group};
use crate::line::{Line, read_items, read_line, read_period, read_relation, read_values};
use crate::listing::aggregate_listing;
use cases_text::{LinePlayer, first_word, play_lines, read_number, with_number};
use coalesce::coalesce_in_place;
use period_join::Pairs;
use prima_base::{NoMemory, Period};
use prima_base_rows::TimedRows;
use std::alloc::{AllocError, Global};
use temporal_lang_types::Relation;

// The case that is played: the rows of both sides, the slice in which they are listed, and what all
// cases so far are answered.
#[derive(Drop)]
struct Case {
    alloc: Global,
    left: TimedRows<'static>,
    right: TimedRows<'static>,
    slice: Period,
    answers: Vec<u8>,
}

// Puts a row of these words after the others; a period without a moment puts none.
fn put_row(alloc: Global, rows: &mut TimedRows<'static>, text: &[u8]) -> Result<(), NoMemory> {
    let (period, words) = read_period(text);
    let mut values = read_values(alloc, words)?;
    match period {
        None => Ok(()),
        Some(period) => rows.push_from(&mut values, period),
    }
}

impl Case {
    fn new(alloc: Global) -> Case {
        Case {
            alloc,
            left: TimedRows::new(alloc),
            right: TimedRows::new(alloc),
            slice: Period::from(0),
            answers: Vec::new(alloc),
        }
    }

    fn begin(&mut self, name: &[u8]) -> Result<(), NoMemory> {
        self.left.truncate(0);
        self.right.truncate(0);
        self.slice = Period::from(0);
        self.answers.extend_from_slice(b"== ")?;
        self.answers.extend_from_slice(name)?;
        self.answers.push(b'\n')?;
        Ok(())
    }

    // A row for each number from the first to the last, with the number in its place.
    fn put_numbered(&mut self, text: &[u8]) -> Result<(), NoMemory> {
        let (first, others) = first_word(text);
        let (last, words) = first_word(others);
        for number in read_number(first)..=read_number(last) {
            let text = with_number(self.alloc, words, number)?;
            put_row(self.alloc, &mut self.left, &text)?;
        }
        Ok(())
    }

    fn set_slice(&mut self, text: &[u8]) {
        if let (Some(slice), _) = read_period(text) {
            self.slice = slice;
        }
    }

    fn write_pair(&mut self, left: usize, right: usize) -> Result<(), NoMemory> {
        if left < self.left.len() && right < self.right.len() {
            let answers = &mut self.answers;
            answers.extend_from_slice(b"pair")?;
            write_entry(self.left.period(left), self.left.values(left), answers)?;
            answers.extend_from_slice(b" with")?;
            write_entry(self.right.period(right), self.right.values(right), answers)?;
            answers.push(b'\n')?;
        }
        Ok(())
    }

    // The related pairs, as many as there can be.
    fn related(&self, relation: Relation) -> Result<Vec<(usize, usize)>, NoMemory> {
        let mut found = Vec::new(self.alloc);
        let mut pairs = Pairs::new(&self.left, &self.right, relation);
        let most = (self.left.len() as u64).wrapping_mul(self.right.len() as u64);
        for _ in 0..=most {
            match pairs.next_pair() {
                None => return Ok(found),
                Some(pair) => found.push(pair)?,
            }
        }
        Ok(found)
    }

    fn pairs(&mut self, word: &[u8]) -> Result<(), NoMemory> {
        let Some(relation) = read_relation(word) else {
            return Ok(());
        };
        coalesce_in_place(&mut self.left, self.slice);
        coalesce_in_place(&mut self.right, self.slice);
        let found = self.related(relation)?;
        for (left, right) in found.iter() {
            self.write_pair(*left, *right)?;
        }
        write_count(found.len() as u64, &mut self.answers)
    }

    fn aggregate(&mut self, text: &[u8]) -> Result<(), NoMemory> {
        let (items, group) = read_items(self.alloc, text)?;
        let listed = aggregate_listing(self.alloc, &mut self.left, self.slice, group, &items)?;
        for row in listed.iter() {
            write_group(row, &mut self.answers)?;
        }
        write_count(listed.len() as u64, &mut self.answers)
    }
}

impl LinePlayer for Case {
    fn line(&mut self, line: &[u8]) -> Result<(), NoMemory> {
        match read_line(line) {
            Line::Name(name) => self.begin(name),
            Line::Left(text) => put_row(self.alloc, &mut self.left, text),
            Line::Lefts(text) => self.put_numbered(text),
            Line::Right(text) => put_row(self.alloc, &mut self.right, text),
            Line::Slice(text) => {
                self.set_slice(text);
                Ok(())
            }
            Line::Pairs(word) => self.pairs(word),
            Line::Aggregate(text) => self.aggregate(text),
            Line::Note => Ok(()),
        }
    }
}

/// Plays the cases of a text of lines. The one error comes where memory runs out.
pub(crate) fn play(alloc: Global, cases: &[u8]) -> Result<Vec<u8>, AllocError> {
    let mut case = Case::new(alloc);
    play_lines(&mut case, cases)?;
    Ok(case.answers)
}
