//! Cases played one after the other.

use crate::line::{Line, read_line};
use crate::reading::Reading;
use archive_core_state::ArchiveState;
use cases_text::{LinePlayer, play_lines};
use prima_base::NoMemory;
use prima_base::limits::MAX_STATEMENT;
use rewrite_rules::{Rule, RuleBook};
use script_parse::{Statement, next_statement};
use std::alloc::{AllocError, Global};

// The archive of the case that is being played, and the answers so far.
#[derive(Drop)]
struct Case<R: Rule> {
    alloc: Global,
    book: RuleBook<R>,
    archive: ArchiveState,
    answers: Vec<u8>,
}

impl<R: Rule> Case<R> {
    fn begin(&mut self, name: &[u8]) -> Result<(), NoMemory> {
        self.archive = ArchiveState::new(self.alloc);
        self.answers.extend_from_slice(b"== ")?;
        self.answers.extend_from_slice(name)?;
        self.answers.push(b'\n')?;
        Ok(())
    }

    // Commits the command of a line; one that is not accepted is told.
    fn commit(&mut self, line: &[u8]) -> Result<(), NoMemory> {
        if line.len() <= MAX_STATEMENT {
            if let Ok(Some(Statement::Write(command))) = next_statement(self.alloc, line) {
                if self.archive.commit(command).is_ok() {
                    return Ok(());
                }
            }
        }
        self.answers.extend_from_slice(b"not accepted: ")?;
        self.answers.extend_from_slice(line)?;
        self.answers.push(b'\n')?;
        Ok(())
    }

    // Tells each table, or how many there are.
    fn read(&mut self, is_each: bool) -> Result<(), NoMemory> {
        let mut reading = Reading::new(self.alloc, is_each);
        reading.read_all(&self.book, &self.archive)?;
        self.answers.extend_from_slice(&reading.lines)?;
        if !is_each {
            reading.tally.write(&mut self.answers)?;
        }
        Ok(())
    }
}

impl<R: Rule> LinePlayer for Case<R> {
    fn line(&mut self, line: &[u8]) -> Result<(), NoMemory> {
        match read_line(line) {
            Line::Name(name) => self.begin(name),
            Line::Command => self.commit(line),
            Line::Each => self.read(true),
            Line::All => self.read(false),
            Line::Note => Ok(()),
        }
    }
}

/// Plays the cases of a text of lines over a book of these rules. The one error comes where memory
/// runs out.
pub(crate) fn play<R: Rule>(
    alloc: Global,
    rules: Vec<R>,
    cases: &[u8],
) -> Result<Vec<u8>, AllocError> {
    let Ok(book) = RuleBook::new(alloc, rules) else {
        return Err(AllocError);
    };
    let mut case = Case {
        alloc,
        book,
        archive: ArchiveState::new(alloc),
        answers: Vec::new(alloc),
    };
    play_lines(&mut case, cases)?;
    let Case { answers, .. } = case;
    Ok(answers)
}
