//! Answers to one question asked for each of many numbers, where equal ones stand in one line.

use crate::numeral::write_number;
use prima_base::NoMemory;

/// The numbers since the last line, all of which have one answer.
#[derive(Drop)]
struct Group {
    first: u64,
    last: u64,
    answer: Vec<u8>,
}

/// The lines so far, and the group that is open.
#[derive(Drop)]
pub struct Groups {
    open: Option<Group>,
}

impl Groups {
    /// No group is open.
    pub fn new() -> Groups {
        Groups { open: None }
    }

    /// The answer for the next number.
    pub fn add(
        &mut self,
        number: u64,
        answer: Vec<u8>,
        lines: &mut Vec<u8>,
    ) -> Result<(), NoMemory> {
        if let Some(group) = &mut self.open {
            if group.answer.as_slice() == answer.as_slice() {
                group.last = number;
                return Ok(());
            }
        }
        self.end(lines)?;
        self.open = Some(Group {
            first: number,
            last: number,
            answer,
        });
        Ok(())
    }

    /// Writes the line of the group that is open.
    pub fn end(&mut self, lines: &mut Vec<u8>) -> Result<(), NoMemory> {
        if let Some(group) = &self.open {
            write_number(group.first, lines)?;
            if group.last != group.first {
                lines.extend_from_slice(b"..")?;
                write_number(group.last, lines)?;
            }
            lines.push(b' ')?;
            lines.extend_from_slice(&group.answer)?;
            lines.push(b'\n')?;
        }
        self.open = None;
        Ok(())
    }
}
