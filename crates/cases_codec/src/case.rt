//! A case: bytes, and how they are read.

use crate::command_text::write_command;
use crate::line::{Line, read_line};
use crate::sweep::{write_changes, write_cuts};
use cases_text::{LinePlayer, play_lines, read_hex, write_hex, write_number};
use command_codec::{
    CodecFault, decode, encode, put_name, put_op, put_value, read_name, read_op, read_value,
};
use prima_base::NoMemory;
use std::alloc::{AllocError, Global};

// The bytes of the case that is being played, and the answers so far.
#[derive(Drop)]
struct Case {
    alloc: Global,
    bytes: Vec<u8>,
    answers: Vec<u8>,
}

// Why bytes are no spelling.
fn write_fault(fault: CodecFault, text: &mut Vec<u8>) -> Result<(), NoMemory> {
    match fault {
        CodecFault::NoMemory => text.extend_from_slice(b"out of memory")?,
        CodecFault::BadAt(place) => {
            text.extend_from_slice(b"bad ")?;
            write_number(place, text)?;
        }
        CodecFault::Rest(place) => {
            text.extend_from_slice(b"rest ")?;
            write_number(place, text)?;
        }
    }
    text.push(b'\n')?;
    Ok(())
}

// A part as it is written again, and the place after it.
fn write_part(bytes: &[u8], to: usize, text: &mut Vec<u8>) -> Result<(), NoMemory> {
    write_hex(bytes, text)?;
    text.extend_from_slice(b" to ")?;
    write_number(to as u64, text)?;
    text.push(b'\n')?;
    Ok(())
}

impl Case {
    fn new(alloc: Global) -> Case {
        Case {
            alloc,
            bytes: Vec::new(alloc),
            answers: Vec::new(alloc),
        }
    }

    fn begin(&mut self, name: &[u8]) -> Result<(), NoMemory> {
        self.bytes.clear();
        self.answers.extend_from_slice(b"== ")?;
        self.answers.extend_from_slice(name)?;
        self.answers.push(b'\n')?;
        Ok(())
    }

    fn decode(&mut self) -> Result<(), NoMemory> {
        match decode(self.alloc, &self.bytes) {
            Ok(command) => {
                let again = encode(self.alloc, &command)?;
                write_command(self.alloc, command, &mut self.answers)?;
                if again.as_slice() != self.bytes.as_slice() {
                    self.answers.extend_from_slice(b", and written again ")?;
                    write_hex(&again, &mut self.answers)?;
                }
                self.answers.push(b'\n')?;
                Ok(())
            }
            Err(fault) => write_fault(fault, &mut self.answers),
        }
    }

    fn read_name(&mut self, from: usize) -> Result<(), NoMemory> {
        match read_name(self.alloc, &self.bytes, from.min(self.bytes.len())) {
            Ok((name, to)) => {
                let mut again = Vec::new(self.alloc);
                put_name(&mut again, &name)?;
                write_part(&again, to, &mut self.answers)
            }
            Err(fault) => write_fault(fault, &mut self.answers),
        }
    }

    fn read_value(&mut self, from: usize) -> Result<(), NoMemory> {
        match read_value(self.alloc, &self.bytes, from.min(self.bytes.len())) {
            Ok((value, to)) => {
                let mut again = Vec::new(self.alloc);
                put_value(&mut again, &value)?;
                write_part(&again, to, &mut self.answers)
            }
            Err(fault) => write_fault(fault, &mut self.answers),
        }
    }

    fn read_operator(&mut self, from: usize) -> Result<(), NoMemory> {
        match read_op(self.alloc, &self.bytes, from.min(self.bytes.len())) {
            Ok((op, to)) => {
                let mut again = Vec::new(self.alloc);
                put_op(&mut again, &op)?;
                write_part(&again, to, &mut self.answers)
            }
            Err(fault) => write_fault(fault, &mut self.answers),
        }
    }
}

impl LinePlayer for Case {
    fn line(&mut self, line: &[u8]) -> Result<(), NoMemory> {
        match read_line(line) {
            Line::Name(name) => self.begin(name),
            Line::Bytes(hex) => read_hex(hex, &mut self.bytes),
            Line::Decode => self.decode(),
            Line::Cuts => write_cuts(self.alloc, &self.bytes, &mut self.answers),
            Line::Set(byte) => write_changes(self.alloc, &self.bytes, byte, &mut self.answers),
            Line::ReadName(from) => self.read_name(from as usize),
            Line::ReadValue(from) => self.read_value(from as usize),
            Line::ReadOperator(from) => self.read_operator(from as usize),
            Line::Note => Ok(()),
        }
    }
}

/// Plays the cases of a text of lines. The one error comes where memory runs out.
pub(crate) fn play(alloc: Global, cases: &[u8]) -> Result<Vec<u8>, AllocError> {
    let mut case = Case::new(alloc);
    play_lines(&mut case, cases)?;
    Ok(case.answers)
}
