//! A case: a file, a script, and the devices that fail.

use crate::answer::{write_end, write_file, write_opened};
use crate::line::{Line, read_line};
use crate::run::{
    Devices, Played, Runs, last_image, open, play_crashes, play_fuse, play_moments, play_once,
    play_twice,
};
use cases_text::{Groups, LinePlayer, play_lines, read_hex};
use prima_base::NoMemory;
use script_cli::Word;
use std::alloc::{AllocError, Global};

// Over how many devices of one kind a script is run at most.
const MOST: u64 = 1 << 8;

// The case that is being played, how much the source hands out a call, and the answers so far.
#[derive(Drop)]
struct Case {
    alloc: Global,
    words: Vec<Word>,
    file: Vec<u8>,
    script: Vec<u8>,
    later: Vec<u8>,
    chunk: u64,
    answers: Vec<u8>,
}

// A kind of devices, one for each number.
#[derive(Clone, Copy, PartialEq, Eq)]
enum Kind {
    Source,
    Sink,
    Room,
    Disk,
    Fuse,
}

impl Case {
    fn new(alloc: Global) -> Case {
        Case {
            alloc,
            words: Vec::new(alloc),
            file: Vec::new(alloc),
            script: Vec::new(alloc),
            later: Vec::new(alloc),
            chunk: 7,
            answers: Vec::new(alloc),
        }
    }

    fn begin(&mut self, name: &[u8]) -> Result<(), NoMemory> {
        self.file.clear();
        self.script.clear();
        self.later.clear();
        self.chunk = 7;
        self.words(b" run")?;
        self.answers.extend_from_slice(b"== ")?;
        self.answers.extend_from_slice(name)?;
        self.answers.push(b'\n')?;
        Ok(())
    }

    // The words, each after a blank. What is no UTF-8 is no word.
    fn words(&mut self, list: &[u8]) -> Result<(), NoMemory> {
        self.words.clear();
        for word in list.split(|byte| *byte == b' ').skip(1) {
            if let Ok(text) = std::str::from_utf8(word) {
                self.words.push(String::from_str(self.alloc, text)?)?;
            }
        }
        Ok(())
    }

    fn runs(&self) -> Runs<'_> {
        Runs {
            words: &self.words,
            file: &self.file,
            script: &self.script,
        }
    }

    // Runs the script over the file, tells how it ended, and keeps the file that is left.
    fn end(&mut self) -> Result<(), NoMemory> {
        let (ended, file) = play_once(self.alloc, self.runs(), Devices::sure(self.alloc))?;
        write_end(ended.code, &ended.replies, &mut self.answers)?;
        self.file = file;
        self.script.clear();
        Ok(())
    }

    // The same, and tells the bytes of the file.
    fn run(&mut self) -> Result<(), NoMemory> {
        self.end()?;
        write_file(&self.file, &mut self.answers)?;
        self.answers.push(b'\n')?;
        Ok(())
    }

    // The same without them.
    fn run_untold(&mut self) -> Result<(), NoMemory> {
        self.end()?;
        self.answers.push(b'\n')?;
        Ok(())
    }

    // Mounts the archive of the file, which stays as it is.
    fn open(&mut self) -> Result<(), NoMemory> {
        let opened = open(self.alloc, &self.file)?;
        write_opened(opened, &mut self.answers)?;
        self.answers.push(b'\n')?;
        Ok(())
    }

    // Runs the case's script over the device of this kind and number.
    fn play_over(&self, kind: Kind, number: u64) -> Result<Played, NoMemory> {
        let mut devices = Devices::sure(self.alloc);
        devices.chunk = self.chunk as usize;
        match kind {
            Kind::Source => devices.failing_takes.push(number)?,
            Kind::Sink => devices.failing_puts.push(number)?,
            Kind::Room => devices.room = number as usize,
            Kind::Disk => devices.disk_calls = number,
            Kind::Fuse => return play_fuse(self.alloc, self.runs(), number),
        }
        play_twice(self.alloc, self.runs(), &self.later, devices)
    }

    // Runs the case's script over the devices of this kind in turn, up to one that does not fail in
    // the run.
    fn play_each(&mut self, kind: Kind) -> Result<(), NoMemory> {
        let mut groups = Groups::new();
        for number in 0..MOST {
            let played = self.play_over(kind, number)?;
            groups.add(number, played.text, &mut self.answers)?;
            if played.code < 2 {
                break;
            }
        }
        groups.end(&mut self.answers)
    }
}

// Crashes of a run.
impl Case {
    // Runs the case's script over disks that pass no call, one call, and so on, up to one that
    // passes all calls of the run, and opens what a crash after each may leave.
    fn crash_each(&mut self) -> Result<(), NoMemory> {
        let (_ended, whole) = play_once(self.alloc, self.runs(), Devices::sure(self.alloc))?;
        let mut groups = Groups::new();
        for passes in 0..MOST {
            let played = play_crashes(self.alloc, self.runs(), &whole, passes)?;
            groups.add(passes, played.text, &mut self.answers)?;
            if played.code < 2 {
                break;
            }
        }
        groups.end(&mut self.answers)
    }

    // Runs the case's script, and opens what a crash at each moment of the run may leave.
    fn crash_at_each_moment(&mut self) -> Result<(), NoMemory> {
        let runs = Runs {
            words: &self.words,
            file: &self.file,
            script: &self.script,
        };
        play_moments(self.alloc, runs, &mut self.answers)
    }

    // Runs the case's script, and tells the bytes that a crash at its end leaves where all written
    // ones are kept.
    fn image(&mut self) -> Result<(), NoMemory> {
        let image = last_image(self.alloc, self.runs())?;
        self.answers.extend_from_slice(b"image")?;
        write_file(&image, &mut self.answers)?;
        self.answers.push(b'\n')?;
        Ok(())
    }
}

impl LinePlayer for Case {
    fn line(&mut self, line: &[u8]) -> Result<(), NoMemory> {
        match read_line(line) {
            Line::Name(name) => self.begin(name),
            Line::File(hex) => read_hex(hex, &mut self.file),
            Line::Words(list) => self.words(list),
            Line::Script(text) => put_line(text, &mut self.script),
            Line::Later(text) => put_line(text, &mut self.later),
            Line::Chunk(most) => {
                self.chunk = most;
                Ok(())
            }
            Line::Run => self.run(),
            Line::Ends => self.run_untold(),
            Line::Opens => self.open(),
            Line::Sources => self.play_each(Kind::Source),
            Line::Sinks => self.play_each(Kind::Sink),
            Line::Rooms => self.play_each(Kind::Room),
            Line::Disks => self.play_each(Kind::Disk),
            Line::Fuses => self.play_each(Kind::Fuse),
            Line::Crashes => self.crash_each(),
            Line::Moments => self.crash_at_each_moment(),
            Line::Image => self.image(),
            Line::Note => Ok(()),
        }
    }
}

// Puts a line after those of a script.
fn put_line(text: &[u8], script: &mut Vec<u8>) -> Result<(), NoMemory> {
    script.extend_from_slice(text)?;
    script.push(b'\n')?;
    Ok(())
}

/// Plays each case of a text of lines. The one error comes where memory runs out.
pub(crate) fn play(alloc: Global, cases: &[u8]) -> Result<Vec<u8>, AllocError> {
    let mut case = Case::new(alloc);
    play_lines(&mut case, cases)?;
    Ok(case.answers)
}
