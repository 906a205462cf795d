//! Cases played one after the other.

ghost use Rattle.std.specs.Prelude.{◌≤◌, length};

use crate::block::{Block, block_of};
use crate::oddity::{Oddity, oddity_of};
use crate::run::run_oddly;
use itoa::Buffer;
use prima_base::NoMemory;
use prima_io::{MemSink, MemSource};
use script_cli::Word;
use std::alloc::{AllocError, Global};

// How many bytes the replies to one script may have.
const ROOM: usize = 1 << 20;

// How many bytes of a script are handed out at once.
const CHUNK: usize = 7;

// The replies to a script, and the number of the status with which its run ended.
#[derive(Drop)]
struct Played {
    replies: Vec<u8>,
    code: u8,
}

// Plays one script.
fn play_script(alloc: Global, odd: Option<Oddity>, script: &[u8]) -> Result<Played, NoMemory> {
    let mut words: Vec<Word> = Vec::new(alloc);
    words.push(String::from_str(alloc, "run")?)?;
    let bytes = Vec::from_slice(alloc, script)?;
    let mut source = MemSource::new(bytes, CHUNK, Vec::new(alloc));
    let mut sink = MemSink::new(alloc, ROOM, Vec::new(alloc))?;
    let status = run_oddly(alloc, odd, &words, &mut source, &mut sink)?;
    Ok(Played {
        replies: Vec::from_slice(alloc, sink.written())?,
        code: status.code(),
    })
}

// The cases that are being played: what stands before each, and what was answered so far.
#[derive(Drop)]
struct Player {
    alloc: Global,
    block: Block,
    odd: Option<Oddity>,
    setup: Vec<u8>,
    setup_replies: usize,
    script: Vec<u8>,
    answers: Vec<u8>,
}

impl Player {
    fn new(alloc: Global) -> Player {
        Player {
            alloc,
            block: Block::Setup,
            odd: None,
            setup: Vec::new(alloc),
            setup_replies: 0,
            script: Vec::new(alloc),
            answers: Vec::new(alloc),
        }
    }

    // The script before this point stands before those of the cases to come.
    fn end_setup(&mut self) -> Result<(), NoMemory> {
        let played = play_script(self.alloc, None, &self.script)?;
        self.setup_replies = played.replies.len();
        self.setup = Vec::from_slice(self.alloc, &self.script)?;
        Ok(())
    }

    // Plays the script before this point, and tells the replies that are its own.
    fn end_case(&mut self) -> Result<(), NoMemory> {
        let is_after = self.block == Block::After;
        let mut whole = Vec::new(self.alloc);
        if is_after {
            whole.extend_from_slice(&self.setup)?;
        }
        whole.extend_from_slice(&self.script)?;
        let played = play_script(self.alloc, self.odd, &whole)?;
        let from = if is_after { self.setup_replies } else { 0 };
        let own = played.replies.get(from..).unwrap_or_default();
        self.answers.extend_from_slice(own)?;
        self.answers.extend_from_slice(b"status ")?;
        let mut digits = Buffer::new();
        self.answers
            .extend_from_slice(digits.format(played.code).as_bytes())?;
        self.answers.push(b'\n')?;
        Ok(())
    }

    // Ends the block before a line, or before the text's end.
    fn end_block(&mut self) -> Result<(), NoMemory> {
        if self.block == Block::Setup {
            self.end_setup()?;
        } else {
            self.end_case()?;
        }
        self.script.clear();
        Ok(())
    }

    // Begins the block of a line.
    fn begin_block(&mut self, block: Block, line: &[u8]) -> Result<(), NoMemory> {
        self.end_block()?;
        self.block = block;
        self.odd = oddity_of(line);
        if block != Block::Setup {
            self.answers.extend_from_slice(b"== ")?;
            self.answers
                .extend_from_slice(line.get(3..).unwrap_or_default())?;
            self.answers.push(b'\n')?;
        }
        Ok(())
    }

    // Takes the next line, without its line break.
    fn line(&mut self, line: &[u8]) -> Result<(), NoMemory> {
        if let Some(block) = block_of(line) {
            return self.begin_block(block, line);
        }
        self.script.extend_from_slice(line)?;
        self.script.push(b'\n')?;
        Ok(())
    }
}

/// Plays each case of a text of lines, and answers for each its line `== name`, the replies to its
/// script, those to its setup left out, and the line `status N` of the run. The one error comes
/// where memory runs out.
pub fn play(alloc: Global, cases: &[u8]) -> Result<Vec<u8>, AllocError> {
    match play_lines(alloc, cases) {
        Ok(answers) => Ok(answers),
        Err(NoMemory) => Err(AllocError),
    }
}

// The same, with the one word when out of memory that the crates below have.
fn play_lines(alloc: Global, cases: &[u8]) -> Result<Vec<u8>, NoMemory> {
    let mut player = Player::new(alloc);
    let mut begin = 0;
    for at in 0..cases.len() {
        if cases[at] == b'\n' {
            player.line(cases.get(begin..at).unwrap_or_default())?;
            begin = at + 1;
        }
    }
    if begin < cases.len() {
        player.line(cases.get(begin..).unwrap_or_default())?;
    }
    player.end_block()?;
    Ok(player.answers)
}
