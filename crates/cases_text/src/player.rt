//! Cases that stand in lines.

use prima_base::NoMemory;
use std::alloc::AllocError;

/// What plays cases, one line after the other.
pub trait LinePlayer {
    /// Plays a line, without the line feed after it.
    fn line(&mut self, line: &[u8]) -> Result<(), NoMemory>;

    /// Ends the case that was played last.
    fn end(&mut self) -> Result<(), NoMemory> {
        Ok(())
    }
}

fn play_each<P: LinePlayer>(player: &mut P, cases: &[u8]) -> Result<(), NoMemory> {
    for line in cases.split(|byte| *byte == b'\n') {
        player.line(line)?;
    }
    player.end()
}

/// Plays each line of a text. The one error comes where memory runs out.
pub fn play_lines<P: LinePlayer>(player: &mut P, cases: &[u8]) -> Result<(), AllocError> {
    match play_each(player, cases) {
        Ok(()) => Ok(()),
        Err(NoMemory) => Err(AllocError),
    }
}
