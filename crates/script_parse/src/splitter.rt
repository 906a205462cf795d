//! The splitter: from chunks of a script to its statements.

use crate::mode::Mode;
use prima_base::NoMemory;
use prima_base::limits::MAX_STATEMENT;
use std::alloc::Global;
use std::marker::Model;
use std::mem;

/// Cuts a script into its statements. The script comes in chunks of any sizes; the cuts depend on
/// the joined bytes alone. A splitter keeps the current statement, and of one that is too long one
/// byte more than the longest has.
#[derive(Drop)]
pub struct Splitter {
    alloc: Global,
    kept: Vec<u8>,
    mode: Mode,
    quiet: bool,
    spent: bool,
}

impl Model for Splitter {
    ghost use Rattle.script_parse.specs.Splitting.{State, IsTracked};

    ghost Value = { State };

    ghost view = { λ s. record { mode = s.mode; kept = s.kept.items; spent = s.spent } };

    ghost invariant = { λ s. IsTracked s.mode s.kept.items s.quiet };
}

/// What the bytes that were fed gave.
#[derive(Drop)]
pub enum Cut {
    /// All bytes were taken, and no statement ended.
    More,
    /// A statement, without its `;`.
    Text(Vec<u8>),
    /// A statement of more than 1,048,576 bytes, which ended at its `;`.
    TooLong,
}

/// What stands after the last `;` of a script.
#[derive(Clone, Copy, PartialEq, Eq)]
pub enum Tail {
    /// Blanks and comments alone: no statement.
    Clean,
    /// A statement that does not end.
    Unfinished,
    /// More than 1,048,576 bytes, whatever they are.
    TooLong,
}

ghost use Rattle.std.specs.Prelude.{◌≡◌, ◌+◌, ◌≤◌, ℕ, List, [], ◌∷◌, ◌++◌, ◌&&◌, false, true};
ghost use Rattle.std.specs.Prelude.{length, IfOk, OnOk, OnErr};
ghost use Rattle.prima_base.specs.Limits.{max_statement};
ghost use Rattle.script_parse.specs.Script.{is_end, is_too_long, part_of};
ghost use Rattle.script_parse.specs.Script.{parts_from, tail_from, ending, all_quiet, is_settled};
ghost use Rattle.script_parse.specs.Splitting.{State, fresh, keep, step, found, IsEndOf, IsSettled};
ghost use Rattle.script_parse.specs.Splitting.{IsFewer, IsWithin};

fn is_too_long(statement: &[u8]) -> bool
    ensures { result ≡ is_too_long statement.now }
{
    statement.len() > MAX_STATEMENT
}

// Keeps a byte of a statement; of a too long one what is kept is enough.
fn put(kept: &mut Vec<u8>, byte: u8) -> Result<(), NoMemory>
    ensures ok { OnOk result (kept.new.items ≡ keep kept.old.items byte) }
    ensures err { OnErr result (kept.new.items ≡ kept.old.items) }
{
    if !is_too_long(kept) {
        kept.push(byte)?;
    }
    Ok(())
}

impl Splitter {
    /// A splitter at the start of a script. It takes no memory.
    pub fn new(alloc: Global) -> Splitter
        ensures { result ≡ fresh }
    {
        Splitter {
            alloc,
            kept: Vec::new(alloc),
            mode: Mode::Plain,
            quiet: true,
            spent: false,
        }
    }

    fn is_end(&self, byte: u8) -> bool
        ensures { result ≡ is_end self.now.mode byte }
    {
        self.mode.is_end(byte)
    }

    // Takes a byte that ends no statement.
    fn keep(&mut self, byte: u8) -> Result<(), NoMemory>
        ensures ok { OnOk result (self.new ≡ step self.old byte) }
        ensures err { OnErr result (self.new.spent ≡ true) }
        ensures short { length self.new.kept ≤ max_statement + 1 }
    {
        match put(&mut self.kept, byte) {
            Ok(()) => {
                self.quiet = self.mode.stays_quiet(self.quiet, byte);
                self.mode = self.mode.next(byte);
                Ok(())
            }
            Err(NoMemory) => {
                self.spent = true;
                Err(NoMemory)
            }
        }
    }

    // Hands out the current statement at its `;`.
    fn end(&mut self) -> Cut
        requires { self.old.spent ≡ false }
        ensures cut { found result ≡ part_of self.old.kept ∷ [] }
        ensures within { IsWithin result }
        ensures next { self.new ≡ fresh }
    {
        let kept = mem::replace(&mut self.kept, Vec::new(self.alloc));
        self.mode = Mode::Plain;
        self.quiet = true;
        if is_too_long(&kept) {
            Cut::TooLong
        } else {
            Cut::Text(kept)
        }
    }

    /// Takes the bytes up to the end of a statement, or all of them, and answers the cut and the
    /// bytes that are left. The one error is `NoMemory`, where memory runs out; the splitter is
    /// spent then, and answers `NoMemory` from then on.
    #[tactic(auto, using(crate::proofs::ScriptReading::rest_is_end))]
    pub fn feed<'b>(&mut self, bytes: &'b [u8]) -> Result<(Cut, &'b [u8]), NoMemory>
        ensures statements { (more : List ℕ) → IfOk result
            (λ r. parts_from self.old.mode self.old.kept (bytes.now ++ more)
            ≡ found r.0 ++ parts_from self.new.mode self.new.kept (r.1.now ++ more)) }
        ensures tail { (more : List ℕ) → IfOk result
            (λ r. ending (tail_from self.old.mode self.old.kept (bytes.now ++ more))
            ≡ ending (tail_from self.new.mode self.new.kept (r.1.now ++ more))) }
        ensures rest { IfOk result (λ r. IsEndOf r.1.now bytes.now) }
        ensures fewer { IfOk result (λ r. IsFewer r.0 r.1.now bytes.now) }
        ensures within { IfOk result (λ r. IsWithin r.0) }
        ensures settled { IfOk result (λ r. IsSettled r.0 r.1.now self.new) }
        ensures kept { length self.new.kept ≤ max_statement + 1 }
        ensures before { OnOk result (self.old.spent ≡ false) }
        ensures after { OnOk result (self.new.spent ≡ false) }
        ensures spent { OnErr result (self.new.spent ≡ true) }
    {
        if self.spent {
            return Err(NoMemory);
        }
        for (i, byte) in bytes.iter().enumerate() {
            if self.is_end(*byte) {
                return Ok((self.end(), &bytes[i + 1..]));
            }
            match self.keep(*byte) {
                Ok(()) => {}
                Err(NoMemory) => return Err(NoMemory),
            }
        }
        Ok((Cut::More, &bytes[bytes.len()..]))
    }

    /// What stands after the last `;` of the script whose bytes were fed. It takes no memory.
    pub fn finish(self) -> Tail
        requires { self.spent ≡ false }
        ensures { result ≡ ending self.kept }
    {
        if is_too_long(&self.kept) {
            Tail::TooLong
        } else if self.quiet && self.mode.is_settled() {
            Tail::Clean
        } else {
            Tail::Unfinished
        }
    }
}
