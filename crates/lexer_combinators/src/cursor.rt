//! A cursor over tokens, and the steps of reading.

ghost use Rattle.std.specs.Prelude.{◌≡◌, ◌+◌, ◌≤◌, ◌<◌, length, drop, map, true, false, OnOk};
ghost use Rattle.std.specs.Prelude.{OnErr, IfErr};
ghost use Rattle.prima_base.specs.declared.refusal.What.TheVariants as what;
ghost use Rattle.lexer_combinators.specs.declared.cursor.Stop.TheVariants as stop;

use lexer_spec::{Token, TokenKind};
use prima_base::{NoMemory, What, limits};
use std::alloc::AllocError;

/// Why nothing was read.
#[derive(Clone, Copy)]
pub enum Stop {
    /// What was read found no memory. Where the cursor stands then is not said.
    NoMemory,
    /// With the token at the cursor nothing goes on, or the tokens ended.
    Unexpected,
    /// The token at the cursor is one too many of this kind.
    TooMany(What),
}

impl From<AllocError> for Stop {
    ghost use Rattle.std.specs.Prelude.{◌≡◌};
    ghost use Rattle.lexer_combinators.specs.declared.cursor.Stop.TheVariants as stop;

    ghost from_gives = { λ _ e. e ≡ stop.NoMemory };

    fn from(_error: AllocError) -> Stop {
        Stop::NoMemory
    }
}

impl<T: Drop> From<std::alloc::AllocFailed<T>> for Stop {
    ghost use Rattle.std.specs.Prelude.{◌≡◌};
    ghost use Rattle.lexer_combinators.specs.declared.cursor.Stop.TheVariants as stop;

    ghost from_gives = { λ _ e. e ≡ stop.NoMemory };

    fn from(_error: std::alloc::AllocFailed<T>) -> Stop {
        Stop::NoMemory
    }
}

impl From<NoMemory> for Stop {
    ghost use Rattle.std.specs.Prelude.{◌≡◌};
    ghost use Rattle.lexer_combinators.specs.declared.cursor.Stop.TheVariants as stop;

    ghost from_gives = { λ _ e. e ≡ stop.NoMemory };

    fn from(_error: NoMemory) -> Stop {
        Stop::NoMemory
    }
}

const MAX_NODES: u32 = limits::MAX_NODES as u32;

/// The tokens not yet read, and how many nodes were counted.
#[derive(Drop)]
pub struct Cursor<'a, 't> {
    /// The tokens from the next one on.
    pub rest: &'a [Token<'t>],
    /// The nodes of the outermost expression or condition that is being read, at most 256.
    pub nodes: u32,
    pub ghost few: { nodes ≤ 256 },
}

impl<'a, 't> Cursor<'a, 't> {
    ghost use Rattle.std.specs.Prelude.{◌≡◌, ◌+◌, ◌≤◌, ◌<◌, length, drop, map, true, false, OnOk};
    ghost use Rattle.std.specs.Prelude.{OnErr, IfErr};
    ghost use Rattle.prima_base.specs.declared.refusal.What.TheVariants as what;
    ghost use Rattle.lexer_combinators.specs.declared.cursor.Stop.TheVariants as stop;
    ghost use Rattle.lexer_spec.specs.Lexemes.{is_word, is_sign};
    ghost use Rattle.lexer_combinators.specs.Parsing.{has_room};
    ghost use Rattle.lexer_combinators.specs.Reads.{ahead, sees};

    /// Whether this word comes next.
    pub fn sees_word(&self, wanted: &[u8]) -> bool
        ensures { result ≡ sees (is_word wanted.now) (ahead self.now) }
    {
        if self.rest.is_empty() {
            return false;
        }
        let token = &self.rest[0];
        match token.kind {
            TokenKind::Word => token.text == wanted,
            _ => false,
        }
    }

    /// Whether this sign comes next.
    pub fn sees_sign(&self, wanted: &[u8]) -> bool
        ensures { result ≡ sees (is_sign wanted.now) (ahead self.now) }
    {
        if self.rest.is_empty() {
            return false;
        }
        let token = &self.rest[0];
        match token.kind {
            TokenKind::Sign => token.text == wanted,
            _ => false,
        }
    }

    /// Goes past the next token.
    pub fn skip(&mut self)
        requires { 0 < length self.old.rest.now }
        ensures rest { ahead self.new ≡ drop 1 (ahead self.old) }
        ensures fewer { length self.new.rest.now + 1 ≡ length self.old.rest.now }
        ensures nodes { self.new.nodes ≡ self.old.nodes }
    {
        self.rest = &self.rest[1..];
    }

    /// Counts a node at the next token, and goes past it.
    pub fn step(&mut self) -> Result<(), Stop>
        requires { 0 < length self.old.rest.now }
        ensures ok { OnOk result ((has_room self.old.nodes ≡ true)
            × (ahead self.new ≡ drop 1 (ahead self.old)) × (self.new.nodes ≡ self.old.nodes + 1)) }
        ensures err { IfErr result (λ e. (e ≡ stop.TooMany what.Nodes)
            × (has_room self.old.nodes ≡ false) × (ahead self.new ≡ ahead self.old)
            × (self.new.nodes ≡ self.old.nodes)) }
    {
        if self.nodes < MAX_NODES {
            self.nodes += 1;
            self.skip();
            Ok(())
        } else {
            Err(Stop::TooMany(What::Nodes))
        }
    }

    /// Goes past this word, which must come next.
    pub fn expect_word(&mut self, wanted: &[u8]) -> Result<(), Stop>
        ensures nodes { self.new.nodes ≡ self.old.nodes }
        ensures ok { OnOk result ((sees (is_word wanted.now) (ahead self.old) ≡ true)
            × (ahead self.new ≡ drop 1 (ahead self.old))) }
        ensures err { IfErr result (λ e. (e ≡ stop.Unexpected) × (ahead self.new ≡ ahead self.old)
            × (sees (is_word wanted.now) (ahead self.old) ≡ false)) }
    {
        if self.sees_word(wanted) {
            self.skip();
            Ok(())
        } else {
            Err(Stop::Unexpected)
        }
    }

    /// Goes past this sign, which must come next.
    pub fn expect_sign(&mut self, wanted: &[u8]) -> Result<(), Stop>
        ensures nodes { self.new.nodes ≡ self.old.nodes }
        ensures ok { OnOk result ((sees (is_sign wanted.now) (ahead self.old) ≡ true)
            × (ahead self.new ≡ drop 1 (ahead self.old))) }
        ensures err { IfErr result (λ e. (e ≡ stop.Unexpected) × (ahead self.new ≡ ahead self.old)
            × (sees (is_sign wanted.now) (ahead self.old) ≡ false)) }
    {
        if self.sees_sign(wanted) {
            self.skip();
            Ok(())
        } else {
            Err(Stop::Unexpected)
        }
    }

    /// Why a construct that opens at the next token and is a node is too much.
    pub fn too_deep(&self) -> Stop
        ensures deep { has_room self.now.nodes ≡ true → result ≡ stop.TooMany what.Depth }
        ensures full { has_room self.now.nodes ≡ false → result ≡ stop.TooMany what.Nodes }
    {
        if self.nodes < MAX_NODES {
            Stop::TooMany(What::Depth)
        } else {
            Stop::TooMany(What::Nodes)
        }
    }
}
