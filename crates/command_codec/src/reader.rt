//! Reading bytes from the start.

ghost use Rattle.std.specs.Prelude.{◌≡◌, ◌++◌, ℕ, List};
ghost use Rattle.command_codec_spec.specs.Reading.{Parsed, digits};

use prima_base::{NoMemory, is_name_byte};
use std::alloc::{AllocError, AllocFailed};

/// With the byte at the reader no spelling goes on, or the bytes ended: the one reason for which
/// nothing is read where no memory is taken.
#[derive(Clone, Copy, PartialEq, Eq)]
pub struct Unexpected;

/// Why nothing was read.
#[derive(Clone, Copy, PartialEq, Eq)]
pub enum ReadStop {
    /// Memory ran out. Where the reader stands then is not said.
    NoMemory,
    /// With the byte at the reader no spelling goes on, or the bytes ended.
    Unexpected,
}

impl From<Unexpected> for ReadStop {
    ghost use Rattle.std.specs.Prelude.{◌≡◌};
    ghost use Rattle.command_codec.specs.declared.reader.ReadStop.TheVariants as stop;

    ghost from_gives = { λ _ e. e ≡ stop.Unexpected };

    fn from(_stop: Unexpected) -> ReadStop {
        ReadStop::Unexpected
    }
}

impl From<AllocError> for ReadStop {
    ghost use Rattle.std.specs.Prelude.{◌≡◌};
    ghost use Rattle.command_codec.specs.declared.reader.ReadStop.TheVariants as stop;

    ghost from_gives = { λ _ e. e ≡ stop.NoMemory };

    fn from(_error: AllocError) -> ReadStop {
        ReadStop::NoMemory
    }
}

impl<T: Drop> From<AllocFailed<T>> for ReadStop {
    ghost use Rattle.std.specs.Prelude.{◌≡◌};
    ghost use Rattle.command_codec.specs.declared.reader.ReadStop.TheVariants as stop;

    ghost from_gives = { λ _ e. e ≡ stop.NoMemory };

    fn from(_error: AllocFailed<T>) -> ReadStop {
        ReadStop::NoMemory
    }
}

impl From<NoMemory> for ReadStop {
    ghost use Rattle.std.specs.Prelude.{◌≡◌};
    ghost use Rattle.command_codec.specs.declared.reader.ReadStop.TheVariants as stop;

    ghost from_gives = { λ _ e. e ≡ stop.NoMemory };

    fn from(_error: NoMemory) -> ReadStop {
        ReadStop::NoMemory
    }
}

/// Which bytes may stand in a row.
#[derive(Clone, Copy, PartialEq, Eq)]
pub enum Alphabet {
    /// ASCII letters, digits and `_`.
    Named,
    /// All but those below 0x20 and 0x7F.
    Printed,
}

impl Alphabet {
    ghost use Rattle.std.specs.Prelude.{◌≡◌};
    ghost use Rattle.command_codec.specs.Answers.{takes as may_stand};

    // Whether the byte may stand there.
    fn takes(self, byte: u8) -> bool
        ensures { result ≡ may_stand self byte }
    {
        match self {
            Alphabet::Named => is_name_byte(byte),
            Alphabet::Printed => !(byte < 0x20 || byte == 0x7F),
        }
    }
}

// The number of eight bytes, the highest first.
fn number_of(bytes: &[u8; 8]) -> u64
    ensures { (rest : List ℕ) → digits u64.MAX 8 0 (bytes.now ++ rest) ≡ Parsed result rest }
{
    u64::from_be_bytes(*bytes)
}

/// The bytes that are not yet read.
#[derive(Drop)]
pub struct Reader<'a> {
    /// The bytes from the next one on.
    pub rest: &'a [u8],
}

impl<'a> Reader<'a> {
    ghost use Rattle.std.specs.Prelude.{◌≡◌, ◌+◌, ◌*◌, ◌/◌, ◌≤◌, ◌<◌, ◌^◌, ◌&&◌, nat_lt, nat_le, ℕ};
    ghost use Rattle.std.specs.Prelude.{length, IfOk};
    ghost use Rattle.command_codec_spec.specs.Reading.{byte, digits, run, map_to};
    ghost use Rattle.command_codec_spec.specs.Reader as spec;
    ghost use Rattle.command_codec.specs.Reads.{ReadsInPlace};
    ghost use Rattle.command_codec.specs.Answers.{takes as may_stand};

    /// The next byte, if it is at most this.
    pub fn tag(&mut self, most: u8) -> Result<u8, Unexpected>
        ensures { ReadsInPlace (λ b. b) (byte (spec.up_to most) self.old.rest.now) result
            self.new.rest.now }
    {
        match self.rest {
            [first, rest @ ..] if *first <= most => {
                self.rest = rest;
                Ok(*first)
            }
            _ => Err(Unexpected),
        }
    }

    // A number that goes on with the next byte after `high`, if it is at most this.
    fn digit(&mut self, high: u64, most: u64) -> Result<u64, Unexpected>
        requires { high ≤ most / 256 }
        ensures { ReadsInPlace (λ n. n) (map_to (λ b. high * 256 + b)
            (byte (λ b. nat_lt b 256 && nat_le (high * 256 + b) most)) self.old.rest.now) result
            self.new.rest.now }
    {
        let [first, rest @ ..] = self.rest else {
            return Err(Unexpected);
        };
        let number = high * 256 + *first as u64;
        if number > most {
            return Err(Unexpected);
        }
        self.rest = rest;
        Ok(number)
    }

    /// A number of so many bytes, at most 8, the highest first, if it is at most `most`.
    pub fn number(&mut self, width: u32, most: u64) -> Result<u64, Unexpected>
        requires { width ≤ 8 }
        ensures { ReadsInPlace (λ n. n) (digits most width 0 self.old.rest.now) result
            self.new.rest.now }
    {
        let mut number = 0;
        let mut left = width;
        while left > 0 {
            left -= 1;
            number = self.digit(number, most >> (8 * left))?;
        }
        Ok(number)
    }

    /// A number of eight bytes, the highest first. They are taken at once where so many are left.
    pub fn number_64(&mut self) -> Result<u64, Unexpected>
        ensures { ReadsInPlace (λ n. n) (digits u64.MAX 8 0 self.old.rest.now) result
            self.new.rest.now }
    {
        match self.rest.split_first_chunk::<8>() {
            Some((bytes, rest)) => {
                self.rest = rest;
                Ok(number_of(bytes))
            }
            None => self.number(8, u64::MAX),
        }
    }

    /// The next byte, if it begins a name.
    pub fn name_start(&mut self) -> Result<u8, Unexpected>
        ensures { ReadsInPlace (λ b. b) (byte spec.is_name_start self.old.rest.now) result
            self.new.rest.now }
    {
        match self.rest {
            [first @ (b'a'..=b'z' | b'A'..=b'Z' | b'_'), rest @ ..] => {
                self.rest = rest;
                Ok(*first)
            }
            _ => Err(Unexpected),
        }
    }

    /// The next byte, if it is a name's length.
    pub fn name_length(&mut self) -> Result<u8, Unexpected>
        ensures { ReadsInPlace (λ b. b) (byte spec.is_name_length self.old.rest.now) result
            self.new.rest.now }
    {
        match self.rest {
            [first @ 1..=63, rest @ ..] => {
                self.rest = rest;
                Ok(*first)
            }
            _ => Err(Unexpected),
        }
    }

    // The next byte, if it may stand there.
    fn one_of(&mut self, alphabet: Alphabet) -> Result<u8, Unexpected>
        ensures { ReadsInPlace (λ b. b) (byte (may_stand alphabet) self.old.rest.now) result
            self.new.rest.now }
    {
        match self.rest {
            [first, rest @ ..] if alphabet.takes(*first) => {
                self.rest = rest;
                Ok(*first)
            }
            _ => Err(Unexpected),
        }
    }

    /// So many bytes, each of which may stand there.
    pub fn run(&mut self, alphabet: Alphabet, count: usize) -> Result<&'a [u8], Unexpected>
        ensures { ReadsInPlace (λ s. s.now) (run (may_stand alphabet) count self.old.rest.now)
            result
            self.new.rest.now }
    {
        let start = self.rest;
        let mut left = count;
        while left > 0 {
            self.one_of(alphabet)?;
            left -= 1;
        }
        Ok(&start[..count])
    }
}
