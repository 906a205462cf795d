//! Why a text has no tokens.

use std::alloc::AllocError;

/// Why a text has no tokens. A place counts the text's bytes from 0.
#[derive(Clone, Copy)]
pub enum LexFault {
    /// The list of tokens found no memory.
    NoMemory,
    /// The place of a byte that begins no token, or of a control byte inside a text literal.
    BadByte(u32),
    /// The place of the opening quote of a text literal that does not end.
    OpenQuote(u32),
    /// The place of the first byte of a number below -2^63 or above 2^64 - 1.
    BigNumber(u32),
    /// The place of the opening quote of a text literal that stands for more than 4,096 bytes.
    LongText(u32),
}

impl From<AllocError> for LexFault {
    ghost use Rattle.std.specs.Prelude.{◌≡◌};
    ghost use Rattle.lexer_spec.specs.declared.fault.LexFault.TheVariants.{NoMemory};

    ghost from_gives = { λ _ e. e ≡ NoMemory };

    fn from(_error: AllocError) -> LexFault {
        LexFault::NoMemory
    }
}

impl<T: Drop> From<std::alloc::AllocFailed<T>> for LexFault {
    ghost use Rattle.std.specs.Prelude.{◌≡◌};
    ghost use Rattle.lexer_spec.specs.declared.fault.LexFault.TheVariants.{NoMemory};

    ghost from_gives = { λ _ e. e ≡ NoMemory };

    fn from(_error: std::alloc::AllocFailed<T>) -> LexFault {
        LexFault::NoMemory
    }
}
