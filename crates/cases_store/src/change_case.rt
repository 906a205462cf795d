//! Changes made from a seed.

use cases_text::text_value;
use prima_base::{ColType, Name, NoMemory, Row, Value};
use std::alloc::Global;

// How many bytes the made texts have.
const LENGTHS: [u64; 8] = [0, 1, 2, 31, 32, 33, 64, 65];

/// Numbers by a linear congruence, the one that Knuth gives for MMIX.
#[derive(Drop)]
pub(crate) struct Numbers {
    state: u64,
}

impl Numbers {
    pub(crate) fn from_seed(seed: u64) -> Numbers {
        Numbers { state: seed }
    }

    /// The next number below this one; 0 where there is none below.
    pub(crate) fn below(&mut self, end: u64) -> u64 {
        self.state = self
            .state
            .wrapping_mul(6364136223846793005)
            .wrapping_add(1442695040888963407);
        match end {
            0 => 0,
            _ => (self.state >> 33) % end,
        }
    }
}

// The letter of this number, so many times.
fn letters(alloc: Global, number: u64, times: u64) -> Result<Vec<u8>, NoMemory> {
    let mut bytes = Vec::new(alloc);
    let letter = if number == 0 { b'a' } else { b'b' };
    for _ in 0..times {
        bytes.push(letter)?;
    }
    Ok(bytes)
}

// A number, at times the least or the greatest of all, or a text of one letter.
fn made_value(alloc: Global, numbers: &mut Numbers, kind: ColType) -> Result<Value, NoMemory> {
    match kind {
        ColType::Int => match numbers.below(12) {
            0 => Ok(Value::Int(i64::MIN)),
            1 => Ok(Value::Int(i64::MAX)),
            number => Ok(Value::Int((number % 16) as i64 - 8)),
        },
        ColType::Text => {
            let place = numbers.below(8) as usize;
            let times = LENGTHS.get(place).copied().unwrap_or(0);
            let bytes = letters(alloc, numbers.below(2), times)?;
            text_value(alloc, &bytes)
        }
    }
}

/// A row of the columns.
pub(crate) fn made_row(
    alloc: Global,
    numbers: &mut Numbers,
    columns: &[(Name, ColType)],
) -> Result<Row, NoMemory> {
    let mut values = Vec::new(alloc);
    for (_, kind) in columns {
        values.push(made_value(alloc, numbers, *kind)?)?;
    }
    Ok(Row::new(alloc, values))
}

/// What a made change does.
#[derive(Drop)]
pub(crate) struct MadeChange {
    pub(crate) lost: u64,
    pub(crate) gained: u64,
    pub(crate) whole: bool,
    pub(crate) index: Option<u64>,
    pub(crate) restore: bool,
}

/// How many rows the next change loses and gains: of most up to three, of one in 64 more than 64.
/// One in 16 is made by all rows; before one in 16 an index is asked for, and one in 64 goes on
/// with the restored table.
pub(crate) fn made_change(numbers: &mut Numbers, columns: usize) -> MadeChange {
    let many = numbers.below(64);
    let lost = match many {
        0 => 70,
        _ => numbers.below(4),
    };
    let gained = match many {
        0 | 1 => 90,
        _ => numbers.below(4),
    };
    MadeChange {
        lost,
        gained,
        whole: numbers.below(16) == 0,
        index: match numbers.below(16) {
            0 => Some(numbers.below(columns as u64)),
            _ => None,
        },
        restore: numbers.below(64) == 0,
    }
}
