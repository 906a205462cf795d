//! The lines of a case.

use cases_text::{first_word, read_number, read_value};
use prima_base::{FOREVER, NoMemory, Period, Val};
use std::alloc::Global;
use temporal_lang_types::{AggItem, Relation};

/// What a line says.
#[derive(Clone, Copy)]
pub(crate) enum Line<'a> {
    Name(&'a [u8]),
    Left(&'a [u8]),
    Lefts(&'a [u8]),
    Right(&'a [u8]),
    Slice(&'a [u8]),
    Pairs(&'a [u8]),
    Aggregate(&'a [u8]),
    Note,
}

/// Reads a line; what is none of the lines of a case is a note.
pub(crate) fn read_line(line: &[u8]) -> Line<'_> {
    let (word, text) = first_word(line);
    match word {
        b"==" => Line::Name(text),
        b"left" => Line::Left(text),
        b"lefts" => Line::Lefts(text),
        b"right" => Line::Right(text),
        b"slice" => Line::Slice(text),
        b"pairs" => Line::Pairs(text),
        b"aggregate" => Line::Aggregate(text),
        _ => Line::Note,
    }
}

/// The relation of this name.
pub(crate) fn read_relation(word: &[u8]) -> Option<Relation> {
    match word {
        b"BEFORE" => Some(Relation::Before),
        b"MEETS" => Some(Relation::Meets),
        b"OVERLAPS" => Some(Relation::Overlaps),
        b"CONTAINS" => Some(Relation::Contains),
        b"EQUALS" => Some(Relation::Equals),
        _ => None,
    }
}

/// The period of the first two words, if it has a moment, and the words after them.
pub(crate) fn read_period(text: &[u8]) -> (Option<Period>, &[u8]) {
    let (start, others) = first_word(text);
    let (end, words) = first_word(others);
    let end = match end {
        b"now" => FOREVER,
        _ => read_number(end),
    };
    (Period::new(read_number(start), end), words)
}

/// The values that the words spell.
pub(crate) fn read_values(alloc: Global, text: &[u8]) -> Result<Vec<Val<'static>>, NoMemory> {
    let mut values = Vec::new(alloc);
    if text.is_empty() {
        return Ok(values);
    }
    for word in text.split(|byte| *byte == b' ') {
        values.push(read_value(alloc, word)?.to_val()?)?;
    }
    Ok(values)
}

// A number of 32 bits; a greater one is the greatest.
fn read_small(word: &[u8]) -> u32 {
    match u32::try_from(read_number(word)) {
        Ok(number) => number,
        Err(_) => u32::MAX,
    }
}

// Reads an item, or the number behind BY into the group, and answers the words after it.
fn read_item<'t>(
    text: &'t [u8],
    items: &mut Vec<AggItem>,
    group: &mut u32,
) -> Result<&'t [u8], NoMemory> {
    let (word, others) = first_word(text);
    let (number, after) = first_word(others);
    let number = read_small(number);
    match word {
        b"MIN" => items.push(AggItem::Min(number))?,
        b"MAX" => items.push(AggItem::Max(number))?,
        b"SUM" => items.push(AggItem::Sum(number))?,
        b"BY" => *group = number,
        _ => {
            items.push(AggItem::Count)?;
            return Ok(others);
        }
    }
    Ok(after)
}

/// The items that the words spell, and by how many values the rows are grouped.
pub(crate) fn read_items(alloc: Global, text: &[u8]) -> Result<(Vec<AggItem>, u32), NoMemory> {
    let mut items = Vec::new(alloc);
    let mut group = 0;
    let mut left = text;
    for _ in 0..text.len() {
        if !left.is_empty() {
            left = read_item(left, &mut items, &mut group)?;
        }
    }
    Ok((items, group))
}
