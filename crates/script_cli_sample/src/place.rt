//! How far a sample script has come: which statement is next.

ghost use Rattle.std.specs.Prelude.{◌≡◌, ◌+◌, ◌<◌, ◌≤◌, ◌∷◌, ◌++◌, [], ℕ, filter, IfOk};
ghost use Rattle.script_cli_sample.specs.Statements as spec;
ghost use Rattle.script_cli_sample.specs.Left.{left_at, NextIs};
ghost use Rattle.script_cli_sample.specs.declared.place.Place.TheVariants as at;

use crate::statement::{
    checkpoint_made, cold_split, hot_asked, hot_then_asked, hot_updated, kind_asked, page_inserted,
    page_made, pages_asked, pages_split, retitled, state_added, title_renamed, titles_asked,
};
use prima_base::NoMemory;
use std::alloc::Global;

/// How many times the table of titles is renamed.
const TITLES: u32 = 35;

/// An operator after the rows.
#[derive(Clone, Copy, PartialEq, Eq)]
pub(crate) enum Evolution {
    State,
    Pages,
    Title,
    Cold,
}

/// A query.
#[derive(Clone, Copy, PartialEq, Eq)]
pub(crate) enum Question {
    Pages,
    HotThen,
    Hot,
    Kind,
    Titles,
}

/// The statement that is next.
#[derive(Clone, Copy, PartialEq, Eq)]
pub(crate) enum Place {
    Start,
    /// The row with this number, if it is one of the script's.
    Row(u32),
    Evolve(Evolution),
    /// The next update from the row with this number on, or the checkpoint after the last.
    Update(u32),
    /// The next renaming after so many.
    Retitle(u32),
    Ask(Question),
    End,
}

/// A statement and what comes after it; none at the end.
pub(crate) type Next = Option<(Vec<u8>, Place)>;

// A query, and the next one.
fn ask(alloc: Global, size: u32, question: Question) -> Result<Next, NoMemory>
    ensures { IfOk result (λ it. NextIs size (left_at size (at.Ask question)) it) }
{
    match question {
        Question::Pages => Ok(Some((pages_asked(alloc)?, Place::Ask(Question::HotThen)))),
        Question::HotThen => Ok(Some((hot_then_asked(alloc, size)?, Place::Ask(Question::Hot)))),
        Question::Hot => Ok(Some((hot_asked(alloc)?, Place::Ask(Question::Kind)))),
        Question::Kind => Ok(Some((kind_asked(alloc)?, Place::Ask(Question::Titles)))),
        Question::Titles => Ok(Some((titles_asked(alloc)?, Place::End))),
    }
}

// A renaming, or what comes after all of them.
fn retitle(alloc: Global, size: u32, j: u32) -> Result<Next, NoMemory>
    ensures { IfOk result (λ it. NextIs size (left_at size (at.Retitle j)) it) }
{
    if j < TITLES {
        Ok(Some((retitled(alloc, size, j)?, Place::Retitle(j + 1))))
    } else {
        ask(alloc, size, Question::Pages)
    }
}

fn is_hot(i: u32) -> bool
    ensures { result ≡ spec.is_hot i }
{
    i % 4 == 0
}

// The first number from this one on that is one of a row of kind 0, or the size where there is
// none.
fn next_hot(size: u32, i: u32) -> u32
    requires { i ≤ size }
    ensures within { result ≤ size }
    ensures found { result < size → filter spec.is_hot (spec.numbers i size) ≡ result
        ∷ filter spec.is_hot (spec.numbers (result + 1) size) }
    ensures none { size ≤ result → filter spec.is_hot (spec.numbers i size) ≡ [] }
{
    let mut i = i;
    'cold: while i < size {
        if is_hot(i) {
            return i;
        }
        i += 1;
    }
    i
}

// The checkpoint, and the first renaming.
fn checkpoint(alloc: Global) -> Result<Next, NoMemory>
    ensures { (size : ℕ) → IfOk result (λ it.
        NextIs size (spec.checkpoint_made ∷ (spec.retitlings size ++ spec.questions size)) it) }
{
    Ok(Some((checkpoint_made(alloc)?, Place::Retitle(0))))
}

// An update, or what comes after all of them.
fn update(alloc: Global, size: u32, i: u32) -> Result<Next, NoMemory>
    ensures { IfOk result (λ it. NextIs size (left_at size (at.Update i)) it) }
{
    if i >= size {
        return checkpoint(alloc);
    }
    let i = next_hot(size, i);
    if i < size {
        Ok(Some((hot_updated(alloc, size, i)?, Place::Update(i + 1))))
    } else {
        checkpoint(alloc)
    }
}

// An operator after the rows, and the next one.
fn evolve(alloc: Global, size: u32, evolution: Evolution) -> Result<Next, NoMemory>
    ensures { IfOk result (λ it. NextIs size (left_at size (at.Evolve evolution)) it) }
{
    match evolution {
        Evolution::State => Ok(Some((state_added(alloc, size)?, Place::Evolve(Evolution::Pages)))),
        Evolution::Pages => Ok(Some((pages_split(alloc, size)?, Place::Evolve(Evolution::Title)))),
        Evolution::Title => Ok(Some((title_renamed(alloc, size)?, Place::Evolve(Evolution::Cold)))),
        Evolution::Cold => Ok(Some((cold_split(alloc, size)?, Place::Update(0)))),
    }
}

// A row, or what comes after all of them.
fn insert(alloc: Global, size: u32, i: u32) -> Result<Next, NoMemory>
    ensures { IfOk result (λ it. NextIs size (left_at size (at.Row i)) it) }
{
    if i < size {
        Ok(Some((page_inserted(alloc, i)?, Place::Row(i + 1))))
    } else {
        evolve(alloc, size, Evolution::State)
    }
}

/// The statement at this place of the script of this size, and the place after it. The one error is
/// `NoMemory`, where memory runs out.
pub(crate) fn step(alloc: Global, size: u32, place: Place) -> Result<Next, NoMemory>
    ensures { IfOk result (λ it. NextIs size (left_at size place) it) }
{
    match place {
        Place::Start => Ok(Some((page_made(alloc)?, Place::Row(0)))),
        Place::Row(i) => insert(alloc, size, i),
        Place::Evolve(evolution) => evolve(alloc, size, evolution),
        Place::Update(i) => update(alloc, size, i),
        Place::Retitle(j) => retitle(alloc, size, j),
        Place::Ask(question) => ask(alloc, size, question),
        Place::End => Ok(None),
    }
}
