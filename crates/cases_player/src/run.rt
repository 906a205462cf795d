//! A run over an empty disk in memory: with every rule, or with one that is odd.

use crate::odd_rule::{OppositeRule, RuleWithoutMemory};
use crate::oddity::{How, Oddity};
use disk_model::MemDisk;
use prima_base::NoMemory;
use prima_io::{Sink, Source};
use rewrite_rules::{
    AddColumnRule, CopyTableRule, CreateTableRule, DecomposeTableRule, DropColumnRule,
    DropTableRule, JoinTableRule, MergeTableRule, NopRule, PartitionTableRule, RenameColumnRule,
    RenameTableRule, Rule, RuleBook, push_every_rule,
};
use script_cli::{Status, Word, run};
use std::alloc::Global;

// How many writes and syncs the disk of a script has room for, and how many bytes.
const DISK_CALLS: u64 = 1 << 16;

const DISK_ROOM: u64 = 1 << 22;

// Runs a script over an empty disk in memory, with these rules.
fn run_by<S: Source, K: Sink, R: Rule>(
    alloc: Global,
    rules: Vec<R>,
    words: &[Word],
    source: &mut S,
    sink: &mut K,
) -> Result<Status, NoMemory> {
    let Ok(book) = RuleBook::new(alloc, rules) else {
        return Err(NoMemory);
    };
    let mut disk = MemDisk::new(alloc, Vec::new(alloc), DISK_CALLS, DISK_ROOM)?;
    Ok(run(alloc, words, &book, source, sink, &mut disk))
}

/// Runs a script over an empty disk in memory, with one rule for each kind of operator. The one
/// error comes where there is no memory for the rules or the disk.
pub fn run_with_rules<S: Source, K: Sink>(
    alloc: Global,
    words: &[Word],
    source: &mut S,
    sink: &mut K,
) -> Result<Status, NoMemory> {
    let mut rules: Vec<Box<dyn Rule>> = Vec::new(alloc);
    push_every_rule!(alloc, rules);
    run_by(alloc, rules, words, source, sink)
}

// The rule made odd and put at the end of the book. A macro: a rule in its box is made where the
// book is made.
macro_rules! push_odd {
    ($alloc:expr, $rules:expr, $how:expr, $rule:expr) => {
        match $how {
            How::NoMemory => $rules.push(Box::new($alloc, RuleWithoutMemory { rule: $rule })?)?,
            How::Opposite => $rules.push(Box::new($alloc, OppositeRule { rule: $rule })?)?,
        }
    };
}

// The odd rule of a book put at its end; at a place of no kind that of RENAME COLUMN.
macro_rules! push_odd_rule {
    ($alloc:expr, $rules:expr, $odd:expr) => {
        match $odd.place {
            0 => push_odd!($alloc, $rules, $odd.how, NopRule),
            1 => push_odd!($alloc, $rules, $odd.how, CreateTableRule),
            2 => push_odd!($alloc, $rules, $odd.how, DropTableRule),
            3 => push_odd!($alloc, $rules, $odd.how, RenameTableRule),
            4 => push_odd!($alloc, $rules, $odd.how, CopyTableRule),
            5 => push_odd!($alloc, $rules, $odd.how, MergeTableRule),
            6 => push_odd!($alloc, $rules, $odd.how, PartitionTableRule),
            7 => push_odd!($alloc, $rules, $odd.how, DecomposeTableRule),
            8 => push_odd!($alloc, $rules, $odd.how, JoinTableRule),
            9 => push_odd!($alloc, $rules, $odd.how, AddColumnRule),
            10 => push_odd!($alloc, $rules, $odd.how, DropColumnRule),
            _ => push_odd!($alloc, $rules, $odd.how, RenameColumnRule),
        }
    };
}

/// The same, with one odd rule in the place of that of its kind.
pub(crate) fn run_oddly<S: Source, K: Sink>(
    alloc: Global,
    odd: Option<Oddity>,
    words: &[Word],
    source: &mut S,
    sink: &mut K,
) -> Result<Status, NoMemory> {
    let mut rules: Vec<Box<dyn Rule>> = Vec::new(alloc);
    push_every_rule!(alloc, rules);
    match odd {
        Some(odd) if odd.place < rules.len() => {
            rules.remove(odd.place);
            push_odd_rule!(alloc, rules, odd);
        }
        _ => {}
    }
    run_by(alloc, rules, words, source, sink)
}
