//! The lists of a join as levels: what is looked up, and tested, beside a choice of one row of each
//! list before. The choices are made one after the other, so that at any time a level keeps the
//! rows beside one choice alone.

ghost use Rattle.std.specs.Prelude.{◌≡◌, ◌+◌, ◌++◌, ◌<◌, ◌^◌, ℕ, true, List, [], ◌∷◌, map, IfOk};
ghost use Rattle.std.specs.Prelude.{OnOk};
ghost use Rattle.std.specs.List.{filter, sum_by};
ghost use Rattle.relations_spec.specs.Spans.{covers};
ghost use Rattle.relations_spec.specs.Timed.{Entry, held_at, at};
ghost use Rattle.prima_base.specs.declared.value.Value.{Value as OneValue};
ghost use Rattle.prima_base.specs.Order.{row_cmp};
ghost use Rattle.prima_base.specs.Timed.{entries_of, rows_at};
ghost use Rattle.cond_expr.specs.Seen.{tree, test};
ghost use Rattle.join_exec_spec.specs.Answering.{answers};
ghost use Rattle.join_exec_spec.specs.Choosing.{complete_choices};
ghost use Rattle.join_exec_spec.specs.Fitting.{Fit};
ghost use Rattle.join_exec_spec.specs.Keeping.{meets_all, borrowed_tests, AllValid};
ghost use Rattle.cond_expr.specs.declared.expr.Column.{Column as OneColumn};
ghost use Rattle.join_exec_spec.specs.BorrowedOutputs.{BorrowedValues, RowsBorrow, AllStayBorrowed};
ghost use Rattle.join_exec_levels.specs.declared.source.Source.{Source as OneSource};
ghost use Rattle.join_exec_levels.specs.Levels.{made_on, made_through, IsValidLevel};
ghost use Rattle.join_exec_levels.specs.Levels.{AreValidLevels};
ghost use Rattle.join_exec_levels.specs.Levels.{LevelBorrows, LevelsBorrow};
ghost use Rattle.join_exec_levels.specs.Sources.{SourcesBorrow, held, held_of};

use crate::answer::{Answered, answer_made};
use crate::group::{Group, grouped};
use crate::key::Key;
use crate::plan::{Keys, keys_of, tests_of};
use crate::source::Source;
use crate::step::put_choice;
use cond_expr::{Column, Cond, Expr};
use prima_base::{NoMemory, Period, TimedRow};
use std::alloc::Global;
use std::collections::{BTreeMap, VecDeque};

/// A list of rows in groups, the places in a choice by which they are looked up, and the parts of
/// the condition that are then tested.
#[derive(Drop)]
pub(crate) struct Level<'a, 'c> {
    own: Vec<usize>,
    tests: Vec<&'c Cond>,
    groups: BTreeMap<Key<'a>, Group<'a>>,
}

// The list as a level after choices of so many values.
fn level_of<'a, 'c>(
    alloc: Global,
    columns: &[Column],
    parts: &[&'c Cond],
    taken: usize,
    source: Source<'a>,
) -> Result<Level<'a, 'c>, NoMemory>
    requires { taken + source.width < 2 ^ 64 }
    ensures valid { IfOk result IsValidLevel }
    ensures borrowed { (which : BorrowedValues) → (own : List OneColumn)
        → RowsBorrow which own source.entry.rows.items
        → IfOk result (λ level. LevelBorrows which own level) }
    ensures wide { (ps : List (Entry (List OneValue))) → Fit taken ps
        → IfOk result (λ level. Fit (taken + source.entry.width) (made_on columns.now level ps)) }
    ensures joined { (ps : List (Entry (List OneValue))) → Fit taken ps → (m : ℕ)
        → (rest : List (List (List OneValue))) → IfOk result (λ level.
        filter (meets_all columns.now (borrowed_tests parts.now))
        (complete_choices (held_at (made_on columns.now level ps) m) rest)
        ≡ filter (meets_all columns.now (borrowed_tests parts.now))
        (complete_choices (held_at ps m) (held source.entry m ∷ rest))) }
{
    let Source { width, rows } = source;
    let tests = tests_of(alloc, columns, parts, taken, width)?;
    let keys = keys_of(alloc, columns, parts, taken, width)?;
    let Keys { own, other } = keys;
    let groups = grouped(alloc, &other, rows)?;
    Ok(Level { own, tests, groups })
}

/// The lists as levels, the first of them after the choice of no row.
pub(crate) fn levels_of<'a, 'c>(
    alloc: Global,
    columns: &[Column],
    parts: &[&'c Cond],
    mut sources: VecDeque<Source<'a>>,
) -> Result<Vec<Level<'a, 'c>>, NoMemory>
    requires { sum_by (λ (s : OneSource). s.width) sources.items < 2 ^ 64 }
    ensures valid { IfOk result (λ levels. AreValidLevels levels.items) }
    ensures borrowed { (which : BorrowedValues) → (all : List OneColumn)
        → SourcesBorrow which all sources.entry.items
        → IfOk result (λ levels. LevelsBorrow which all levels.items) }
    ensures joined { (ps : List (Entry (List OneValue))) → Fit 0 ps → (m : ℕ)
        → IfOk result (λ levels.
        filter (meets_all columns.now (borrowed_tests parts.now))
        (held_at (made_through columns.now levels.items ps) m)
        ≡ filter (meets_all columns.now (borrowed_tests parts.now))
        (complete_choices (held_at ps m) (held_of sources.entry.items m))) }
{
    let mut taken = 0;
    let mut levels = Vec::new(alloc);
    'sources: while let Some(source) = sources.pop_front() {
        let width = source.width;
        levels.push(level_of(alloc, columns, parts, taken, source)?)?;
        taken += width;
    }
    Ok(levels)
}

/// Takes what is answered of the choices with a row of each level after, but for those that lead to
/// nothing that meets the condition, into what is answered, at each moment of the slice.
pub(crate) fn answer_levels<'a>(
    alloc: Global,
    outs: &[Expr],
    cond: &Cond,
    columns: &[Column],
    slice: Period,
    levels: &[Level<'a, '_>],
    choices: &[TimedRow<'a>],
    answered: &mut Answered<'a>,
) -> Result<(), NoMemory>
    requires choices { AllValid (entries_of choices.now) }
    requires levels { AreValidLevels levels.now }
    ensures borrowed { (which : BorrowedValues) → (before : List OneColumn)
        → (after : List OneColumn)
        → columns.now ≡ before ++ after
        → AllStayBorrowed which (map tree outs.now) answered.old.rows.items
        → RowsBorrow which before choices.now → LevelsBorrow which after levels.now
        → OnOk result (AllStayBorrowed which (map tree outs.now) answered.new.rows.items) }
    ensures rows { (m : ℕ) → covers slice m ≡ true
        → OnOk result (rows_at answered.new.rows.items m
        ≡ at row_cmp (entries_of answered.old.rows.items
        ++ answers columns.now (map tree outs.now) (test cond.now)
        (made_through columns.now levels.now (entries_of choices.now))) m) }
    ensures inside { (m : ℕ) → held_at (entries_of choices.now) m ≡ []
        → rows_at answered.old.rows.items m ≡ []
        → OnOk result (rows_at answered.new.rows.items m ≡ []) }
{
    match levels {
        [] => answer_made(alloc, outs, cond, columns, slice, choices, answered),
        [level, rest @ ..] => {
            for choice in choices {
                let mut made = Vec::new(alloc);
                put_choice(
                    alloc,
                    columns,
                    &level.own,
                    &level.tests,
                    choice,
                    &level.groups,
                    &mut made,
                )?;
                answer_levels(alloc, outs, cond, columns, slice, rest, &made, answered)?;
            }
            Ok(())
        }
    }
}
