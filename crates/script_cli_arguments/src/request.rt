ghost use Rattle.std.specs.Prelude.{◌≡◌, ◌↔◌, ◌≤◌, IfOk, IfSome, Some, [], map, option_map};
ghost use Rattle.std.specs.Prelude.{option_and_then, unwrap_or, string_bytes};
ghost use Rattle.clap.specs.Kinds.{FailsBy};
ghost use Rattle.clap.specs.Faults.{fault_of};
ghost use Rattle.clap.specs.Matches.{found_of};
ghost use Rattle.clap.specs.Walk.{rows_of};
ghost use Rattle.script_cli_arguments.specs.Reading.{program, parts_in};
ghost use Rattle.script_cli_arguments.specs.Consisting.{AskFor};
ghost use Rattle.script_cli_arguments.specs.declared.request.Request.{Request as Asked};
ghost use Rattle.script_cli_arguments.specs.Arguments as spec;

use crate::number::number_of;
use crate::parser::parse;
use clap::ArgMatches;
use clap::error::ErrorKind;
use prima_base::NoMemory;
use std::alloc::Global;

/// The greatest length of a journal in bytes, unless the words give another.
pub const JOURNAL_LIMIT: u64 = 1_073_741_824;

/// The size of a sample, unless the words give another.
pub const SAMPLE_SIZE: u32 = 500;

/// The greatest size of a sample.
pub const GREATEST_SIZE: u32 = 2_000;

/// What the program is to do.
#[derive(Clone, Copy, PartialEq, Eq)]
pub enum Mode {
    /// To read a script and to write its replies.
    Run,
    /// To make the sample script of this size, 1 to 2,000, and to write a summary of its replies.
    Sample(u32),
}

/// What the words of a call ask for.
#[derive(Clone, Copy, PartialEq, Eq)]
pub struct Request {
    /// The greatest length of the journal in bytes.
    pub journal_limit: u64,
    pub mode: Mode,
}

fn only_limit(limits: &[&str]) -> Option<u64>
    ensures { result ≡ spec.limit_of (map (λ limit. limit.now) limits.now) }
{
    match limits {
        [] => Some(JOURNAL_LIMIT),
        [limit] => number_of(limit),
        _ => None,
    }
}

// The one limit that is given, or the one that holds where none is.
fn limit_of(limits: Option<&[&str]>) -> Option<u64>
    ensures { result ≡ spec.limit_of (unwrap_or
        (option_map (λ limits. map (λ limit. limit.now) limits.now) limits.entry) []) }
{
    match limits {
        Some(limits) => only_limit(limits),
        None => Some(JOURNAL_LIMIT),
    }
}

// A number as the size of a sample.
fn as_size(number: u64) -> Option<u32>
    ensures { result ≡ spec.as_size number }
{
    if 1 <= number && number <= GREATEST_SIZE as u64 {
        Some(number as u32)
    } else {
        None
    }
}

// The size that a text writes.
fn size_in(text: &str) -> Option<u32>
    ensures { result ≡ option_and_then spec.as_size (spec.number_of text.now) }
{
    match number_of(text) {
        Some(number) => as_size(number),
        None => None,
    }
}

fn only_size(sizes: &[&str]) -> Option<u32>
    ensures { result ≡ spec.size_of (map (λ size. size.now) sizes.now) }
{
    match sizes {
        [] => Some(SAMPLE_SIZE),
        [size] => size_in(size),
        _ => None,
    }
}

// The one size that is given, or the one that holds where none is.
fn size_of(sizes: Option<&[&str]>) -> Option<u32>
    ensures { result ≡ spec.size_of (unwrap_or
        (option_map (λ sizes. map (λ size. size.now) sizes.now) sizes.entry) []) }
{
    match sizes {
        Some(sizes) => only_size(sizes),
        None => Some(SAMPLE_SIZE),
    }
}

// The mode that the one other word names.
fn mode_of(word: Option<&str>, size: u32) -> Option<Mode>
    ensures { result ≡ spec.mode_of (option_map (λ word. word.now) word.entry) size }
{
    let word = word?;
    if word == "run" {
        Some(Mode::Run)
    } else if word == "sample" {
        Some(Mode::Sample(size))
    } else {
        None
    }
}

// What is asked for by the values of the options and the one other word.
fn request_of(
    limits: Option<&[&str]>,
    sizes: Option<&[&str]>,
    word: Option<&str>,
) -> Option<Request>
    ensures { result ≡ spec.asked_with
        (spec.limit_of (unwrap_or (option_map (λ limits. map (λ limit. limit.now) limits.now)
        limits.entry) []))
        (spec.size_of (unwrap_or (option_map (λ sizes. map (λ size. size.now) sizes.now)
        sizes.entry) []))
        (option_map (λ word. word.now) word.entry) }
{
    let journal_limit = limit_of(limits)?;
    let size = size_of(sizes)?;
    let mode = mode_of(word, size)?;
    Some(Request {
        journal_limit,
        mode,
    })
}

// What is asked for by what clap found.
fn request_matched(matches: &ArgMatches) -> Option<Request>
    ensures { result ≡ spec.asked_by (Some (parts_in (rows_of (found_of matches.now)))) }
{
    request_of(
        matches.get_raw("journal-limit"),
        matches.get_raw("size"),
        matches.get_str("word"),
    )
}

/// What the words of a call ask for, words that stand after the program's name; none exactly where
/// they are not accepted. They are accepted where they consist of `--journal-limit N` and `--size
/// N`, also written `--journal-limit=N` and `--size=N`, each at most once, of the one other word
/// `run` or `sample`, and of at most one `--`, which is skipped and after which no option is read.
/// N is 1 to 20 digits with a value below 2^64, and that of `--size`, which matters for `sample`
/// alone, is 1 to 2,000.
pub fn asked(alloc: Global, arguments: &[String]) -> Result<Option<Request>, NoMemory>
    ensures asked { IfOk result (λ it. it ≡ spec.asked (map string_bytes arguments.now)) }
    ensures consist { IfOk result (λ it. (request : Asked)
        → (it ≡ Some request) ↔ AskFor (map string_bytes arguments.now) request) }
{
    match parse(alloc, arguments) {
        Ok(matches) => Ok(request_matched(&matches)),
        Err(fault) => match fault.kind() {
            ErrorKind::OutOfMemory => Err(NoMemory),
            _ => Ok(None),
        },
    }
}
