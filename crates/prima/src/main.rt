//! PRIMA: a transaction-time archive under schema evolution (PRIMA 2008, PRISM 2008).
//!
//! The program: it hands the words of the command line, a book of the twelve rules, standard input,
//! standard output and the file of the archive to `run`, and ends with its status.
#![tactic(auto)]

use disk_model::{Disk, SureDisk};
use prima_base::NoMemory;
use prima_io::{Sink, Source};
use rewrite_rules::{Rule, RuleBook, push_every_rule};
use script_cli::{FileDisk, ReaderSource, Status, Word, WriterSink, run};
use script_cli_arguments::asked;
use std::alloc::Global;
use std::process::ExitCode;
use std::{env, io};

// The archive's file, in the current folder.
const ARCHIVE: &str = "archive.prima";

// How the program ends where the system did not give what it was asked for: memory ran out, or else
// as told.
fn without(error: &io::Error, otherwise: Status) -> Status {
    if error.kind() == io::ErrorKind::OutOfMemory {
        Status::NoMemory
    } else {
        otherwise
    }
}

// Runs the script with these rules.
fn run_by<S: Source, K: Sink, D: Disk, R: Rule>(
    alloc: Global,
    rules: Vec<R>,
    arguments: &[Word],
    source: &mut S,
    sink: &mut K,
    disk: &mut D,
) -> Result<Status, NoMemory> {
    // No kind is missing and none stands twice, so that memory ran out where there is no book.
    let Ok(book) = RuleBook::new(alloc, rules) else {
        return Err(NoMemory);
    };
    Ok(run(alloc, arguments, &book, source, sink, disk))
}

// Runs the script with one boxed rule for each kind of operator.
fn run_with_rules<S: Source, K: Sink, D: Disk>(
    alloc: Global,
    arguments: &[Word],
    source: &mut S,
    sink: &mut K,
    disk: &mut D,
) -> Result<Status, NoMemory> {
    let mut rules: Vec<Box<dyn Rule>> = Vec::new(alloc);
    push_every_rule!(alloc, rules);
    run_by(alloc, rules, arguments, source, sink, disk)
}

// Runs over the file of the archive. The words are checked before it is opened, so that wrong ones
// make no file: then `run`, which checks them again, gets a disk that it does not call.
fn run_over_the_file<S: Source, K: Sink>(
    rt: &HostRuntime,
    arguments: &[Word],
    source: &mut S,
    sink: &mut K,
) -> Result<Status, NoMemory> {
    if asked(rt.alloc(), arguments)?.is_none() {
        return run_with_rules(rt.alloc(), arguments, source, sink, &mut SureDisk::new());
    }
    match FileDisk::open(rt, ARCHIVE) {
        Ok(mut disk) => run_with_rules(rt.alloc(), arguments, source, sink, &mut disk),
        Err(error) => Ok(without(&error, Status::DiskFault)),
    }
}

fn main(rt: HostRuntime) -> ExitCode {
    let mut arguments = match env::args(&rt) {
        Ok(arguments) => arguments,
        // One of them is no UTF-8.
        Err(error) => return ExitCode::from(without(&error, Status::Words).code()),
    };
    let _program = arguments.next();
    let Ok(arguments) = arguments.collect::<Vec<Word>>(rt.alloc()) else {
        return ExitCode::from(Status::NoMemory.code());
    };
    let mut source = ReaderSource::new(rt.reader());
    let mut sink = WriterSink::new(io::writer(&rt));
    match run_over_the_file(&rt, &arguments, &mut source, &mut sink) {
        Ok(status) => ExitCode::from(status.code()),
        Err(NoMemory) => ExitCode::from(Status::NoMemory.code()),
    }
}
