//! What the words of a call ask for, where there is memory.
use prima_base::NoMemory;
use script_cli_arguments::{JOURNAL_LIMIT, Mode, Request, SAMPLE_SIZE, asked};
use std::alloc::Global;
use std::test::Fail;

// The words stand in the line, apart by a blank.
fn asked_for(alloc: Global, line: &str) -> Result<Option<Request>, NoMemory> {
    let mut arguments = Vec::new(alloc);
    for word in line.split(' ') {
        arguments.push(String::from_str(alloc, word)?)?;
    }
    asked(alloc, &arguments)
}

fn run(journal_limit: u64) -> Option<Request> {
    Some(Request {
        journal_limit,
        mode: Mode::Run,
    })
}

fn sample(journal_limit: u64, size: u32) -> Option<Request> {
    Some(Request {
        journal_limit,
        mode: Mode::Sample(size),
    })
}

#[test]
fn words_of_a_call(rt: HostRuntime) -> Result<(), Fail> {
    for (line, want) in [
        ("run", run(JOURNAL_LIMIT)),
        ("run --journal-limit=80", run(80)),
        ("--journal-limit 80 -- run", run(80)),
        ("--journal-limit 00000000000000000080 run", run(80)),
        ("--journal-limit 18446744073709551615 run", run(u64::MAX)),
        ("-- run", run(JOURNAL_LIMIT)),
        ("sample", sample(JOURNAL_LIMIT, SAMPLE_SIZE)),
        ("sample --size 8", sample(JOURNAL_LIMIT, 8)),
        ("--size=2000 --journal-limit 80 sample", sample(80, 2000)),
        ("run --size 8", run(JOURNAL_LIMIT)),
        ("sample --size 0", None),
        ("sample --size 2001", None),
        ("sample --size 8 --size 8", None),
        ("sample run", None),
        ("run --journal-limit 18446744073709551616", None),
        ("run --journal-limit=000000000000000000080", None),
        ("run --journal-limit", None),
        ("run --journal-limit=", None),
        ("run --journal-limit -1", None),
        ("run --journal-limit +1", None),
        ("run --journal-limit 1 --journal-limit 1", None),
        ("-- run --journal-limit=80", None),
        ("-- -- run", None),
        ("--help", None),
        ("run run", None),
        ("walk", None),
        ("", None),
    ] {
        assert!(rt; asked_for(rt.alloc(), line)? == want, "{line}");
    }
    Ok(())
}
