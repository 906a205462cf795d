ghost use Rattle.std.specs.Prelude.{◌≡◌, IfOk, map, string_bytes};
ghost use Rattle.clap.specs.Faults.{fault_of};
ghost use Rattle.clap.specs.Kinds.{FailsBy};
ghost use Rattle.clap.specs.Matches.{found_of};
ghost use Rattle.clap.specs.Simple.{matches_of};
ghost use Rattle.clap.specs.Walk.{rows_of};
ghost use Rattle.script_cli_arguments.specs.Reading.{program};

use clap::{Arg, ArgAction, ArgMatches, Command, Error};
use std::alloc::Global;

/// The words as clap reads them: two options, each of which may come more than once as far as clap
/// is concerned, and one other word.
pub fn parse<'a>(alloc: Global, arguments: &'a [String]) -> Result<ArgMatches<'a>, Error>
    ensures rows { IfOk result (λ m. rows_of (found_of m)
        ≡ matches_of program (map string_bytes arguments.entry.now)) }
    ensures fails { FailsBy (fault_of program (map string_bytes arguments.entry.now)) result }
{
    let limit = Arg::new(alloc, "journal-limit")
        .long("journal-limit")
        .action(ArgAction::Append);
    let size = Arg::new(alloc, "size")
        .long("size")
        .action(ArgAction::Append);
    let word = Arg::new(alloc, "word");
    let command = Command::new(alloc, "prima")
        .no_binary_name(true)
        .disable_help_flag(true)
        .arg(limit)?
        .arg(size)?
        .arg(word)?;
    command.try_get_matches_from(arguments)
}
