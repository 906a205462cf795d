//! Runs after one another. The law is proved and does nothing.

ghost use Rattle.std.specs.Prelude.{ℕ, List};
ghost use Rattle.disk_model.specs.Moments.{UntilSynced};
ghost use Rattle.archive_core_file_spec.specs.LogRecords.{LogRecord};
ghost use Rattle.script_cli_statement.specs.Due.{Due};
ghost use Rattle.script_cli.specs.Files.{CanBeRun, IsSoundFile, LeavesPrefix};

use disk_model::Disk;

/// A run or a sample may follow another, wherever the first was stopped: where each file that a
/// crash may have left at its start opens as some records, so does each that a crash may leave at
/// any moment from its start to its end, by the field `crash` of `RunOutcome` or `SampleOutcome`.
/// So of a list of them the records of the last file are those of the first and, run after run, a
/// prefix of those of what was accepted. And where each file at the start is sound, so is each that
/// is left, by the field `sound`.
pub fn a_run_follows_a_run<D: Disk>()
    ensures opens { (old : D) → (new : D) → (opening : List LogRecord) → (due : List Due)
        → ((file : List ℕ) → (D.meaning old).may_leave file → CanBeRun file)
        → LeavesPrefix (D.meaning old) (D.meaning new) opening due
        → (file : List ℕ) → (D.meaning new).left_since (D.meaning old).moment file → CanBeRun file }
    ensures sound { (old : D) → (new : D)
        → ((file : List ℕ) → (D.meaning old).may_leave file → IsSoundFile file)
        → UntilSynced (D.meaning old) (D.meaning new) IsSoundFile
        → (file : List ℕ) → (D.meaning new).left_since (D.meaning old).moment file
        → IsSoundFile file }
{}
