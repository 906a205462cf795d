//! Laws of the files of archives. Each is proved and does nothing.

ghost use Rattle.std.specs.Prelude.{◌≡◌, ◌⊎◌, ◌<◌, ◌+◌, ◌++◌, ◌∷◌, [], ℕ, List, length, map};
ghost use Rattle.std.specs.Prelude.{get_or};
ghost use Rattle.smo_ops_types.specs.Commands.{PlainCommand};
ghost use Rattle.smo_ops_spec.specs.History.{AllAccepted, IsHistory, past_after, past_of};
ghost use Rattle.smo_ops_spec.specs.Past.{Past, beginning};
ghost use Rattle.store_image_spec.specs.Images.{Image};
ghost use Rattle.store_image_spec.specs.ShownPast.{image_past};
ghost use Rattle.archive_core_file_spec.specs.LogRecords.{LogRecord, logged, checkpointed};
ghost use Rattle.archive_core_file_spec.specs.LogRecords.{commands_in};
ghost use Rattle.archive_core_file_spec.specs.LogRecords.{replayed_in, after_records};
ghost use Rattle.archive_core_file_spec.specs.LogRecords.{past_recorded};
ghost use Rattle.archive_core_file_spec.specs.LogRecords.{AreAccepted, AreSound};
ghost use Rattle.archive_core_file_spec.specs.Opening.{Opens, Damages};

use store_image_spec::an_image_is_what_is_read;

/// Each list of bytes opens as one list of records, of which each command after the last image is
/// accepted after what stands before it, or it is damaged, at one place, and never both.
pub fn a_file_opens_or_is_damaged()
    ensures some { (file : List ℕ) → ((i : ℕ) → get_or file i 0 < 256)
        → ((log : List LogRecord) × Opens file log) ⊎ ((place : ℕ) × Damages file place) }
    ensures one { (file : List ℕ) (a b : List LogRecord) → Opens file a → Opens file b → a ≡ b }
    ensures place { (file : List ℕ) (p q : ℕ) → Damages file p → Damages file q → p ≡ q }
    ensures apart { (file : List ℕ) (log : List LogRecord) (place : ℕ) → Opens file log
        → Damages file place → ⊥ }
{
    an_image_is_what_is_read();
}

/// Records go on by commands and by images. The past after some more is that after these from the
/// past before; after commands it is the past with them, and after an image the one that it shows.
/// More that are accepted from there are accepted, and so is an image. A past counts all commands
/// before it, and goes on from the last image by those after it.
pub fn records_go_on()
    ensures past { (past : Past) (log more : List LogRecord)
        → after_records past (log ++ more) ≡ after_records (after_records past log) more }
    ensures commands { (past : Past) (commands : List PlainCommand)
        → after_records past (map logged commands) ≡ past_after past commands }
    ensures image { (past : Past) (log : List LogRecord) (i : Image)
        → after_records past (log ++ checkpointed i ∷ [])
        ≡ image_past (after_records past log).commands i }
    ensures accepted { (past : Past) (log more : List LogRecord) → AreAccepted past log
        → AreAccepted (after_records past log) more → AreAccepted past (log ++ more) }
    ensures accepted_commands { (past : Past) (commands : List PlainCommand)
        → AllAccepted past commands → AreAccepted past (map logged commands) }
    ensures accepted_image { (past : Past) (log : List LogRecord) (i : Image)
        → AreAccepted past (log ++ checkpointed i ∷ []) }
    ensures counted { (past : Past) (log : List LogRecord)
        → (after_records past log).commands ≡ past.commands + length (commands_in log) }
    ensures replayed { (log : List LogRecord) (i : Image) (commands : List PlainCommand)
        → replayed_in (log ++ checkpointed i ∷ map logged commands) ≡ commands }
    ensures from_image { (past : Past) (log : List LogRecord) (i : Image)
        (commands : List PlainCommand)
        → after_records past (log ++ checkpointed i ∷ map logged commands)
        ≡ past_after (image_past (past.commands + length (commands_in log)) i) commands }
{}

/// Of sound records the commands are a history, and the past is its past: each is accepted after
/// those before it, and no image changes what stands after it. Each prefix of sound records is
/// sound, and they stay so by what is sound from their past on.
pub fn sound_records_are_a_history()
    ensures history { (log : List LogRecord) → AreSound beginning log
        → IsHistory (commands_in log) }
    ensures past { (past : Past) (log : List LogRecord) → AreSound past log
        → after_records past log ≡ past_after past (commands_in log) }
    ensures accepted { (past : Past) (log : List LogRecord) → AreSound past log
        → AreAccepted past log }
    ensures prefix { (past : Past) (log more : List LogRecord) → AreSound past (log ++ more)
        → AreSound past log }
    ensures more { (past : Past) (log more : List LogRecord) → AreSound past log
        → AreSound (after_records past log) more → AreSound past (log ++ more) }
{}
