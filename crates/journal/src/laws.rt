//! Laws of the files of journals. Each is proved and does nothing.

ghost use Rattle.std.specs.Prelude.{◌≡◌, ◌⊎◌, ◌<◌, ℕ, List, get_or};
ghost use Rattle.journal.specs.Damage.{IsDamagedAt};
ghost use Rattle.journal.specs.Reading.{IsOpened, records_in};
ghost use Rattle.journal.specs.Records.{Record, StandsFor};
ghost use Rattle.journal.specs.declared.rec.Rec.{Rec};

/// Each list of bytes stands for one list of records, or it is damaged, at one place, and never
/// both. So a mount, which tells no records of a damaged file and no damage of another, answers
/// `Damaged` with its place for each damaged file, unless the disk failed or memory ran out.
pub fn a_file_stands_or_is_damaged()
    ensures some { (file : List ℕ) → ((i : ℕ) → get_or file i 0 < 256)
        → ((rs : List Record) × StandsFor file rs) ⊎ ((place : ℕ) × IsDamagedAt file place) }
    ensures one { (file : List ℕ) (rs ss : List Record) → StandsFor file rs → StandsFor file ss
        → rs ≡ ss }
    ensures place { (file : List ℕ) (p q : ℕ) → IsDamagedAt file p → IsDamagedAt file q → p ≡ q }
    ensures apart { (file : List ℕ) (rs : List Record) (place : ℕ) → StandsFor file rs
        → IsDamagedAt file place → ⊥ }
    ensures opened { (file : List ℕ) (recs : List Rec) (at : ℕ) → IsOpened file recs at
        → StandsFor file (records_in recs) }
{}
