//! How a run ended.

/// How a run ended.
#[derive(Clone, Copy, PartialEq, Eq)]
pub enum Status {
    /// The script was read to its end, and no `error` line was due.
    Done,
    /// The script was read to its end, and its replies have an `error` line.
    Refused,
    /// The words are not accepted.
    Words,
    /// The source failed.
    ReadFault,
    /// The sink failed.
    WriteFault,
    /// The disk failed.
    DiskFault,
    /// The file is no journal: it is damaged at this place, in bytes from 0.
    NotAJournal(u64),
    /// Memory ran out.
    NoMemory,
    /// The script is longer than `SCRIPT_LIMIT` bytes.
    InputLimit,
}

impl Status {
    ghost use Rattle.std.specs.Prelude.{◌≡◌};
    ghost use Rattle.script_cli.specs.Codes.{code_of};

    /// The status with which the program ends.
    pub fn code(&self) -> u8
        ensures { result ≡ code_of self.now }
    {
        match self {
            Status::Done => 0,
            Status::Refused => 1,
            Status::Words => 2,
            Status::ReadFault => 3,
            Status::WriteFault => 4,
            Status::DiskFault => 5,
            Status::NotAJournal(_) => 6,
            Status::NoMemory => 7,
            Status::InputLimit => 8,
        }
    }
}
