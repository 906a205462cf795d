ghost use Rattle.std.specs.Prelude.{◌≡◌};
ghost use Rattle.journal.specs.Records.{is_known as known};

/// The kind of a record whose payload is a command.
pub const COMMAND: u8 = 1;

/// The kind of a record whose payload is an image of the store.
pub const CHECKPOINT: u8 = 2;

/// How many bytes of a record stand before its payload: its kind, and the payload's length.
pub const RECORD_HEAD: usize = 9;

/// A record of a journal: the place of its gate in the file, its kind, and its payload.
#[derive(Drop)]
pub struct Rec {
    pub at: u64,
    pub kind: u8,
    pub payload: Vec<u8>,
}

// A record may have this kind.
pub(crate) fn is_known(kind: u8) -> bool
    ensures { result ≡ known kind }
{
    kind == COMMAND || kind == CHECKPOINT
}
