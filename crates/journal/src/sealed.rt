ghost use Rattle.journal.specs.Sealing.{IsSealed};

use crate::rec::RECORD_HEAD;
use prima_base::NoMemory;
use std::alloc::Global;

/// A record in the bytes in which it is put, with a closed gate after it.
#[derive(Drop)]
pub struct Sealed {
    bytes: Vec<u8>,
    ghost sealed: { IsSealed bytes.items },
}

impl Sealed {
    ghost use Rattle.std.specs.Prelude.{◌≡◌, ◌≤◌, IfOk, length, drop};
    ghost use Rattle.journal.specs.Records.{IsKnown};
    ghost use Rattle.journal.specs.JournalFiles.{sealed_bytes, sealed_record};

    /// The record of this kind, a command or a checkpoint, with a copy of the payload.
    pub fn new(alloc: Global, kind: u8, payload: &[u8]) -> Result<Sealed, NoMemory>
        requires { IsKnown kind }
        ensures { IfOk result (λ s. sealed_record s ≡ (kind, payload.now)) }
    {
        let mut bytes = Vec::with_capacity(alloc, payload.len() + 10)?;
        bytes.push(kind)?;
        bytes.extend_from_slice(&(payload.len() as u64).to_be_bytes())?;
        bytes.extend_from_slice(payload)?;
        bytes.push(0)?;
        Ok(Sealed { bytes })
    }

    /// The record of this kind, a command or a checkpoint, whose payload stands in these bytes
    /// behind the first `RECORD_HEAD`. Into those its head is written: the payload is not copied,
    /// where there is room for one byte more.
    pub fn over(kind: u8, bytes: Vec<u8>) -> Result<Sealed, NoMemory>
        requires known { IsKnown kind }
        requires front { 9 ≤ length bytes.items }
        ensures { IfOk result (λ s. sealed_record s ≡ (kind, drop 9 bytes.items)) }
    {
        let mut bytes = bytes;
        let len = (bytes.len() - RECORD_HEAD) as u64;
        bytes[0] = kind;
        bytes[1..RECORD_HEAD].copy_from_slice(&len.to_be_bytes());
        bytes.push(0)?;
        Ok(Sealed { bytes })
    }

    // The bytes, with the closed gate after.
    pub(crate) fn bytes(&self) -> &[u8]
        ensures bytes { result.now ≡ sealed_bytes self.now }
        ensures sealed { IsSealed result.now }
    {
        &self.bytes
    }
}
