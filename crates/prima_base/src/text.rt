ghost use Rattle.std.specs.Prelude.{◌≡◌, ◌≤◌, ◌<◌, Some, None, length, nat_eq, refl, IfOk, IfSome};
ghost use Rattle.std.specs.Prelude.{IsErrOf, IsOkUnless, OnOk};
ghost use Rattle.std.specs.Ordering.{nat_cmp};
ghost use Rattle.std.specs.Cmp.Lexicographic.{pointwise, slice_cmp, nat_list_eq_equiv};
ghost use Rattle.std.specs.Cmp.Lexicographic.{nat_list_cmp_total, texts_ties, texts_po};
ghost use Rattle.std.specs.Cmp.{partial_equiv_from_equiv};
ghost use Rattle.prima_base.specs.Bytes.{first_control, IsTxt};

use crate::NoMemory;
use crate::limits::MAX_TEXT;
use std::alloc::{AllocError, Global};
use std::cmp::Ordering;
use std::marker::Model;
use thiserror::Error;

/// A text value: 0 to 4,096 bytes, none of them below 0x20 and none 0x7F. A contract sees it as its
/// bytes. Texts are ordered by their bytes; UTF-8 passes unchanged.
pub struct Txt {
    alloc: Global,
    bytes: Vec<u8>,
}

// Written out, not derived: each crate above would prove a derived one again.
impl Drop for Txt {
    fn drop(self) {
        let Txt {
            alloc: _alloc,
            bytes: _bytes,
        } = self;
    }
}

impl Model for Txt {
    ghost use Rattle.std.specs.Prelude.{ℕ, List};
    ghost use Rattle.prima_base.specs.Bytes.{IsTxt};

    ghost Value = { List ℕ };

    ghost view = { λ t. t.bytes.items };

    ghost invariant = { λ t. IsTxt t.bytes.items };
}

/// Why bytes are no text.
#[derive(Clone, Copy, Debug, PartialEq, Eq, Error)]
pub enum TxtFault {
    /// It has so many bytes, more than 4,096.
    #[error("a text of {0} bytes")]
    Long(u64),
    /// The place, from 0, of the first control byte.
    #[error("a control byte at {0}")]
    Control(u32),
    #[error("no memory")]
    NoMemory,
}

impl From<AllocError> for TxtFault {
    ghost use Rattle.std.specs.Prelude.{◌≡◌};
    ghost use Rattle.prima_base.specs.declared.text.TxtFault.TheVariants.{NoMemory as OutOfMemory};

    ghost from_gives = { λ _ e. e ≡ OutOfMemory };

    fn from(_e: AllocError) -> TxtFault {
        TxtFault::NoMemory
    }
}

fn first_control(bytes: &[u8]) -> Option<usize>
    ensures place { result ≡ first_control bytes.now }
    ensures within { IfSome result (λ i. i < length bytes.now) }
{
    for (i, b) in bytes.iter().enumerate() {
        if *b < 32 || *b == 127 {
            return Some(i);
        }
    }
    None
}

impl Txt {
    /// The text of these bytes. The length is tested first.
    pub fn new(alloc: Global, bytes: &[u8]) -> Result<Txt, TxtFault>
        ensures text { IfOk result (λ t. t ≡ bytes.now) }
        ensures valid { OnOk result (IsTxt bytes.now) }
        ensures made { IsTxt bytes.now → IsOkUnless result TxtFault.NoMemory }
        ensures long { 4096 < length bytes.now → IsErrOf result (TxtFault.Long (length bytes.now)) }
        ensures long_only { (n : _) → IsErrOf result (TxtFault.Long n) → (4096 < length bytes.now)
            × (n ≡ length bytes.now) }
        ensures control { (at : _) → length bytes.now ≤ 4096 → first_control bytes.now ≡ Some at
            → IsErrOf result (TxtFault.Control at) }
        ensures control_only { (at : _) → IsErrOf result (TxtFault.Control at) →
            (length bytes.now ≤ 4096) × (first_control bytes.now ≡ Some at) }
    {
        if bytes.len() > MAX_TEXT {
            return Err(TxtFault::Long(bytes.len() as u64));
        }
        if let Some(at) = first_control(bytes) {
            return Err(TxtFault::Control(at as u32));
        }
        Ok(Txt {
            alloc,
            bytes: bytes.to_vec(alloc)?,
        })
    }

    /// The text of bytes that are a text's. The one error is `NoMemory`, where memory runs out.
    pub fn of(alloc: Global, bytes: &[u8]) -> Result<Txt, NoMemory>
        requires { IsTxt bytes.now }
        ensures { IfOk result (λ t. t ≡ bytes.now) }
    {
        Ok(Txt {
            alloc,
            bytes: bytes.to_vec(alloc)?,
        })
    }

    /// The text of these bytes, which are a text's. They are moved: it takes no memory.
    pub fn owning(alloc: Global, bytes: Vec<u8>) -> Txt
        requires { IsTxt bytes.items }
        ensures { result ≡ bytes.items }
    {
        Txt { alloc, bytes }
    }

    /// The bytes. It takes no memory.
    pub fn bytes(&self) -> &[u8]
        ensures value { result.now ≡ self.now }
        ensures valid { IsTxt self.now }
    {
        &self.bytes
    }

    /// An equal text.
    pub fn copy(&self) -> Result<Txt, NoMemory>
        ensures { IfOk result (λ t. t ≡ self.now) }
    {
        Ok(Txt {
            alloc: self.alloc,
            bytes: self.bytes.to_vec(self.alloc)?,
        })
    }
}

impl PartialEq for Txt {
    ghost eq = { pointwise nat_eq };

    ghost laws = { partial_equiv_from_equiv nat_list_eq_equiv };

    fn eq(&self, other: &Txt) -> bool {
        self.bytes.as_slice() == other.bytes.as_slice()
    }
}

impl Eq for Txt {
    ghost laws = { nat_list_eq_equiv };
}

impl PartialOrd for Txt {
    ghost partial_cmp = { λ x y. Some (slice_cmp nat_cmp x y) };

    ghost laws = { texts_po };

    fn partial_cmp(&self, other: &Txt) -> Option<Ordering> {
        Some(self.cmp(other))
    }
}

impl Ord for Txt {
    ghost cmp = { slice_cmp nat_cmp };

    ghost total = { nat_list_cmp_total };

    ghost matches_partial_cmp = { λ x y. refl };

    ghost matches_eq = { texts_ties };

    fn cmp(&self, other: &Txt) -> Ordering {
        self.bytes.as_slice().cmp(other.bytes.as_slice())
    }
}
