ghost use Rattle.std.specs.Prelude.{◌≡◌, ◌≤◌, ◌<◌, ◌↔◌, Some, None, length, refl, IfOk};
ghost use Rattle.std.specs.Prelude.{IfSome, IsErrOf, IsOkUnless, OnOk};
ghost use Rattle.std.specs.Cmp.Lexicographic.{nat_list_cmp_total};
ghost use Rattle.prima_base.specs.Order.{bytes_cmp, same};
ghost use Rattle.prima_base.specs.OrderLaws.{name_eq_equiv, name_eq_per, name_po};
ghost use Rattle.prima_base.specs.Bytes.{first_bad, is_name_byte, IsName};

use crate::NoMemory;
use crate::limits::MAX_NAME;
use std::alloc::{AllocError, Global};
use std::cmp::Ordering;
use std::hash::{Hash, Hasher};
use std::marker::Model;
use thiserror::Error;

/// A name of a table, a column or an alias: 1 to 63 ASCII letters, digits and `_`, no digit first.
/// A contract sees it as its bytes. Names are ordered by their bytes.
pub struct Name {
    alloc: Global,
    bytes: Vec<u8>,
}

// Written out, not derived: each crate above would prove a derived one again.
impl Drop for Name {
    fn drop(self) {
        let Name {
            alloc: _alloc,
            bytes: _bytes,
        } = self;
    }
}

impl Model for Name {
    ghost use Rattle.std.specs.Prelude.{ℕ, List};
    ghost use Rattle.prima_base.specs.Bytes.{IsName};

    ghost Value = { List ℕ };

    ghost view = { λ t. t.bytes.items };

    ghost invariant = { λ t. IsName t.bytes.items };
}

/// Why bytes are no name.
#[derive(Clone, Copy, Debug, PartialEq, Eq, Error)]
pub enum NameFault {
    #[error("an empty name")]
    Empty,
    /// It has so many bytes, more than 63.
    #[error("a name of {0} bytes")]
    Long(u64),
    /// The place, from 0, of the first byte that cannot stand there.
    #[error("no name's byte at {0}")]
    Bad(u32),
    #[error("no memory")]
    NoMemory,
}

impl From<AllocError> for NameFault {
    ghost use Rattle.std.specs.Prelude.{◌≡◌};
    ghost use Rattle.prima_base.specs.declared.name.NameFault.TheVariants.{NoMemory as OutOfMemory};

    ghost from_gives = { λ _ e. e ≡ OutOfMemory };

    fn from(_e: AllocError) -> NameFault {
        NameFault::NoMemory
    }
}

/// Whether the byte may stand in a name: an ASCII letter, a digit or `_`. It takes no memory.
pub fn is_name_byte(b: u8) -> bool
    ensures { result ≡ is_name_byte b }
{
    matches!(b, b'a'..=b'z' | b'A'..=b'Z' | b'0'..=b'9' | b'_')
}

fn first_bad(bytes: &[u8]) -> Option<usize>
    requires { 0 < length bytes.now }
    ensures place { result ≡ first_bad bytes.now }
    ensures within { IfSome result (λ i. i < length bytes.now) }
{
    if matches!(bytes[0], b'0'..=b'9') {
        return Some(0);
    }
    for (i, b) in bytes.iter().enumerate() {
        if !is_name_byte(*b) {
            return Some(i);
        }
    }
    None
}

impl Name {
    /// The name of these bytes. The refusals are tested in the order of their variants.
    pub fn new(alloc: Global, bytes: &[u8]) -> Result<Name, NameFault>
        ensures name { IfOk result (λ t. t ≡ bytes.now) }
        ensures valid { OnOk result (IsName bytes.now) }
        ensures made { IsName bytes.now → IsOkUnless result NameFault.NoMemory }
        ensures empty { IsErrOf result NameFault.Empty ↔ (length bytes.now ≡ 0) }
        ensures long { 63 < length bytes.now → IsErrOf result (NameFault.Long (length bytes.now)) }
        ensures long_only { (n : _) → IsErrOf result (NameFault.Long n) → (63 < length bytes.now)
            × (n ≡ length bytes.now) }
        ensures bad { (at : _) → 0 < length bytes.now → length bytes.now ≤ 63
            → first_bad bytes.now ≡ Some at
            → IsErrOf result (NameFault.Bad at) }
        ensures bad_only { (at : _) → IsErrOf result (NameFault.Bad at) →
            (0 < length bytes.now) × (length bytes.now ≤ 63) × (first_bad bytes.now ≡ Some at) }
    {
        if bytes.is_empty() {
            return Err(NameFault::Empty);
        }
        if bytes.len() > MAX_NAME {
            return Err(NameFault::Long(bytes.len() as u64));
        }
        if let Some(at) = first_bad(bytes) {
            return Err(NameFault::Bad(at as u32));
        }
        Ok(Name {
            alloc,
            bytes: bytes.to_vec(alloc)?,
        })
    }

    /// The name of bytes that are a name's. The one error is `NoMemory`, where memory runs out.
    pub fn of(alloc: Global, bytes: &[u8]) -> Result<Name, NoMemory>
        requires { IsName bytes.now }
        ensures { IfOk result (λ t. t ≡ bytes.now) }
    {
        Ok(Name {
            alloc,
            bytes: bytes.to_vec(alloc)?,
        })
    }

    /// The bytes. It takes no memory.
    pub fn bytes(&self) -> &[u8]
        ensures value { result.now ≡ self.now }
        ensures valid { IsName self.now }
    {
        &self.bytes
    }

    /// An equal name.
    pub fn copy(&self) -> Result<Name, NoMemory>
        ensures { IfOk result (λ t. t ≡ self.now) }
    {
        Ok(Name {
            alloc: self.alloc,
            bytes: self.bytes.to_vec(self.alloc)?,
        })
    }
}

impl PartialEq for Name {
    ghost eq = { same };

    ghost laws = { name_eq_per };

    fn eq(&self, other: &Name) -> bool {
        self.cmp(other) == Ordering::Equal
    }
}

impl Eq for Name {
    ghost laws = { name_eq_equiv };
}

impl PartialOrd for Name {
    ghost partial_cmp = { λ x y. Some (bytes_cmp x y) };

    ghost laws = { name_po };

    fn partial_cmp(&self, other: &Name) -> Option<Ordering> {
        Some(self.cmp(other))
    }
}

impl Ord for Name {
    ghost cmp = { bytes_cmp };

    ghost total = { nat_list_cmp_total };

    ghost matches_partial_cmp = { λ x y. refl };

    ghost matches_eq = { λ x y. refl };

    fn cmp(&self, other: &Name) -> Ordering {
        self.bytes.as_slice().cmp(other.bytes.as_slice())
    }
}

impl Hash for Name {
    ghost use Rattle.std.specs.Hash as fed;
    ghost use Rattle.prima_base.specs.OrderLaws.{name_fed};

    ghost hash_input = { λ n. fed.slice fed.u8 n };

    ghost respects_eq = { name_fed };

    fn hash<H: Hasher>(&self, state: &mut H) {
        self.bytes.as_slice().hash(state);
    }
}
