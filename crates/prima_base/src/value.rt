use crate::{NoMemory, Txt};
use std::alloc::Global;
use std::cmp::Ordering;

/// The type of a column.
#[derive(Clone, Copy, PartialEq, Eq)]
pub enum ColType {
    Int,
    Text,
}

/// A value. Every INT sorts before every TEXT, INTs by number and TEXTs by their bytes.
#[derive(Drop, PartialEq, Eq, PartialOrd, Ord)]
pub enum Value {
    Int(i64),
    Text(Txt),
}

impl Value {
    ghost use Rattle.std.specs.Prelude.{◌≡◌, IfOk};

    /// An equal value.
    pub fn copy(&self) -> Result<Value, NoMemory>
        ensures { IfOk result (λ v. v ≡ self.now) }
    {
        match self {
            Value::Int(n) => Ok(Value::Int(*n)),
            Value::Text(text) => Ok(Value::Text(text.copy()?)),
        }
    }
}

impl Value {
    ghost use Rattle.std.specs.Prelude.{◌≡◌, IfOk};
    ghost use Rattle.prima_base.specs.Order.{shown, IsBorrowed};
    ghost use Rattle.prima_base.specs.Columns.{IsValid};

    /// The same value, borrowed; a text has at most 4,096 bytes and no control byte. It takes no
    /// memory.
    pub fn lend(&self) -> Val<'_>
        ensures value { shown result ≡ self.now }
        ensures valid { IsValid (shown result) }
        ensures borrowed { IsBorrowed result }
    {
        match self {
            Value::Int(n) => Val::Int(*n),
            Value::Text(text) => Val::Slice(text.bytes()),
        }
    }

    /// The same value, to keep; a text has at most 4,096 bytes and no control byte, and is copied.
    /// The one error is `NoMemory`, where memory runs out.
    pub fn to_val<'a>(&self) -> Result<Val<'a>, NoMemory>
        ensures value { IfOk result (λ v. shown v ≡ self.now) }
        ensures valid { IfOk result (λ v. IsValid (shown v)) }
    {
        match self {
            Value::Int(n) => Ok(Val::Int(*n)),
            Value::Text(text) => {
                // the clause of this call says that the text is valid
                let _valid = text.bytes();
                Ok(Val::Own(text.copy()?))
            }
        }
    }
}

/// A value that is borrowed or owned. Two are compared by the values that they show, so a borrowed
/// and an owned text of the same bytes are equal.
#[derive(Drop)]
pub enum Val<'a> {
    Int(i64),
    Slice(&'a [u8]),
    Own(Txt),
}

impl<'a> Val<'a> {
    ghost use Rattle.std.specs.Prelude.{◌≡◌, IfOk};
    ghost use Rattle.prima_base.specs.Order.{shown, is_borrowed, IsBorrowed};

    /// The same value, borrowed from this one. It takes no memory.
    pub fn lend(&self) -> Val<'_>
        ensures value { shown result ≡ shown self.now }
        ensures borrowed { IsBorrowed result }
    {
        match self {
            Val::Int(n) => Val::Int(*n),
            Val::Slice(bytes) => Val::Slice(bytes),
            Val::Own(text) => Val::Slice(text.bytes()),
        }
    }

    /// One that shows the same value. A borrowed text stays borrowed, where it was.
    #[tactic(auto, using(crate::proofs::BorrowedVals::stays_borrowed))]
    pub fn copy(&self) -> Result<Val<'a>, NoMemory>
        ensures value { IfOk result (λ v. shown v ≡ shown self.now) }
        ensures same { IfOk result (λ v. is_borrowed v ≡ is_borrowed self.now) }
        ensures borrowed { IsBorrowed self.now → IfOk result (λ v. IsBorrowed v) }
    {
        match self {
            Val::Int(n) => Ok(Val::Int(*n)),
            Val::Slice(bytes) => Ok(Val::Slice(bytes)),
            Val::Own(text) => Ok(Val::Own(text.copy()?)),
        }
    }
}

ghost use Rattle.prima_base.specs.Order.{bytes_cmp};

// Compares two texts. Many are told apart by their first bytes, which are looked at before the call
// that goes over whole texts.
fn compare_texts(text: &[u8], other: &[u8]) -> Ordering
    ensures { result ≡ bytes_cmp text.now other.now }
{
    match (text, other) {
        ([first, ..], [second, ..]) => match first.cmp(second) {
            Ordering::Equal => text.cmp(other),
            Ordering::Less => Ordering::Less,
            Ordering::Greater => Ordering::Greater,
        },
        _ => text.cmp(other),
    }
}

impl Val<'_> {
    ghost use Rattle.std.specs.Prelude.{◌≡◌, IfOk};
    ghost use Rattle.prima_base.specs.Order.{shown, value_cmp};
    ghost use Rattle.prima_base.specs.Columns.{IsValid};

    /// The value that is shown, to keep. A borrowed text is copied, an owned one is moved. The one
    /// error is `NoMemory`, where memory runs out.
    pub fn into_value(self, alloc: Global) -> Result<Value, NoMemory>
        requires { IsValid (shown self) }
        ensures { IfOk result (λ v. v ≡ shown self.entry) }
    {
        match self {
            Val::Int(n) => Ok(Value::Int(n)),
            Val::Own(text) => Ok(Value::Text(text)),
            Val::Slice(bytes) => Ok(Value::Text(Txt::of(alloc, bytes)?)),
        }
    }

    /// Compares the values that are shown.
    pub fn compare(&self, other: &Val<'_>) -> Ordering
        ensures { result ≡ value_cmp (shown self.now) (shown other.now) }
    {
        match (self, other) {
            (Val::Int(x), Val::Int(y)) => x.cmp(y),
            (Val::Int(_), Val::Slice(_) | Val::Own(_)) => Ordering::Less,
            (Val::Slice(_) | Val::Own(_), Val::Int(_)) => Ordering::Greater,
            (Val::Slice(x), Val::Slice(y)) => compare_texts(x, y),
            (Val::Slice(x), Val::Own(y)) => compare_texts(x, y.bytes()),
            (Val::Own(x), Val::Slice(y)) => compare_texts(x.bytes(), y),
            (Val::Own(x), Val::Own(y)) => compare_texts(x.bytes(), y.bytes()),
        }
    }
}

ghost use Rattle.std.specs.Prelude.{◌≡◌, IfOk, map};
ghost use Rattle.prima_base.specs.Order.{shown, is_borrowed, AreBorrowed};
ghost use Rattle.prima_base.specs.Timed.{vals_cmp};

/// Vals that show the same values, in their order, with room for `spare` more. A borrowed text
/// stays borrowed, where it was. The one error is `NoMemory`, where memory runs out.
pub fn copy_vals<'a>(
    alloc: Global,
    values: &[Val<'a>],
    spare: usize,
) -> Result<Vec<Val<'a>>, NoMemory>
    ensures values { IfOk result (λ v. map shown v.items ≡ map shown values.now) }
    ensures same { IfOk result (λ v. map is_borrowed v.items ≡ map is_borrowed values.now) }
    ensures borrowed { AreBorrowed values.now → IfOk result (λ v. AreBorrowed v.items) }
{
    let mut copies = Vec::with_capacity(alloc, values.len().saturating_add(spare))?;
    for value in values {
        copies.push(value.copy()?)?;
    }
    Ok(copies)
}

/// Compares the values that are shown, one by one; of two lists that agree so far the shorter one
/// is less. It takes no memory.
pub fn compare_vals(a: &[Val<'_>], b: &[Val<'_>]) -> Ordering
    ensures { result ≡ vals_cmp a.now b.now }
{
    let shorter = a.len().min(b.len());
    for i in 0..shorter {
        let order = a[i].compare(&b[i]);
        if order != Ordering::Equal {
            return order;
        }
    }
    a.len().cmp(&b.len())
}

impl PartialEq for Val<'_> {
    ghost use Rattle.prima_base.specs.Order.{value_eq, shown};
    ghost use Rattle.prima_base.specs.OrderLaws.{val_eq_per};

    ghost eq = { λ x y. value_eq (shown x) (shown y) };

    ghost laws = { val_eq_per };

    fn eq(&self, other: &Val<'_>) -> bool {
        self.compare(other) == Ordering::Equal
    }
}

impl Eq for Val<'_> {
    ghost use Rattle.prima_base.specs.OrderLaws.{val_eq_equiv};

    ghost laws = { val_eq_equiv };
}

impl PartialOrd for Val<'_> {
    ghost use Rattle.std.specs.Prelude.{Some};
    ghost use Rattle.prima_base.specs.Order.{value_cmp, shown};
    ghost use Rattle.prima_base.specs.OrderLaws.{val_po};

    ghost partial_cmp = { λ x y. Some (value_cmp (shown x) (shown y)) };

    ghost laws = { val_po };

    fn partial_cmp(&self, other: &Val<'_>) -> Option<Ordering> {
        Some(self.compare(other))
    }
}

impl Ord for Val<'_> {
    ghost use Rattle.std.specs.Prelude.{refl};
    ghost use Rattle.prima_base.specs.Order.{value_cmp, shown};
    ghost use Rattle.prima_base.specs.OrderLaws.{val_total};

    ghost cmp = { λ x y. value_cmp (shown x) (shown y) };

    ghost total = { val_total };

    ghost matches_partial_cmp = { λ x y. refl };

    ghost matches_eq = { λ x y. refl };

    fn cmp(&self, other: &Val<'_>) -> Ordering {
        self.compare(other)
    }
}
