ghost use Rattle.cond_expr.specs.declared.fault.TypeFault.TheVariants.{NoMemory as OutOfMemory};

use prima_base::{Name, NoMemory};

/// Why a tree has no type over some columns.
#[derive(Drop)]
pub enum TypeFault {
    /// The first reference, in written order, that names none of the columns.
    NoColumn(Name),
    /// The number, in pre-order from 0, of the first node whose parts have types that it does not
    /// take.
    WrongType(u32),
    /// The name of the unknown reference could not be copied.
    NoMemory,
}

impl From<NoMemory> for TypeFault {
    ghost use Rattle.std.specs.Prelude.{◌≡◌};

    ghost from_gives = { λ _ e. e ≡ OutOfMemory };

    fn from(_error: NoMemory) -> TypeFault {
        TypeFault::NoMemory
    }
}
