use crate::NoMemory;

/// Why a call gives no answer: what it was asked for is refused, or memory ran out.
#[derive(Drop)]
pub enum CallFault<R> {
    /// The first refusal in the one order.
    Refused(R),
    /// Memory ran out.
    NoMemory,
}

impl<R> From<NoMemory> for CallFault<R> {
    ghost use Rattle.std.specs.Prelude.{◌≡◌};
    ghost use Rattle.prima_base.specs.declared.fault.CallFault.TheVariants.{NoMemory as OutOfMemory};

    ghost from_gives = { λ _ e. e ≡ OutOfMemory };

    fn from(_error: NoMemory) -> CallFault<R> {
        CallFault::NoMemory
    }
}
