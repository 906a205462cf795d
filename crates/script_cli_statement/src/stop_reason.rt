//! Why a run stops before the end of its script.

ghost use Rattle.std.specs.Prelude.{◌≡◌};
ghost use Rattle.script_cli_statement.specs.StopReasons.{or_write_fault};

use crate::reply_kind::ReplyKind;
use prima_base::Failed;

/// Why a run stops before the end of its script.
#[derive(Clone, Copy, PartialEq, Eq)]
pub enum StopReason {
    /// The sink failed.
    WriteFault,
    /// The disk failed.
    DiskFault,
    /// Memory ran out.
    NoMemory,
}

/// A reply that was not put whole since the sink failed, as a stop of the run.
pub(crate) fn or_write_fault(put: Result<ReplyKind, Failed>) -> Result<ReplyKind, StopReason>
    ensures { result ≡ or_write_fault put }
{
    match put {
        Ok(put) => Ok(put),
        Err(Failed) => Err(StopReason::WriteFault),
    }
}
