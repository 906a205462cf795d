use prima_base::{CallFault, Refusal};

/// Why a command is not accepted: the first refusal in the one order, or memory ran out. The
/// archive is then as it was.
pub type CommandFault = CallFault<Refusal>;

/// Why a query is not answered: the first refusal in the one order, or memory ran out.
pub type AskFault = CallFault<Refusal>;
