use prima_base::{CallFault, Refusal};

/// Why a query is not accepted over a schema: the first refusal in the one order, or memory ran
/// out.
pub type QueryFault = CallFault<Refusal>;
