//! Rows of an answer, copied to be kept when the archive goes on.

ghost use Rattle.std.specs.Prelude.{◌≡◌, IfOk, map};
ghost use Rattle.prima_base.specs.Order.{shown};
ghost use Rattle.prima_base.specs.Timed.{entries_of};
ghost use Rattle.sessions.specs.Kept.{kept_entries};

use prima_base::{NoMemory, Row, Txt, Val, Value};
use prima_base_rows::TimedRows;
use sessions::KeptRow;
use std::alloc::Global;

// The value that is shown, copied. The bytes that it borrows are looked through once more, since
// what an answer borrows does not say that they are a text's; they always are.
fn value_of(alloc: Global, val: &Val<'_>) -> Result<Value, NoMemory>
    ensures { IfOk result (λ value. value ≡ shown val.now) }
{
    match val {
        Val::Int(number) => Ok(Value::Int(*number)),
        Val::Own(text) => Ok(Value::Text(text.copy()?)),
        Val::Slice(bytes) => match Txt::new(alloc, bytes) {
            Ok(text) => Ok(Value::Text(text)),
            Err(_) => Err(NoMemory),
        },
    }
}

// The row that is shown, copied.
fn row_of(alloc: Global, values: &[Val<'_>]) -> Result<Row, NoMemory>
    ensures { IfOk result (λ row. row ≡ map shown values.now) }
{
    let mut copied = Vec::with_capacity(alloc, values.len())?;
    for val in values {
        copied.push(value_of(alloc, val)?)?;
    }
    Ok(Row::new(alloc, copied))
}

// The rows with their periods, copied.
pub(crate) fn kept_rows(alloc: Global, rows: &TimedRows<'_>) -> Result<Vec<KeptRow>, NoMemory>
    ensures { IfOk result (λ kept. kept_entries kept.items ≡ entries_of rows.now.items) }
{
    let mut kept = Vec::with_capacity(alloc, rows.len())?;
    for index in 0..rows.len() {
        let row = row_of(alloc, rows.values(index))?;
        kept.push(KeptRow {
            values: row,
            period: rows.period(index),
        })?;
    }
    Ok(kept)
}
