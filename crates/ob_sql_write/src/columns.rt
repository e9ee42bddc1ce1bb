//! Reads the columns of a row that a query returned.
ghost use Rattle.std.specs.Prelude.{◌≡◌, ◌<◌, ◌^◌, ℕ, ℤ, List, length, IsOk, IfOk, IfErr};
ghost use Rattle.sqlite.specs.Order.{column};
ghost use Rattle.sqlite.specs.declared.types.Value.TheVariants.{Int, Text as AText};
ghost use Rattle.ob_sql_rows.specs.Rows.{number};
ghost use Rattle.ob_sql_write.specs.Known.{store_fault};

use ob_base::{Fault, Stop};
use sqlite::Row;
use sqlite_value::value::ValueRef;

/// Returns the number in a column.
pub(crate) fn number_at(row: &Row, place: usize) -> Result<u32, Stop>
    ensures value { IfOk result (λ n. column row.now place ≡ number n) }
    ensures fault { IfErr result (λ stop. stop ≡ store_fault) }
    ensures readable { (n : ℕ) → place < length row.now → n < 2 ^ 32
        → column row.now place ≡ number n → IsOk result }
{
    match signed_at(row, place) {
        Ok(n) => match u32::try_from(n) {
            Ok(n) => Ok(n),
            Err(_) => Err(Stop::Fault(Fault::Store)),
        },
        Err(stop) => Err(stop),
    }
}

/// Returns the number in a column; it may be negative.
pub(crate) fn signed_at(row: &Row, place: usize) -> Result<i64, Stop>
    ensures value { IfOk result (λ n. column row.now place ≡ Int n) }
    ensures fault { IfErr result (λ stop. stop ≡ store_fault) }
    ensures readable { (n : ℤ) → place < length row.now → column row.now place ≡ Int n
        → IsOk result }
{
    match row.get_ref(place) {
        Ok(ValueRef::Int(n)) => Ok(n),
        _ => Err(Stop::Fault(Fault::Store)),
    }
}

/// Returns the bytes of the text in a column.
pub(crate) fn text_at(row: &Row, place: usize) -> Result<&[u8], Stop>
    ensures value { IfOk result (λ text. column row.now place ≡ AText text.now) }
    ensures fault { IfErr result (λ stop. stop ≡ store_fault) }
    ensures readable { (text : List ℕ) → place < length row.now
        → column row.now place ≡ AText text → IsOk result }
{
    match row.get_ref(place) {
        Ok(ValueRef::Text(bytes)) => Ok(bytes),
        _ => Err(Stop::Fault(Fault::Store)),
    }
}
