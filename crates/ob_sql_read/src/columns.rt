//! Reads the columns of a row, one at a time.
ghost use Rattle.std.specs.Prelude.{◌≡◌, ◌↔◌, ◌<◌, ◌^◌, ℕ, List, Some, IsTrue, length, option_copied};
ghost use Rattle.sqlite.specs.Order.{column};
ghost use Rattle.sqlite.specs.declared.types.Value.TheVariants.{Text};
ghost use Rattle.ob_sql_rows.specs.Rows.{number};

use sqlite::Row;
use sqlite_value::value::ValueRef;

/// Returns the text in a column, if it is a text.
pub(crate) fn text_at(row: &Row, at: usize) -> Option<&[u8]>
    ensures { (t : List ℕ) → (option_copied result ≡ Some t)
        ↔ ((at < length row.now) × (column row.now at ≡ Text t)) }
{
    match row.get_ref(at) {
        Ok(ValueRef::Text(text)) => Some(text),
        _ => None,
    }
}

/// Whether the column has this number.
pub(crate) fn has_number(row: &Row, at: usize, n: u32) -> bool
    ensures { IsTrue result ↔ ((at < length row.now) × (column row.now at ≡ number n)) }
{
    match row.get_ref(at) {
        Ok(ValueRef::Int(found)) => found == i64::from(n),
        _ => false,
    }
}

/// Returns the number in a column, if it is below 2^16.
pub(crate) fn small_at(row: &Row, at: usize) -> Option<u16>
    ensures { (n : ℕ) → (result ≡ Some n)
        ↔ ((n < 2 ^ 16) × (at < length row.now) × (column row.now at ≡ number n)) }
{
    match row.get_ref(at) {
        Ok(ValueRef::Int(found)) => u16::try_from(found).ok(),
        _ => None,
    }
}
