//! The fields of a row: as parameters of a statement, and as what a row that was read should hold.
ghost use Rattle.std.specs.Prelude.{◌≡◌, ◌↔◌, ◌<◌, ◌≤◌, ◌^◌, length, map, take, IfSome, IsTrue};
ghost use Rattle.std.specs.List.{AllByRecursion};
ghost use Rattle.sqlite.specs.Values.{bound, bound_value};
ghost use Rattle.sqlite_value.specs.Value.{owned};
ghost use Rattle.ob_sql_rows.specs.Rows.{number, number_or_null, position_number, bit};
ghost use Rattle.ob_sql_rows.specs.Fields.{held, Fits};

use ob_base::Pos;
use sqlite::Row;
use sqlite_value::value::ValueRef;

/// What a field of a row holds or should hold.
#[derive(Clone, Copy)]
pub(crate) enum Field<'a> {
    Nothing,
    Small(u32),
    /// A number; in a row it is below 2^63.
    Large(u64),
    Signed(i64),
    Words(&'a [u8]),
}

/// A row's number, which is far below the largest row number.
pub(crate) fn key(n: u32) -> Field<'static>
    ensures field { held result ≡ number n }
    ensures fits { Fits result }
    ensures small { n < 2 ^ 32 }
{
    Field::Small(n)
}

/// A large number, or NULL for `None`.
pub(crate) fn large_or_nothing(n: Option<u64>) -> Field<'static>
    ensures field { held result ≡ number_or_null n }
    ensures fits { IfSome n (λ it. it < 2 ^ 63) → Fits result }
{
    match n {
        Some(n) => Field::Large(n),
        None => Field::Nothing,
    }
}

/// The number of a position.
pub(crate) fn position_number(pos: Pos) -> u32
    ensures { result ≡ position_number pos }
{
    match pos {
        Pos::Opened => 0,
        Pos::Closed => 1,
    }
}

/// The number 1 for true and 0 for false.
pub(crate) fn bit(is: bool) -> u32
    ensures { result ≡ bit is }
{
    if is { 1 } else { 0 }
}

/// A field as a parameter.
fn value_of(field: Field<'_>) -> ValueRef<'_>
    requires { Fits field }
    ensures { bound_value (owned result) ≡ held field.entry }
{
    match field {
        Field::Nothing => ValueRef::Null,
        Field::Small(n) => ValueRef::Int(i64::from(n)),
        Field::Large(n) => ValueRef::Int(n as i64),
        Field::Signed(n) => ValueRef::Int(n),
        Field::Words(words) => ValueRef::Text(words),
    }
}

/// Fields as parameters, then NULL up to the eighth, since no table has more than eight columns.
pub(crate) fn values<'a>(fields: &[Field<'a>]) -> [ValueRef<'a>; 8]
    requires few { length fields.now ≤ 8 }
    requires fits { AllByRecursion Fits fields.now }
    ensures { bound (take (length fields.now) result) ≡ map held fields.now }
{
    let mut values = [ValueRef::Null; 8];
    'fields: for at in 0..fields.len() {
        values[at] = value_of(fields[at]);
    }
    values
}

/// Whether a value is the one that a field should hold.
fn is_held(value: ValueRef<'_>, field: Field<'_>) -> bool
    ensures { IsTrue result ↔ (owned value.entry ≡ held field.entry) }
{
    match (value, field) {
        (ValueRef::Null, Field::Nothing) => true,
        (ValueRef::Int(m), Field::Small(n)) => m == i64::from(n),
        (ValueRef::Int(m), Field::Large(n)) => m >= 0 && m as u64 == n,
        (ValueRef::Int(m), Field::Signed(n)) => m == n,
        (ValueRef::Text(text), Field::Words(words)) => text == words,
        _ => false,
    }
}

/// Whether a row consists of these fields.
pub(crate) fn has_fields(row: &Row, fields: &[Field<'_>]) -> bool
    ensures { IsTrue result ↔ (row.now ≡ map held fields.now) }
{
    if row.column_count() != fields.len() {
        return false;
    }
    'columns: for at in 0..fields.len() {
        let Ok(value) = row.get_ref(at) else {
            return false;
        };
        if !is_held(value, fields[at]) {
            return false;
        }
    }
    true
}
