//! Tests whether a row is the row of something that a book holds, each in its own function.
ghost use Rattle.std.specs.Prelude.{◌≡◌, ◌↔◌, IsTrue};
ghost use Rattle.ob_sql_rows.specs.Rows.{meta_row, cause_row, node_row, device_row, life_row, customer_row, entry_row, mark_row, posting_row};

use crate::columns::{
    cause_columns, customer_columns, device_columns, entry_columns, life_columns, mark_columns,
    meta_columns, node_columns, posting_columns,
};
use crate::fields::has_fields;
use ob_base::{Crew, Life, Name};
use ob_cust::Customer;
use ob_net::{Device, Node};
use ob_sheet::Entry;
use sqlite::Row;

/// Whether a row is the heading with this version, first day, number of days and zone.
pub fn is_meta_row<'t>(
    row: &Row,
    version: u32,
    first_day: &'t [u8],
    days: u16,
    zone: &'t [u8],
) -> bool
    ensures { IsTrue result ↔ (row.now ≡ meta_row version first_day.now days zone.now) }
{
    has_fields(
        row,
        &meta_columns(version, first_day, u32::from(days), zone),
    )
}

/// Whether a row is the row of the cause with a code.
pub fn is_cause_row(row: &Row, code: u64, name: &Name) -> bool
    ensures { IsTrue result ↔ (row.now ≡ cause_row code name.now) }
{
    has_fields(row, &cause_columns(code, name))
}

/// Whether a row is the row of the node with a number.
pub fn is_node_row(row: &Row, number: u64, node: &Node) -> bool
    ensures { IsTrue result ↔ (row.now ≡ node_row number node.now) }
{
    has_fields(row, &node_columns(number, node))
}

/// Whether a row is the row of the device with a number.
pub fn is_device_row(row: &Row, number: u64, device: &Device) -> bool
    ensures { IsTrue result ↔ (row.now ≡ device_row number device.now) }
{
    has_fields(row, &device_columns(number, device))
}

/// Whether a row is the row of a device's in-service interval.
pub fn is_life_row(row: &Row, device: u64, life: Life) -> bool
    ensures { IsTrue result ↔ (row.now ≡ life_row device life) }
{
    has_fields(row, &life_columns(device, life))
}

/// Whether a row is the row of a customer.
pub fn is_customer_row(row: &Row, customer: Customer) -> bool
    ensures { IsTrue result ↔ (row.now ≡ customer_row customer) }
{
    has_fields(row, &customer_columns(customer))
}

/// Whether a row is the row of an entry of the switching log.
pub fn is_entry_row(row: &Row, entry: &Entry) -> bool
    ensures { IsTrue result ↔ (row.now ≡ entry_row entry.now) }
{
    has_fields(row, &entry_columns(entry))
}

/// Whether a row is the row of the major event day flag that an engineer set on a day.
pub fn is_mark_row(row: &Row, day: u64, engineer: &Crew) -> bool
    ensures { IsTrue result ↔ (row.now ≡ mark_row day engineer.now) }
{
    has_fields(row, &mark_columns(day, engineer))
}

/// Whether a row is the row of an amount under a dimension and a key.
pub fn is_posting_row(row: &Row, dim: u64, key: u64, amount: u64) -> bool
    ensures { IsTrue result ↔ (row.now ≡ posting_row dim key amount) }
{
    has_fields(row, &posting_columns(dim, key, amount))
}
