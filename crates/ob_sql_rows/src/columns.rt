//! The columns of each row, in the order of its table's listing. An INSERT binds them, and a row
//! that was read is compared with them. The columns of `cmd` and `moved` are only bound, so they
//! are written at their INSERT.
ghost use Rattle.std.specs.Prelude.{◌≡◌, ◌<◌, ◌^◌, map, IfSome};
ghost use Rattle.std.specs.List.{AllByRecursion};
ghost use Rattle.ob_sql_rows.specs.Fields.{held, Fits};
ghost use Rattle.ob_sql_rows.specs.Rows.{meta_row, cause_row, node_kind, node_row, device_row, life_row, customer_row, entry_row, mark_row, posting_row};
ghost use Rattle.ob_sql_rows.specs.Rules.{IsShort};

use crate::fields::{Field, bit, key, large_or_nothing, position_number};
use ob_base::{Crew, Life, Name};
use ob_cust::Customer;
use ob_net::{Device, Node};
use ob_sheet::Entry;

/// The heading: a version, the first day, the count of days and the zone.
pub(crate) fn meta_columns<'t>(
    version: u32,
    first_day: &'t [u8],
    days: u32,
    zone: &'t [u8],
) -> [Field<'t>; 5]
    ensures columns { map held result ≡ meta_row version first_day.now days zone.now }
    ensures fits { AllByRecursion Fits result }
{
    [
        Field::Small(1),
        Field::Small(version),
        Field::Words(first_day),
        Field::Small(days),
        Field::Words(zone),
    ]
}

/// The cause with a code.
pub(crate) fn cause_columns(code: u64, name: &Name) -> [Field<'_>; 2]
    ensures columns { map held result ≡ cause_row code name.now }
    ensures fits { code < 2 ^ 63 → AllByRecursion Fits result }
    ensures short { IsShort name.now }
{
    [Field::Large(code), Field::Words(name.bytes())]
}

/// The node with a number.
pub(crate) fn node_columns(number: u64, node: &Node) -> [Field<'_>; 4]
    ensures columns { map held result ≡ node_row number node.now }
    ensures fits { number < 2 ^ 63 → AllByRecursion Fits result }
    ensures short { IsShort node.now.name }
{
    // The feeder's column is 0 for GRID and for a bus, which have no feeder.
    let feeder = node.feeder.unwrap_or(0);
    [
        Field::Large(number),
        Field::Words(node.name.bytes()),
        Field::Small(kind_of(number, node)),
        Field::Small(u32::from(feeder)),
    ]
}

/// The kind of the node with a number: 0 for GRID, which is node 0; 2 for a section; 1 for a bus.
fn kind_of(number: u64, node: &Node) -> u32
    ensures { result ≡ node_kind number node.now }
{
    if node.feeder.is_some() {
        2
    } else if number == 0 {
        0
    } else {
        1
    }
}

/// The device with a number.
pub(crate) fn device_columns(number: u64, device: &Device) -> [Field<'_>; 5]
    ensures columns { map held result ≡ device_row number device.now }
    ensures fits { number < 2 ^ 63 → AllByRecursion Fits result }
    ensures short { IsShort device.now.name }
{
    [
        Field::Large(number),
        Field::Words(device.name.bytes()),
        Field::Small(u32::from(device.a)),
        Field::Small(u32::from(device.b)),
        Field::Small(position_number(device.normal)),
    ]
}

/// The in-service interval of a device.
pub(crate) fn life_columns(device: u64, life: Life) -> [Field<'static>; 3]
    ensures columns { map held result ≡ life_row device life }
    ensures fits { device < 2 ^ 63 → life.since < 2 ^ 63 → IfSome life.until (λ end. end < 2 ^ 63)
        → AllByRecursion Fits result }
{
    [
        Field::Large(device),
        Field::Large(life.since),
        large_or_nothing(life.until),
    ]
}

/// A customer.
pub(crate) fn customer_columns(customer: Customer) -> [Field<'static>; 4]
    ensures columns { map held result ≡ customer_row customer }
    ensures fits { customer.since < 2 ^ 63 → IfSome customer.until (λ end. end < 2 ^ 63)
        → AllByRecursion Fits result }
{
    [
        Field::Small(customer.no),
        Field::Small(u32::from(customer.section)),
        Field::Large(customer.since),
        large_or_nothing(customer.until),
    ]
}

/// An entry of the switching log.
pub(crate) fn entry_columns(entry: &Entry) -> [Field<'_>; 8]
    ensures columns { map held result ≡ entry_row entry.now }
    ensures fits { entry.now.second < 2 ^ 63 → AllByRecursion Fits result }
    ensures number { entry.now.no < 2 ^ 32 }
    ensures short { IsShort entry.now.crew }
{
    [
        key(entry.no),
        Field::Small(entry.rev),
        Field::Small(u32::from(entry.device)),
        Field::Small(position_number(entry.pos)),
        Field::Large(entry.second),
        Field::Small(u32::from(entry.cause)),
        Field::Words(entry.crew.bytes()),
        Field::Small(bit(entry.kept)),
    ]
}

/// The major event day flag that an engineer set on a day.
pub(crate) fn mark_columns(day: u64, engineer: &Crew) -> [Field<'_>; 2]
    ensures columns { map held result ≡ mark_row day engineer.now }
    ensures fits { day < 2 ^ 63 → AllByRecursion Fits result }
    ensures short { IsShort engineer.now }
{
    [Field::Large(day), Field::Words(engineer.bytes())]
}

/// An amount under a dimension and a key.
pub(crate) fn posting_columns(dim: u64, key: u64, amount: u64) -> [Field<'static>; 3]
    ensures columns { map held result ≡ posting_row dim key amount }
    ensures fits { dim < 2 ^ 63 → key < 2 ^ 63 → amount < 2 ^ 63 → AllByRecursion Fits result }
{
    [Field::Large(dim), Field::Large(key), Field::Large(amount)]
}
