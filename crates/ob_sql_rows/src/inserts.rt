//! The statements that add a row, each in its own function.
ghost use Rattle.std.specs.Prelude.{◌≡◌, ◌<◌, ◌^◌, IfSome};
ghost use Rattle.ob_sql_rows.specs.Steps.{Changes};
ghost use Rattle.ob_sql_rows.specs.Rows.{Always, with_row, meta_row, cause_row, node_row, device_row, life_row, customer_row, entry_row, mark_row, command_row, moved_row, posting_row};
ghost use Rattle.ob_sql_rows.specs.Rules.{LetsMeta, LetsCause, LetsNode, LetsDevice, LetsCustomer, LetsLife, LetsEntry, LetsMark, LetsCommand, LetsMoved, LetsPosting};
ghost use Rattle.ob_sql_rows.specs.declared.table.Table.{Table as ATable};

use crate::columns::{
    cause_columns, customer_columns, device_columns, entry_columns, life_columns, mark_columns,
    meta_columns, node_columns, posting_columns,
};
use crate::fields::Field;
use crate::run::run;
use ob_base::{Crew, Life, Name, Stop};
use ob_cust::Customer;
use ob_net::{Device, Node};
use ob_sheet::Entry;
use sqlite::{Alter, Transaction};

/// Adds the only row of `meta`, with version 2. Fails if the row exists already.
pub fn add_meta<'t, S: Alter>(
    tx: &mut Transaction<'_, S>,
    first_day: &'t [u8],
    days: u32,
    zone: &'t [u8],
) -> Result<(), Stop>
    ensures { Changes S.Store tx.old.conn tx.new.conn result Always
        (LetsMeta first_day.now zone.now)
        (with_row ATable.Meta (meta_row 2 first_day.now days zone.now)) }
{
    run(
        tx,
        "INSERT INTO meta (id, version, day0, days, zone) VALUES (?1, ?2, ?3, ?4, ?5)",
        &meta_columns(2, first_day, days, zone),
    )
}

/// Adds a cause. Fails if its code or its name exists already.
pub fn add_cause<S: Alter>(tx: &mut Transaction<'_, S>, code: u8, name: &Name) -> Result<(), Stop>
    ensures { Changes S.Store tx.old.conn tx.new.conn result Always
        (LetsCause code name.now)
        (with_row ATable.Cause (cause_row code name.now)) }
{
    run(
        tx,
        "INSERT INTO cause (code, name) VALUES (?1, ?2)",
        &cause_columns(u64::from(code), name),
    )
}

/// Adds the node with a number. Fails if its number or its name exists already.
pub fn add_node<S: Alter>(tx: &mut Transaction<'_, S>, number: u16, node: &Node) -> Result<(), Stop>
    ensures { Changes S.Store tx.old.conn tx.new.conn result Always
        (LetsNode number node.now.name)
        (with_row ATable.Node (node_row number node.now)) }
{
    run(
        tx,
        "INSERT INTO node (id, name, kind, feeder) VALUES (?1, ?2, ?3, ?4)",
        &node_columns(u64::from(number), node),
    )
}

/// Adds the device with a number. Fails if its number or its name exists already, or if one of its
/// nodes doesn't exist.
pub fn add_device<S: Alter>(
    tx: &mut Transaction<'_, S>,
    number: u16,
    device: &Device,
) -> Result<(), Stop>
    ensures { Changes S.Store tx.old.conn tx.new.conn result Always
        (LetsDevice number device.now.name device.now.a device.now.b)
        (with_row ATable.Device (device_row number device.now)) }
{
    run(
        tx,
        "INSERT INTO device (id, name, a, b, normal) VALUES (?1, ?2, ?3, ?4, ?5)",
        &device_columns(u64::from(number), device),
    )
}

/// Adds a customer of a section. Fails if the customer's number exists already, or if the section
/// doesn't exist.
pub fn add_customer<S: Alter>(tx: &mut Transaction<'_, S>, customer: Customer) -> Result<(), Stop>
    requires since { customer.since < 2 ^ 63 }
    requires until { IfSome customer.until (λ end. end < 2 ^ 63) }
    ensures { Changes S.Store tx.old.conn tx.new.conn result Always
        (LetsCustomer customer.no customer.section)
        (with_row ATable.Customer (customer_row customer)) }
{
    run(
        tx,
        "INSERT INTO customer (id, section, since, until) VALUES (?1, ?2, ?3, ?4)",
        &customer_columns(customer),
    )
}

/// Adds the in-service interval of a device. Fails if it exists already, or if there is no such
/// device.
pub fn add_life<S: Alter>(tx: &mut Transaction<'_, S>, device: u16, life: Life) -> Result<(), Stop>
    requires since { life.since < 2 ^ 63 }
    requires until { IfSome life.until (λ end. end < 2 ^ 63) }
    ensures { Changes S.Store tx.old.conn tx.new.conn result Always
        (LetsLife device)
        (with_row ATable.Life (life_row device life)) }
{
    run(
        tx,
        "INSERT INTO life (device, since, until) VALUES (?1, ?2, ?3)",
        &life_columns(u64::from(device), life),
    )
}

/// Adds an entry of the switching log. Fails if its number exists already, or if its device or its
/// cause doesn't exist.
pub fn add_entry<S: Alter>(tx: &mut Transaction<'_, S>, entry: &Entry) -> Result<(), Stop>
    requires second { entry.now.second < 2 ^ 63 }
    ensures { Changes S.Store tx.old.conn tx.new.conn result Always
        (LetsEntry entry.now.no entry.now.device entry.now.cause)
        (with_row ATable.Entry (entry_row entry.now)) }
{
    run(
        tx,
        "INSERT INTO entry (id, rev, device, pos, second, cause, crew, kept) VALUES (?1, ?2, ?3, ?4, ?5, ?6, ?7, ?8)",
        &entry_columns(entry),
    )
}

/// Adds the major event day flag of a day. Fails if the day is marked already.
pub fn add_mark<S: Alter>(
    tx: &mut Transaction<'_, S>,
    day: u16,
    engineer: &Crew,
) -> Result<(), Stop>
    ensures { Changes S.Store tx.old.conn tx.new.conn result Always
        (LetsMark day)
        (with_row ATable.Mark (mark_row day engineer.now)) }
{
    run(
        tx,
        "INSERT INTO mark (day, engineer) VALUES (?1, ?2)",
        &mark_columns(u64::from(day), engineer),
    )
}

/// Adds the row of an accepted command. Fails if the number or the reference exists already.
pub fn add_command<'t, S: Alter>(
    tx: &mut Transaction<'_, S>,
    no: u32,
    reference: &'t [u8],
    body: &'t [u8],
) -> Result<(), Stop>
    ensures { Changes S.Store tx.old.conn tx.new.conn result Always
        (LetsCommand no reference.now body.now)
        (with_row ATable.Command (command_row no reference.now body.now)) }
{
    run(
        tx,
        "INSERT INTO cmd (id, ref, body) VALUES (?1, ?2, ?3)",
        &[
            Field::Small(no),
            Field::Words(reference),
            Field::Words(body),
        ],
    )
}

/// Adds the row of an amount that a command changed. Fails if the command has a row for this
/// dimension and key already, if there is no such command, or if `delta` is 0.
pub fn add_moved<S: Alter>(
    tx: &mut Transaction<'_, S>,
    no: u32,
    dim: u32,
    key: u32,
    delta: i64,
) -> Result<(), Stop>
    ensures { Changes S.Store tx.old.conn tx.new.conn result Always
        (LetsMoved no dim key delta)
        (with_row ATable.Moved (moved_row no dim key delta)) }
{
    run(
        tx,
        "INSERT INTO moved (cmd, dim, k, delta) VALUES (?1, ?2, ?3, ?4)",
        &[
            Field::Small(no),
            Field::Small(dim),
            Field::Small(key),
            Field::Signed(delta),
        ],
    )
}

/// Adds the row of a dimension and a key, with the amount 0. Fails if the row exists already.
pub fn add_posting<S: Alter>(tx: &mut Transaction<'_, S>, dim: u32, key: u32) -> Result<(), Stop>
    ensures { Changes S.Store tx.old.conn tx.new.conn result Always
        (LetsPosting dim key)
        (with_row ATable.Posting (posting_row dim key 0)) }
{
    run(
        tx,
        "INSERT INTO posting (dim, k, amount) VALUES (?1, ?2, ?3)",
        &posting_columns(u64::from(dim), u64::from(key), 0),
    )
}
