//! The rows that a command changes, apart from its own row and those of its amounts.
ghost use Rattle.std.specs.Prelude.{◌≡◌, ◌<◌, ◌^◌, IfSome};
ghost use Rattle.ob_sql_rows.specs.Rows.{Always};
ghost use Rattle.ob_sql_rows.specs.Rules.{LacksKey, LetsDevice};
ghost use Rattle.ob_sql_rows.specs.declared.table.Table.TheVariants.{Life};
ghost use Rattle.ob_sql_rows.specs.Steps.{Changes};
ghost use Rattle.ob_sql_write.specs.Changing.{HasSmallSeconds, NeedsRow, LetsRow, rows_by, with_device_and_life};

use ob_base::Stop;
use ob_net::Device;
use ob_sql_rows::{
    add_cause, add_customer, add_device, add_entry, add_life, add_mark, add_node, correct_entry,
    drop_mark, set_life, set_service, withdraw_entry,
};
use ob_state::Resolved;
use sqlite::{Alter, Transaction};

/// Writes the rows that a command changes, given its resolved form.
pub(crate) fn write_rows<S: Alter>(
    tx: &mut Transaction<'_, S>,
    resolved: &Resolved,
) -> Result<(), Stop>
    requires small { HasSmallSeconds resolved.now }
    ensures { Changes S.Store tx.old.conn tx.new.conn result
        (NeedsRow resolved.now) (LetsRow resolved.now) (rows_by resolved.now) }
{
    match resolved {
        Resolved::Cause { code, name } => add_cause(tx, code.get(), name),
        Resolved::Node { number, node } => add_node(tx, *number, node),
        Resolved::Device { number, device } => add_device_and_life(tx, *number, device),
        Resolved::Life { device, new, .. } => set_life(tx, *device, *new),
        Resolved::Customer(customer) => add_customer(tx, *customer),
        Resolved::Service { new, .. } => set_service(tx, *new),
        Resolved::Entered(entry) => add_entry(tx, entry),
        Resolved::Corrected { new, .. } => correct_entry(tx, new),
        Resolved::Withdrawn { new, .. } => withdraw_entry(tx, new.no, new.rev),
        Resolved::Marked { day, engineer } => add_mark(tx, *day, engineer),
        Resolved::Unmarked { day } => drop_mark(tx, *day),
    }
}

/// Adds a device between two nodes, by their numbers, and its in-service interval.
fn add_device_and_life<S: Alter>(
    tx: &mut Transaction<'_, S>,
    number: u16,
    device: &Device,
) -> Result<(), Stop>
    requires since { device.now.life.since < 2 ^ 63 }
    requires until { IfSome device.now.life.until (λ end. end < 2 ^ 63) }
    ensures { Changes S.Store tx.old.conn tx.new.conn result Always
        (λ t. LetsDevice number device.now.name device.now.a device.now.b t × LacksKey Life number t)
        (with_device_and_life number device.now) }
{
    add_device(tx, number, device)?;
    add_life(tx, number, device.life)
}
