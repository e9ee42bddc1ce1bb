//! The statements that change or delete a row, each in its own function.
ghost use Rattle.std.specs.Prelude.{◌≡◌, ◌<◌, ◌^◌, IfSome};
ghost use Rattle.ob_sql_rows.specs.Steps.{Changes};
ghost use Rattle.ob_sql_rows.specs.Rows.{Always, with_change, serve, HasCustomer, relive, HasLife, rebody, HasCommand, reversion, HasHeading, correct, withdraw, HasEntry, without_key, HasMark, with_posting, HasPosting};
ghost use Rattle.ob_sql_rows.specs.Rules.{HasRoom, LetsBody, LetsVersion, LetsCorrected, LetsWithdrawn};
ghost use Rattle.ob_sql_rows.specs.declared.table.Table.{Table as ATable};

use crate::columns::posting_columns;
use crate::fields::{Field, key, large_or_nothing, position_number};
use crate::run::run;
use ob_base::{Life, Stop};
use ob_cust::Customer;
use ob_sheet::Entry;
use sqlite::{Alter, Transaction};

/// Changes a customer's service to the one in `customer`.
pub fn set_service<S: Alter>(tx: &mut Transaction<'_, S>, customer: Customer) -> Result<(), Stop>
    requires since { customer.since < 2 ^ 63 }
    requires until { IfSome customer.until (λ end. end < 2 ^ 63) }
    ensures { Changes S.Store tx.old.conn tx.new.conn result (HasCustomer customer.no) Always
        (with_change ATable.Customer customer.no (serve customer)) }
{
    run(
        tx,
        "UPDATE customer SET since = ?2, until = ?3 WHERE id = ?1",
        &[
            Field::Small(customer.no),
            Field::Large(customer.since),
            large_or_nothing(customer.until),
        ],
    )
}

/// Changes the in-service interval of a device.
pub fn set_life<S: Alter>(tx: &mut Transaction<'_, S>, device: u16, life: Life) -> Result<(), Stop>
    requires since { life.since < 2 ^ 63 }
    requires until { IfSome life.until (λ end. end < 2 ^ 63) }
    ensures { Changes S.Store tx.old.conn tx.new.conn result (HasLife device) Always
        (with_change ATable.Life device (relive life)) }
{
    run(
        tx,
        "UPDATE life SET since = ?2, until = ?3 WHERE device = ?1",
        &[
            Field::Small(u32::from(device)),
            Field::Large(life.since),
            large_or_nothing(life.until),
        ],
    )
}

/// Changes the body text of a command.
pub fn set_body<S: Alter>(tx: &mut Transaction<'_, S>, no: u32, body: &[u8]) -> Result<(), Stop>
    ensures { Changes S.Store tx.old.conn tx.new.conn result (HasCommand no)
        (LetsBody no body.now)
        (with_change ATable.Command no (rebody body.now)) }
{
    run(
        tx,
        "UPDATE cmd SET body = ?2 WHERE id = ?1",
        &[Field::Small(no), Field::Words(body)],
    )
}

/// Changes the version in the heading.
pub fn set_version<S: Alter>(tx: &mut Transaction<'_, S>, version: u32) -> Result<(), Stop>
    ensures { Changes S.Store tx.old.conn tx.new.conn result HasHeading LetsVersion
        (with_change ATable.Meta 1 (reversion version)) }
{
    run(
        tx,
        "UPDATE meta SET version = ?2 WHERE id = ?1",
        &[Field::Small(1), Field::Small(version)],
    )
}

/// Changes an entry's revision, position, second, cause and crew to those in `entry`. Fails if
/// there is no such cause.
pub fn correct_entry<S: Alter>(tx: &mut Transaction<'_, S>, entry: &Entry) -> Result<(), Stop>
    requires second { entry.now.second < 2 ^ 63 }
    ensures { Changes S.Store tx.old.conn tx.new.conn result (HasEntry entry.now.no)
        (LetsCorrected entry.now.cause)
        (with_change ATable.Entry entry.now.no (correct entry.now)) }
{
    run(
        tx,
        "UPDATE entry SET rev = ?2, pos = ?3, second = ?4, cause = ?5, crew = ?6 WHERE id = ?1",
        &[
            key(entry.no),
            Field::Small(entry.rev),
            Field::Small(position_number(entry.pos)),
            Field::Large(entry.second),
            Field::Small(u32::from(entry.cause)),
            Field::Words(entry.crew.bytes()),
        ],
    )
}

/// Changes an entry's revision and records that the entry is withdrawn.
pub fn withdraw_entry<S: Alter>(
    tx: &mut Transaction<'_, S>,
    no: u32,
    revision: u32,
) -> Result<(), Stop>
    ensures { Changes S.Store tx.old.conn tx.new.conn result (HasEntry no)
        (LetsWithdrawn no) (with_change ATable.Entry no (withdraw revision)) }
{
    run(
        tx,
        "UPDATE entry SET rev = ?2, kept = 0 WHERE id = ?1",
        &[Field::Small(no), Field::Small(revision)],
    )
}

/// Deletes the major event day flag of a day.
pub fn drop_mark<S: Alter>(tx: &mut Transaction<'_, S>, day: u16) -> Result<(), Stop>
    ensures { Changes S.Store tx.old.conn tx.new.conn result (HasMark day) Always
        (without_key ATable.Mark day) }
{
    run(
        tx,
        "DELETE FROM mark WHERE day = ?1",
        &[Field::Small(u32::from(day))],
    )
}

/// Changes the amount under a dimension and a key.
pub fn set_posting<S: Alter>(
    tx: &mut Transaction<'_, S>,
    dim: u32,
    key: u32,
    amount: u64,
) -> Result<(), Stop>
    requires small { amount < 2 ^ 63 }
    ensures { Changes S.Store tx.old.conn tx.new.conn result
        (HasPosting dim key) (HasRoom ATable.Posting) (with_posting dim key amount) }
{
    run(
        tx,
        "UPDATE posting SET amount = ?3 WHERE dim = ?1 AND k = ?2",
        &posting_columns(u64::from(dim), u64::from(key), amount),
    )
}
