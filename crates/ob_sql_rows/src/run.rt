//! Running one statement inside a transaction, turning its failure into a fault, and numbers as
//! values.
ghost use Rattle.std.specs.Prelude.{◌≡◌, ◌≤◌, length, map};
ghost use Rattle.std.specs.List.{AllByRecursion};
ghost use Rattle.sqlite_value.specs.Value.{owned};
ghost use Rattle.sqlite.specs.Values.{bound};
ghost use Rattle.sqlite.specs.declared.types.Value.TheVariants.{Int};
ghost use Rattle.ob_base.specs.Stop.{out_of_memory};
ghost use Rattle.ob_sql_rows.specs.Steps.{Runs, IsStoreFault};
ghost use Rattle.ob_sql_rows.specs.Fields.{held, Fits};
ghost use Rattle.ob_sql_rows.specs.Rows.{number};

use crate::fields::{Field, values};
use ob_base::{Fault, Stop};
use sqlite::{Alter, Error, ErrorCode, Transaction};
use sqlite_value::value::ValueRef;

/// Runs a statement that answers no rows, with these fields as its parameters.
pub(crate) fn run<S: Alter>(
    tx: &mut Transaction<'_, S>,
    sql: &str,
    fields: &[Field<'_>],
) -> Result<(), Stop>
    requires few { length fields.now ≤ 8 }
    requires fits { AllByRecursion Fits fields.now }
    ensures { Runs S.Store sql.now (map held fields.now) tx.old.conn tx.new.conn result }
{
    let params = values(fields);
    run_values(tx, sql, &params[..fields.len()])
}

/// Runs a statement that answers no rows, with these parameters.
pub(crate) fn run_values<S: Alter>(
    tx: &mut Transaction<'_, S>,
    sql: &str,
    params: &[ValueRef<'_>],
) -> Result<(), Stop>
    ensures { Runs S.Store sql.now (bound params.now) tx.old.conn tx.new.conn result }
{
    match tx.execute(sql, params) {
        Ok(_) => Ok(()),
        Err(error) => Err(stop_of(error)),
    }
}

/// Turns a failure of the storage into a fault.
pub fn stop_of(error: Error) -> Stop
    ensures faults { IsStoreFault result }
    ensures memory { error ≡ Error.SqliteFailure ErrorCode.OutOfMemory → result ≡ out_of_memory }
{
    match error {
        Error::SqliteFailure(ErrorCode::OutOfMemory) => Stop::Fault(Fault::OutOfMemory),
        _ => Stop::Fault(Fault::Store),
    }
}

/// A number as a value.
pub fn int(n: u32) -> ValueRef<'static>
    ensures { owned result ≡ number n }
{
    ValueRef::Int(i64::from(n))
}

/// A number that may be negative as a value.
pub fn signed_value(n: i64) -> ValueRef<'static>
    ensures { owned result ≡ Int n }
{
    ValueRef::Int(n)
}
