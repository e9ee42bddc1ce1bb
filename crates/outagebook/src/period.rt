//! Whether a task is begun: a new book needs a period, and any other a file.
ghost use Rattle.std.specs.Prelude.{◌≡◌, ◌↔◌, Err, IfErr};
ghost use Rattle.ob_base.specs.Stop.{IsRefusedOrNoMemory};
ghost use Rattle.ob_store.specs.Creating.{HasNoPeriodText};
ghost use Rattle.outagebook.specs.Periods.{Begins, where_there};

use ob_base::{Fault, Refusal, Stop};
use ob_jobs::Task;
use ob_time::Period;
use std::alloc::Global;

/// Refuses to create a book of an impossible period, so that no file is created for it, and any
/// other task if the file isn't there, so that none creates it.
pub(crate) fn begin<I, O, V>(
    alloc: Global,
    task: &Task<'_, I, O, V>,
    is_there: bool,
) -> Result<(), Stop>
    ensures { Begins task.now is_there result }
{
    match task {
        Task::Init { first, days, zone } => look_at_period(alloc, first, *days, zone),
        Task::Import(_)
        | Task::ImportWhole(_)
        | Task::Export(_)
        | Task::Interruptions(_)
        | Task::Table
        | Task::Indices(..)
        | Task::Audit
        | Task::Migrate
        | Task::Serve(_) => look_for_file(is_there),
    }
}

/// Answers a missing file as a fault of the store.
fn look_for_file(is_there: bool) -> Result<(), Stop>
    ensures { result ≡ where_there is_there }
{
    if is_there {
        Ok(())
    } else {
        Err(Stop::Fault(Fault::Store))
    }
}

/// Refuses an impossible period.
fn look_at_period(alloc: Global, first: &[u8], days: u16, zone: &[u8]) -> Result<(), Stop>
    ensures refused { (result ≡ Err (Stop.Refused Refusal.BadPeriod))
        ↔ HasNoPeriodText first.now days zone.now }
    ensures errors { IfErr result (IsRefusedOrNoMemory Refusal.BadPeriod) }
{
    Period::from_text(alloc, first, days, zone)?;
    Ok(())
}
