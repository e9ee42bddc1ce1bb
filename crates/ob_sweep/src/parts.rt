//! What a new section changes in the outage intervals that a timeline holds.
ghost use Rattle.std.specs.Prelude.{◌≡◌, ◌≤◌, ◌<◌, ◌-◌, ℕ, List, Some, IfOk, IfErr, length};
ghost use Rattle.ob_base.specs.Stop.{out_of_memory};
ghost use Rattle.ob_net.specs.Network.{without_last_node};
ghost use Rattle.ob_sheet.specs.declared.Entry.{Entry};
ghost use Rattle.ob_sweep.specs.declared.Run.{Run as ARun};
ghost use Rattle.ob_sweep.specs.Changed.{IsLastNode};
ghost use Rattle.ob_sweep.specs.Deltas.{Fits, IsDeltaTo};
ghost use Rattle.ob_sweep.specs.Timeline.{AreRuns};

use crate::Delta;
use crate::sweep::still;
use ob_base::{Second, Stop};
use ob_net::Net;
use std::alloc::Global;

/// What changes when a section was added that no device joins yet: it has one outage interval, all
/// the seconds, without a cutter. The intervals of all other sections stay. The network is not
/// searched. The error is a failed allocation.
pub fn plan_section(alloc: Global, net: &Net, first: Second, end: Second) -> Result<Delta, Stop>
    requires some { first < end }
    requires nodes { 0 < length net.now.network.nodes }
    ensures delta { (feeder : ℕ) (entries : List Entry) (lists : List (List ARun))
        → IsLastNode net.now.network (Some feeder)
        → AreRuns (without_last_node net.now.network) entries first end lists
        → IfOk result (λ delta. IsDeltaTo net.now.network entries first end delta lists) }
    ensures fits { (lists : List (List ARun)) → length lists ≡ 1_024
        → IfOk result (λ delta. Fits lists delta) }
    ensures err { IfErr result (λ stop. stop ≡ out_of_memory) }
{
    let section = net.nodes() - 1;
    let runs = still(alloc, section, false, first, end)?;
    Ok(Delta::of_section(alloc, section, runs)?)
}
