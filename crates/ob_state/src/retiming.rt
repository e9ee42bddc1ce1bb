//! What a command changes in the outage intervals of the sections.
ghost use Rattle.std.specs.Prelude.{◌≡◌};
ghost use Rattle.ob_state.specs.Retimings.{FitsTo, LeadsTo};
ghost use Rattle.ob_state.specs.State.{BookState};
ghost use Rattle.ob_state.specs.States.{AreRunsOf};

use ob_sweep::{Delta, Timeline};

/// What a command changes in the outage intervals of the sections.
#[derive(Drop)]
pub enum Retiming {
    /// Nothing.
    Same,
    /// The intervals of the sections that a change of the switching log or of the network touches.
    By(Delta),
}

/// Applies a command's change of the outage intervals to a timeline.
pub fn retime<T: Timeline>(timeline: &mut T, retiming: Retiming)
    requires fits { FitsTo (T.content timeline.old) retiming }
    ensures runs { (b c : BookState) → c.period ≡ b.period → AreRunsOf b (T.content timeline.old)
        → LeadsTo b c retiming → AreRunsOf c (T.content timeline.new) }
{
    match retiming {
        Retiming::Same => {}
        Retiming::By(delta) => timeline.adopt(delta),
    }
}
