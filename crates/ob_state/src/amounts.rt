//! A bound on the amounts of a state. Its function does nothing at run time.
ghost use Rattle.std.specs.Prelude.{◌≡◌, None};
ghost use Rattle.ob_post.specs.MoveLaws.{AreSmall};
ghost use Rattle.ob_state.specs.Amounts.{amount};
ghost use Rattle.ob_state.specs.Next.{next};
ghost use Rattle.ob_state.specs.Refusals.{refusal};

use crate::state::State;
use ob_command::Command;
use ob_post::laws::total_laws;

/// States that all amounts before and after an accepted command are below 2^63.
pub fn amounts_are_small(state: &State, command: &Command)
    requires accepted { refusal state.now.state command.now ≡ None }
    ensures before { AreSmall (amount state.now.state) }
    ensures after { AreSmall (amount (next state.now.state command.now)) }
{
    total_laws();
    let _ = (state.accepted(), *command);
}
