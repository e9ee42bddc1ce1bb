//! Replays commands on a book.
ghost use Rattle.std.specs.Prelude.{◌≡◌, ◌<◌, ◌≤◌, ◌+◌, ◌↔◌, true, IsTrue, IsSome, IfOk, IfErr, IfSome, Ok, Some, None};
ghost use Rattle.ob_base.specs.Stop.{out_of_memory};
ghost use Rattle.ob_state.specs.Next.{next, next_all};
ghost use Rattle.ob_state.specs.Refusals.{refusal as refusal_to};
ghost use Rattle.ob_state.specs.Searches.{all_searches, most_searches};
ghost use Rattle.ob_book.specs.Plans.{IsPlan};
ghost use Rattle.ob_sql_read.specs.Listing.{filed_of};
ghost use Rattle.ob_sql_read.specs.Moves.{commands_of};

use crate::filed::Filed;
use crate::layout::Layout;
use ob_base::Stop;
use ob_book::{Book, Plan};
use ob_command::Command;
use ob_sweep::Timeline;

/// Returns the plan of a command and records what it changes in the network; None if the command is
/// refused. The network is searched for the plan alone.
pub(crate) fn decide_noting<T: Timeline>(
    book: &mut Book<T>,
    command: &Command,
    noted: &mut Layout,
) -> Result<Option<Plan<T>>, Stop>
    ensures refused { result ≡ Ok None → IsSome (refusal_to book.old.state command.now) }
    ensures plan { IfOk result (λ plan. IfSome plan (IsPlan book.new.state)) }
    ensures command { IfOk result (λ plan. IfSome plan (λ it. it.command ≡ command.now)) }
    ensures room { IfOk result (λ plan. IfSome plan (λ _. 0 < book.new.room)) }
    ensures state { book.new.state ≡ book.old.state }
    ensures noted { IfOk result (λ plan. IfSome plan (λ _. noted.old ≡ book.old.state.network
        → noted.new ≡ (next book.old.state command.now).network)) }
    ensures searches { book.new.searches ≤ book.old.searches + most_searches T.bound book.old.state
        command.now }
    ensures faults { IfErr result (λ stop. stop ≡ out_of_memory) }
{
    let plan = match book.decide(command) {
        Ok(plan) => plan,
        Err(Stop::Refused(_)) => return Ok(None),
        Err(fault) => return Err(fault),
    };
    noted.note(plan.resolved())?;
    Ok(Some(plan))
}

/// Whether a command is accepted. If it is, the book adopts it, and `noted` records what it changes
/// in the network.
fn adopts<T: Timeline>(
    book: &mut Book<T>,
    command: &Command,
    noted: &mut Layout,
) -> Result<bool, Stop>
    ensures accepted { IfOk result (λ is. IsTrue is
        ↔ (refusal_to book.old.state command.now ≡ None)) }
    ensures book { result ≡ Ok true → book.new.state ≡ next book.old.state command.now }
    ensures noted { result ≡ Ok true → noted.old ≡ book.old.state.network
        → noted.new ≡ book.new.state.network }
    ensures searches { book.new.searches ≤ book.old.searches + most_searches T.bound book.old.state
        command.now }
    ensures faults { IfErr result (λ stop. stop ≡ out_of_memory) }
{
    let Some(plan) = decide_noting(book, command, noted)? else {
        return Ok(false);
    };
    book.adopt(plan);
    Ok(true)
}

/// Whether each of the commands is accepted in its turn. Replays them on the book, and records what
/// they change in the network. Searches the network for each command at most as often as its plan
/// may.
pub fn lead<T: Timeline>(
    book: &mut Book<T>,
    commands: &[Filed],
    noted: &mut Layout,
) -> Result<bool, Stop>
    ensures accepted { IfOk result (λ is. IsTrue is
        ↔ IsSome (next_all book.old.state (commands_of (filed_of commands.now)))) }
    ensures book { result ≡ Ok true
        → next_all book.old.state (commands_of (filed_of commands.now)) ≡ Some book.new.state }
    ensures noted { result ≡ Ok true → noted.old ≡ book.old.state.network
        → noted.new ≡ book.new.state.network }
    ensures searches { book.new.searches ≤ book.old.searches + all_searches T.bound book.old.state
        (commands_of (filed_of commands.now)) }
    ensures faults { IfErr result (λ stop. stop ≡ out_of_memory) }
{
    'commands: for at in 0..commands.len() {
        if !adopts(book, &commands[at].command, noted)? {
            return Ok(false);
        }
    }
    Ok(true)
}
