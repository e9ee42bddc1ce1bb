//! Checks that no reference occurs twice, and laws of the states that such commands give.
ghost use Rattle.std.specs.Prelude.{◌≡◌, ◌≢◌, ◌↔◌, ℕ, List, AllPairs, IsSorted, IsTrue, IfOk, IfErr};
ghost use Rattle.ob_base.specs.Stop.{out_of_memory};
ghost use Rattle.ob_sql_read.specs.Listing.{filed_of};
ghost use Rattle.ob_sql_read.specs.Distinct.{AreDistinct, texts_of, text_order, shown_texts};
ghost use Rattle.ob_sql_read.specs.Distinct.{ReachedByCommands, ActsAreAccepted, MovedIsOf};
ghost use Rattle.ob_sql_read.specs.Ordered.{RowsHaveOneOrder};
ghost use Rattle.ob_sql_rows.specs.declared.version.Version.{Version};

use crate::filed::Filed;
use ob_base::Stop;
use ob_book::next_law;
use ob_command::bodies_law;
use ob_upgrade::version_law;
use std::alloc::Global;

/// Returns the bytes of the references.
fn references_of(alloc: Global, commands: &[Filed]) -> Result<Vec<&[u8]>, Stop>
    ensures references { IfOk result (λ list. shown_texts list.items ≡ texts_of commands.now) }
    ensures faults { IfErr result (λ stop. stop ≡ out_of_memory) }
{
    let mut references = Vec::new(alloc);
    'commands: for at in 0..commands.len() {
        references.push(commands[at].reference.bytes())?;
    }
    Ok(references)
}

/// Whether no text occurs twice in a sorted list. Equal texts are neighbours in it.
fn have_no_twins(sorted: &[&[u8]]) -> bool
    requires { IsSorted text_order sorted.now }
    ensures { IsTrue result ↔ AllPairs (λ (a b : List ℕ). a ≢ b) (shown_texts sorted.now) }
{
    'places: for at in 1..sorted.len() {
        if sorted[at - 1] == sorted[at] {
            return false;
        }
    }
    true
}

/// Whether no reference occurs twice. Sorts a copy of the references, which takes time n log n and
/// memory for the copy.
pub fn are_distinct(alloc: Global, commands: &[Filed]) -> Result<bool, Stop>
    ensures distinct { IfOk result (λ is. IsTrue is ↔ AreDistinct (filed_of commands.now)) }
    ensures faults { IfErr result (λ stop. stop ≡ out_of_memory) }
{
    let mut references = references_of(alloc, commands)?;
    references.sort_unstable();
    Ok(have_no_twins(&references))
}

/// States how accepted commands and states belong together. Commands under different references,
/// each accepted in its turn, give the same state as applying each under its reference. If a whole
/// list was accepted, no reference occurs twice in it, each command was accepted in its turn, and
/// the changes of amounts are the rows of the table of moved amounts. The rows of commands, in the
/// order of their numbers, belong to only one list of a version's commands. Does nothing at run
/// time.
pub fn reaching_law()
    ensures reached { ReachedByCommands }
    ensures accepted { ActsAreAccepted }
    ensures moved { MovedIsOf }
    ensures ordered { (version : Version) → RowsHaveOneOrder version }
{
    next_law();
    bodies_law();
    version_law();
}
