//! The rows of an accepted command, and laws of the states that a book can reach.
ghost use Rattle.std.specs.Prelude.{◌≡◌, ◌+◌, true};
ghost use Rattle.ob_base.specs.Identifier.{is_identifier};
ghost use Rattle.ob_post.specs.MoveLaws.{AreSmall};
ghost use Rattle.ob_post.specs.Postings.{PostedAmounts};
ghost use Rattle.ob_sheet.specs.declared.Entry.{Entry};
ghost use Rattle.ob_command.specs.Commands.{body_text};
ghost use Rattle.ob_state.specs.Amounts.{amount};
ghost use Rattle.ob_state.specs.Next.{next};
ghost use Rattle.ob_book.specs.Acts.{ActState};
ghost use Rattle.ob_book.specs.Books.{ArePosted};
ghost use Rattle.ob_book.specs.Plans.{IsPlan};
ghost use Rattle.ob_sql_write.specs.Acts.{CanWrite};
ghost use Rattle.ob_record.specs.Leading.{LeadsParts, Records};
ghost use Rattle.ob_record.specs.Reached.{AcceptedIsReached, IsReached, ReachedCounts, ReachedIsOfCommands};
ghost use Rattle.ob_record.specs.Reached.{StartHasFirstRows, StartIsReached};

use ob_book::{Book, Plan, acts_law, next_law};
use ob_post::laws::move_laws;
use ob_sql_write::Act;
use ob_state::Resolved;
use ob_sweep::Timeline;

/// Returns the rows of an accepted command: its number, reference and body, its resolved form, and
/// the amounts that it changes.
pub fn act_of<'t, T: Timeline>(
    book: &Book<T>,
    plan: &'t Plan<T>,
    reference: &'t [u8],
    body: &'t [u8],
) -> Act<'t>
    requires plan { IsPlan book.now.state plan.now }
    requires body { body.now ≡ body_text plan.now.command }
    requires small { AreSmall (amount book.now.state)
        × AreSmall (amount (next book.now.state plan.now.command)) }
    ensures no { result.no ≡ book.now.state.accepted + 1 }
    ensures can { (p : PostedAmounts) → ArePosted book.now.state p → CanWrite p result }
    ensures leads { LeadsParts book.now.state (next book.now.state plan.now.command)
        result.resolved.now }
    ensures records { (b : ActState) → IsReached b → b.book ≡ book.now.state
        → (p : PostedAmounts) → ArePosted book.now.state p
        → Records b (record { reference = reference.now; command = plan.now.command }) p result }
{
    next_law();
    acts_law();
    move_laws();
    let resolved = plan.resolved();
    crew_law(resolved);
    Act {
        no: book.accepted() + 1,
        reference,
        body,
        resolved,
        moves: plan.moves(),
    }
}

/// States that the crew of a withdrawn entry is an identifier. Does nothing at run time.
fn crew_law(resolved: &Resolved)
    ensures { (was entry : Entry) → resolved.now ≡ Resolved.Withdrawn was entry
        → is_identifier 16 entry.crew ≡ true }
{
    if let Resolved::Withdrawn { new, .. } = resolved {
        let _ = new.crew.bytes();
    }
}

/// States that a new book is reached, and that an accepted command leads from one reached book to
/// another. A reached book has the state of its commands and counts them. A new book has the first
/// rows of the tables. Does nothing at run time.
pub fn reached_law()
    ensures starts { StartIsReached }
    ensures goes_on { AcceptedIsReached }
    ensures commands { ReachedIsOfCommands }
    ensures counts { ReachedCounts }
    ensures empty { StartHasFirstRows }
{
    next_law();
    acts_law();
}
