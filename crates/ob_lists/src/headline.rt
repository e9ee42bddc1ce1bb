//! What is shown of a book after any list of calls.
ghost use Rattle.std.specs.Prelude.{◌≡◌, ◌↔◌, ◌⊎◌, [], List, Err, IsNone, IsSome, IfOk, IfErr, IfSome};
ghost use Rattle.ob_base.specs.Stop.{out_of_memory};
ghost use Rattle.ob_book.specs.Acts.{ActState};
ghost use Rattle.ob_store.specs.Calls.{Loads};
ghost use Rattle.ob_store.specs.Keepers.{IsClean, book_of};
ghost use Rattle.ob_store.specs.declared.keeper.Keeper.{Keeper as AKeeper};
ghost use Rattle.ob_headline.specs.Headline.{HasNoAmount};
ghost use Rattle.ob_lists.specs.Standing.{MayBe, Stands, Told};
ghost use Rattle.ob_lists.specs.Going.{Goes};
ghost use Rattle.ob_lists.specs.Headline.{IsShownAfter, LoadsAndShows};

use crate::calls::load;
use crate::laws::told_law;
use ob_base::Stop;
use ob_book::next_law;
use ob_headline::{Shown, shown};
use ob_index::Which;
use ob_post::Dim;
use ob_store::{Alter, Keeper};
use ob_sweep::Timeline;

/// Shows the book of a keeper after any list of calls that began with a book, such as a new one. What
/// is shown is the headline of one book: the calls may have led to it, the keeper has it and its
/// store keeps it, and it has each acknowledged command. `None` exactly if the keeper has no book,
/// or the book keeps no amount under such a key. Fails only if an allocation fails.
pub fn show<S: Alter, T: Timeline>(
    keeper: &Keeper<S, T>,
    dim: Dim,
    key: u16,
    which: Which,
) -> Result<Option<Shown>, Stop>
    ensures shows { (b : ActState) (told : List Told) → Stands (MayBe b told) keeper.now
        → IfOk result (λ shown. IfSome shown (IsShownAfter b told keeper.now dim key which)) }
    ensures none { IfOk result (λ shown. IsNone shown ↔ HasNoAmount (book_of keeper.now) dim key) }
    ensures err { IfErr result (λ stop. stop ≡ out_of_memory) }
{
    next_law();
    told_law();
    shown(keeper, dim, key, which)
}

/// Loads the book after any list of calls, with crashes and openings between them, and shows it. A
/// load finds a book, unless memory is refused, the store fails for a cause, or the tables are of
/// version 1; and what is shown is the headline of that book.
pub fn load_and_show<R: Alter, U: Timeline, S: Alter, T: Timeline>(
    keeper: &mut Keeper<S, T>,
    dim: Dim,
    key: u16,
    which: Which,
) -> Result<Option<Shown>, Stop>
    ensures shows { IsClean keeper.new → (b : ActState) (told : List Told)
        → Stands (MayBe b told) keeper.old
        → LoadsAndShows b told keeper.new dim key which keeper.old result }
    // from a keeper that had the book at first, by whatever calls, crashes and openings
    ensures after { IsClean keeper.new → (b : ActState) (told : List Told)
        (first : AKeeper R U R.Store) → Stands (MayBe b []) first → Goes told first keeper.old
        → LoadsAndShows b told keeper.new dim key which keeper.old result }
    ensures goes { Goes [] keeper.old keeper.new }
    // the load stopped so, for a cause as it states it, or memory was refused after it gave a book
    ensures stops { IfErr result (λ stop. Loads keeper.old keeper.new (Err stop)
        ⊎ (IsSome (book_of keeper.new) × (stop ≡ out_of_memory))) }
{
    next_law();
    told_law();
    match load(keeper) {
        Ok(()) => shown(keeper, dim, key, which),
        Err(stop) => Err(stop),
    }
}
