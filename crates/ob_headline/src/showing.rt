//! What is shown of the book that a `Keeper` has.
ghost use Rattle.std.specs.Prelude.{◌≡◌, ◌↔◌, IsNone, IfOk, IfErr, IfSome};
ghost use Rattle.ob_base.specs.Stop.{out_of_memory};
ghost use Rattle.ob_book.specs.Acts.{ActState};
ghost use Rattle.ob_store.specs.Keepers.{Ties, book_of};
ghost use Rattle.ob_headline.specs.Headline.{HasNoAmount, IsHeadline};

use crate::figures::{Shown, shown_of};
use crate::key::is_key;
use ob_base::Stop;
use ob_index::Which;
use ob_post::Dim;
use ob_store::{Alter, Keeper};
use ob_sweep::Timeline;

/// What is shown of the book that a keeper has: the amount under a key of a dimension, the total,
/// the indices over all interruptions or the unmarked ones, and the three texts. `None` exactly if
/// the keeper has no book, or the book keeps no amount under such a key. Fails only if an
/// allocation fails.
pub fn shown<S: Alter, T: Timeline>(
    keeper: &Keeper<S, T>,
    dim: Dim,
    key: u16,
    which: Which,
) -> Result<Option<Shown>, Stop>
    ensures headline { (b : ActState) → Ties keeper.now b
        → IfOk result (λ shown. IfSome shown (IsHeadline b dim key which)) }
    ensures none { IfOk result (λ shown. IsNone shown ↔ HasNoAmount (book_of keeper.now) dim key) }
    ensures err { IfErr result (λ stop. stop ≡ out_of_memory) }
{
    let Some(book) = keeper.book() else {
        return Ok(None);
    };
    if !is_key(book.period().days(), dim, key) {
        return Ok(None);
    }
    match shown_of(book, dim, key, which) {
        Ok(shown) => Ok(Some(shown)),
        Err(stop) => Err(stop),
    }
}
