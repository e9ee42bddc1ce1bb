//! The changes between two lists of amounts.
ghost use Rattle.std.specs.Prelude.{◌≡◌, ◌^◌, ◌<◌, ◌-ℤ◌, ℕ, ℤ, IfOk, IfErr, length, slice_index_or, pos};
ghost use Rattle.std.specs.Prelude.{FitsSigned};
ghost use Rattle.std.specs.Int.{int_wrap, w64};
ghost use Rattle.ob_base.specs.Stop.{out_of_memory};
ghost use Rattle.ob_post.specs.Keys.{IsKey};
ghost use Rattle.ob_post.specs.MoveLaws.{AreOfChange};
ghost use Rattle.ob_post.specs.Moved.{delta_of, HaveKeys, HaveNoZero, AreInOrder, moves_by};
ghost use Rattle.ob_post.specs.Places.{place_of as the_place_of};
ghost use Rattle.ob_post.specs.declared.Dim.{Dim as Dimension};
ghost use Rattle.ob_post.specs.declared.place.TheConstants.{MOST_PLACES};

use crate::Moved;
use crate::place::{MOST_PLACES, key_at, place_of};
use ob_base::Stop;
use std::alloc::Global;

/// The changes that replace the amounts `taken` by the amounts `given`: for each key the sum in
/// `given` less the sum in `taken`, if that isn't 0, in the order cause, feeder, day and then by
/// key. A key may have several rows. Each difference fits an `i64`. The error is a failed
/// allocation.
pub fn moves(alloc: Global, taken: &[Moved], given: &[Moved]) -> Result<Vec<Moved>, Stop>
    requires taken { HaveKeys 366 taken.now }
    requires given { HaveKeys 366 given.now }
    requires fits { (dim : Dimension) (key : ℕ) → FitsSigned w64
        (delta_of given.now dim key -ℤ delta_of taken.now dim key) }
    ensures deltas { IfOk result (λ moved. (dim : Dimension) (key : ℕ)
        → delta_of moved.items dim key ≡ delta_of given.now dim key -ℤ delta_of taken.now dim key) }
    ensures no_zero { IfOk result (λ moved. HaveNoZero moved.items) }
    ensures order { IfOk result (λ moved. AreInOrder moved.items) }
    // Seen as one list: for any number of days that includes all the keys, these are the changes of
    // all keys.
    ensures moves { IfOk result (λ moved. (days : ℕ) → HaveKeys days taken.now
        → HaveKeys days given.now → moved.items ≡ moves_by
        (λ dim key. delta_of given.now dim key -ℤ delta_of taken.now dim key) days) }
    ensures changes { IfOk result (λ moved. (days : ℕ) (change : Dimension → ℕ → ℤ)
        → HaveKeys days taken.now → HaveKeys days given.now
        → AreOfChange days taken.now given.now change → moved.items ≡ moves_by change days) }
    ensures keys { IfOk result (λ moved. (days : ℕ) → HaveKeys days taken.now
        → HaveKeys days given.now → HaveKeys days moved.items) }
    ensures err { IfErr result (λ stop. stop ≡ out_of_memory) }
{
    let taken_sums = sums(alloc, taken)?;
    let given_sums = sums(alloc, given)?;
    let mut moved = Vec::new(alloc);
    for place in 0..MOST_PLACES {
        let delta = given_sums[place].wrapping_sub(taken_sums[place]);
        if delta != 0 {
            let (dim, key) = key_at(place);
            moved.push(Moved { dim, key, delta })?;
        }
    }
    Ok(moved)
}

// The sum of the deltas of each key, by place. A sum may wrap around on the way: the difference of
// two sums is still exact if it fits.
fn sums(alloc: Global, rows: &[Moved]) -> Result<Vec<i64>, Stop>
    requires { HaveKeys 366 rows.now }
    ensures places { IfOk result (λ sums. length sums.items ≡ MOST_PLACES) }
    ensures sums { IfOk result (λ sums. (dim : Dimension) (key : ℕ) → IsKey 366 dim key
        → slice_index_or sums.items (the_place_of dim key) (pos 0)
        ≡ int_wrap w64 (delta_of rows.now dim key)) }
    ensures err { IfErr result (λ stop. stop ≡ out_of_memory) }
{
    let mut sums = vec![in alloc; 0i64; MOST_PLACES]?;
    for row in rows {
        let place = place_of(row.dim, row.key);
        sums[place] = sums[place].wrapping_add(row.delta);
    }
    Ok(sums)
}
