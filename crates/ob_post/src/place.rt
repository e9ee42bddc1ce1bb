//! The places of amounts in one list: causes 0 to 63, then feeders 1 to 255, then days.
ghost use Rattle.std.specs.Prelude.{◌≡◌, ◌<◌};
ghost use Rattle.ob_post.specs.Keys.{IsKey};
ghost use Rattle.ob_post.specs.Places.{place_of as the_place_of};

use crate::{CAUSES, Dim, FEEDERS, MOST_DAYS};

/// The place of feeder 1, the first one.
pub const FIRST_FEEDER: usize = CAUSES as usize;

/// The number of places of causes and feeders.
pub const FIXED_PLACES: usize = FIRST_FEEDER + FEEDERS as usize;

/// The most places that there are.
pub const MOST_PLACES: usize = FIXED_PLACES + MOST_DAYS as usize;

/// The place of a key.
pub fn place_of(dim: Dim, key: u16) -> usize
    requires { IsKey 366 dim key }
    ensures { result ≡ the_place_of dim key }
{
    let key = usize::from(key);
    match dim {
        Dim::Cause => key,
        Dim::Feeder => FIRST_FEEDER + key - 1,
        Dim::Day => FIXED_PLACES + key,
    }
}

/// The dimension and the key at a place.
pub fn key_at(place: usize) -> (Dim, u16)
    requires { place < MOST_PLACES }
    ensures exists { IsKey 366 result.0 result.1 }
    ensures place { the_place_of result.0 result.1 ≡ place }
{
    if place < FIRST_FEEDER {
        (Dim::Cause, place as u16)
    } else if place < FIXED_PLACES {
        (Dim::Feeder, (place - FIRST_FEEDER + 1) as u16)
    } else {
        (Dim::Day, (place - FIXED_PLACES) as u16)
    }
}
