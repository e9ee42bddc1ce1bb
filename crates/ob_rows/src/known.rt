//! Texts of moments that were made before.
ghost use Rattle.std.specs.Prelude.{◌≡◌, ◌++◌, ◌≤◌, IfOk, OnOk};
ghost use Rattle.ob_rows.specs.Moments.{moment_text, utc_text};

use crate::moment::{moment_of, push_second};
use ob_base::{LAST_SECOND, Second};
use std::alloc::AllocError;

// How many moments are kept. It is a prime, so that whole minutes have different places too.
const PLACES: usize = 509;

/// A moment with its text.
#[derive(Clone, Copy)]
pub(crate) struct Known {
    second: Second,
    text: [u8; 20],
    ghost right: { text ≡ utc_text second },
}

/// Appends the text of a second, as [`push_second`], and keeps it, or takes it from those that are
/// kept: the customers of a section have the same interruptions. Fails only if an allocation fails.
pub(crate) fn push_known(
    text: &mut Vec<u8>,
    known: &mut Vec<Known>,
    second: Second,
) -> Result<(), AllocError>
    ensures { OnOk result (text.new.items ≡ text.old.items ++ moment_text second) }
{
    if second <= LAST_SECOND {
        text.extend_from_slice(&known_moment(known, second)?)
    } else {
        push_second(text, second)
    }
}

// The text of a moment of UTC, which is kept at its place.
fn known_moment(known: &mut Vec<Known>, second: Second) -> Result<[u8; 20], AllocError>
    requires { second ≤ 99_999_999_999 }
    ensures { IfOk result (λ text. text ≡ utc_text second) }
{
    let place = second as usize % PLACES;
    if place >= known.len() {
        known.resize(PLACES, new_moment(second))?;
    }
    let last = known[place];
    if last.second == second {
        return Ok(last.text);
    }
    let made = new_moment(second);
    known[place] = made;
    Ok(made.text)
}

// A moment with its text.
fn new_moment(second: Second) -> Known
    requires { second ≤ 99_999_999_999 }
    ensures { result.second ≡ second }
{
    Known {
        second,
        text: moment_of(second),
    }
}
