//! The window of a changed in-service interval: the seconds in which the change can alter the
//! supply, and the entries of these seconds.
ghost use Rattle.std.specs.Prelude.{◌≡◌, ◌≤◌, ◌<◌, ℕ, false, MatchOption, None, Some};
ghost use Rattle.ob_base.specs.Life.{is_alive};
ghost use Rattle.ob_sheet.specs.Sheet.{AreNumbered};
ghost use Rattle.ob_sweep.specs.Lives.{differ_at, first_differing, last_lived, Bounds, HoldsFrom};
ghost use Rattle.ob_sweep.specs.Windows.{Spans};

use crate::window::Window;
use ob_base::{Life, Second};
use ob_sheet::Sheet;

/// The in-service interval without any second, that of a device which doesn't exist.
pub const NEVER: Life = Life {
    since: 0,
    until: Some(0),
};

/// The seconds from `first` up to `end` that an in-service interval contains: the first one, and
/// the second after the last one. `None` if it contains none of them.
fn seconds_held(life: Life, first: Second, end: Second) -> Option<(Second, Second)>
    ensures { MatchOption result ((s : ℕ) → first ≤ s → s < end
        → is_alive life s ≡ false) (λ w. HoldsFrom (is_alive life) first end w.0 w.1) }
{
    let since = life.since.max(first);
    let until = match life.until {
        Some(until) => until.min(end),
        None => end,
    };
    if since < until {
        Some((since, until))
    } else {
        None
    }
}

/// The seconds from `first` up to `end` that exactly one of two in-service intervals contains: the
/// first one, and the second after the last one. `None` if both contain the same seconds.
fn differing_seconds(old: Life, new: Life, first: Second, end: Second) -> Option<(Second, Second)>
    ensures { MatchOption result ((s : ℕ) → first ≤ s → s < end
        → differ_at old new s ≡ false) (λ w. Bounds (differ_at old new) first end w.0 w.1) }
{
    match (seconds_held(old, first, end), seconds_held(new, first, end)) {
        (None, None) => None,
        (Some(only), None) | (None, Some(only)) => Some(only),
        (Some((a, b)), Some((c, d))) => {
            let since = if a == c { b.min(d) } else { a.min(c) };
            let until = if b == d { a.max(c) } else { b.max(d) };
            if since < until {
                Some((since, until))
            } else {
                None
            }
        }
    }
}

/// The window of a changed in-service interval, within the seconds from `first` up to `end`: from
/// the first second that exactly one of the two intervals contains to the second after the last
/// such one, or up to `end`. `None` if both contain the same seconds.
pub fn life_window(
    sheet: &Sheet,
    old: Life,
    new: Life,
    first: Second,
    end: Second,
) -> Option<Window>
    requires some { first < end }
    ensures { MatchOption result (first_differing old new first end ≡ None)
        (λ w. (first_differing old new first end ≡ Some w.first)
        × Spans w.first (last_lived old new first end) sheet.now.entries w
        × AreNumbered sheet.now.entries) }
{
    let (since, until) = differing_seconds(old, new, first, end)?;
    let end = if until < end { until + 1 } else { end };
    Some(Window {
        first: since,
        end,
        from: sheet.places_before(since),
        to: sheet.places_before(end),
    })
}
