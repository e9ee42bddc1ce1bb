//! Times of day and offsets as texts.
ghost use Rattle.std.specs.Prelude.{◌≡◌, ℕ, ℤ, IfSome, IfNone};
ghost use Rattle.jiff.specs.Types.{Time as PlainTime};
ghost use Rattle.jiff_core.specs.Sign.{signed};
ghost use Rattle.ob_time.specs.Moment.{IsTimeForm, IsTimeText, IsHourMinuteText, IsOffsetText};

use crate::reader::{after, two_digits};
use jiff::civil::Time;

// The three numbers of `HH:MM:SS`.
fn time_numbers(text: &[u8]) -> Option<(u8, u8, u8)>
    ensures found { IfSome result (λ p. IsTimeForm text.now p.0 p.1 p.2) }
    ensures none { IfNone result ((h m s : ℕ) → ¬ (IsTimeForm text.now h m s)) }
{
    let (hour, rest) = two_digits(text)?;
    let (minute, rest) = two_digits(after(rest, b':')?)?;
    let (second, rest) = two_digits(after(rest, b':')?)?;
    if !rest.is_empty() {
        return None;
    }
    Some((hour, minute, second))
}

// Reads `HH:MM:SS`.
pub(crate) fn read_time(text: &[u8]) -> Option<Time>
    ensures found { IfSome result (IsTimeText text.now) }
    ensures none { IfNone result ((t : PlainTime) → ¬ (IsTimeText text.now t)) }
{
    let (hour, minute, second) = time_numbers(text)?;
    match Time::new(hour as i8, minute as i8, second as i8, 0) {
        Ok(time) => Some(time),
        Err(_) => None,
    }
}

// The seconds of `HH:MM`; the text must have nothing else.
fn hours_minutes(text: &[u8]) -> Option<u32>
    ensures found { IfSome result (IsHourMinuteText text.now) }
    ensures none { IfNone result ((n : ℕ) → ¬ (IsHourMinuteText text.now n)) }
{
    let (hours, rest) = two_digits(text)?;
    let (minutes, rest) = two_digits(after(rest, b':')?)?;
    if hours > 23 || minutes > 59 || !rest.is_empty() {
        return None;
    }
    Some(u32::from(hours) * 3600 + u32::from(minutes) * 60)
}

// The offset in seconds east of UTC: `Z`, `+HH:MM` or `-HH:MM`, and nothing else.
pub(crate) fn read_offset(text: &[u8]) -> Option<i64>
    ensures found { IfSome result (IsOffsetText text.now) }
    ensures none { IfNone result ((o : ℤ) → ¬ (IsOffsetText text.now o)) }
{
    if let Some(rest) = after(text, b'+') {
        return signed_offset(rest, false);
    }
    if let Some(rest) = after(text, b'-') {
        return signed_offset(rest, true);
    }
    if after(text, b'Z')?.is_empty() {
        Some(0)
    } else {
        None
    }
}

// The seconds of `HH:MM` with a sign.
fn signed_offset(text: &[u8], negative: bool) -> Option<i64>
    ensures found { IfSome result (λ o. (n : ℕ) × IsHourMinuteText text.now n
        × (o ≡ signed negative n)) }
    ensures none { IfNone result ((n : ℕ) → ¬ (IsHourMinuteText text.now n)) }
{
    let seconds = i64::from(hours_minutes(text)?);
    if negative {
        return Some(-seconds);
    }
    Some(seconds)
}
