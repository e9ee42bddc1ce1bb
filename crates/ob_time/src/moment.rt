//! Moments as texts: Unix seconds, and civil datetimes with an offset.
ghost use Rattle.std.specs.Prelude.{◌≡◌, ℕ, pos, neg_ℤ, ◌-ℤ◌, ◌^◌, ◌≤◌, ◌↔◌, Some, length, IfSome, IfNone, IfOk, IfErr, string_bytes};
ghost use Rattle.jiff.specs.Words.{IsBetween};
ghost use Rattle.ob_base.specs.Stop.{out_of_memory};
ghost use Rattle.ob_time.specs.Moment.{IsCivilText, IsSecondText, IsUtcText};

use crate::clock::{read_offset, read_time};
use crate::date::read_date;
use jiff::civil::DateTime;
use ob_base::{LAST_SECOND, Second, Stop, read_unix_second};
use std::alloc::Global;

// The second of a civil datetime with an offset.
fn read_civil(text: &[u8]) -> Option<Second>
    ensures found { IfSome result (IsCivilText text.now) }
    ensures none { IfNone result ((s : ℕ) → ¬ (IsCivilText text.now s)) }
{
    if text.len() < 19 || text[10] != b'T' {
        return None;
    }
    let date = read_date(&text[..10])?;
    let time = read_time(&text[11..19])?;
    let (_, offset) = text.split_at(19);
    let offset = read_offset(offset)?;
    let second = utc_second(date.to_datetime(time).to_plain().to_second(), offset);
    if second < 0 || second > LAST_SECOND as i64 {
        return None;
    }
    Some(second as Second)
}

// The UTC second of a civil second, given the offset in seconds east of UTC.
fn utc_second(civil: i64, offset: i64) -> i64
    requires civil { IsBetween (neg_ℤ (pos (2 ^ 40))) (pos (2 ^ 40)) civil }
    requires offset { IsBetween (neg_ℤ (pos 86_400)) (pos 86_400) offset }
    ensures { result ≡ civil -ℤ offset }
{
    civil - offset
}

/// Reads a moment. 1 to 11 digits are Unix seconds. `YYYY-MM-DDTHH:MM:SS` with `Z`, `+HH:MM` or
/// `-HH:MM` is a civil moment, and its second is the one it would be in UTC, less the offset.
/// `None` for any other text, or outside 0 to `LAST_SECOND`.
pub fn read_second(text: &[u8]) -> Option<Second>
    ensures { (s : ℕ) → (result ≡ Some s) ↔ IsSecondText text.now s }
{
    match read_unix_second(text) {
        Some(second) => Some(second),
        None => read_civil(text),
    }
}

/// The text of a second, as `2024-01-01T00:00:00Z`. The error is a failed allocation.
pub fn second_text(alloc: Global, second: Second) -> Result<String, Stop>
    requires { second ≤ 99_999_999_999 }
    ensures ok { IfOk result (λ t. IsUtcText (string_bytes t) second) }
    ensures long { IfOk result (λ t. length (string_bytes t) ≡ 20) }
    ensures reads_back { IfOk result (λ t. IsSecondText (string_bytes t) second) }
    ensures errors { IfErr result (λ e. e ≡ out_of_memory) }
{
    let datetime = DateTime::from_plain(jiff_core::civil::DateTime::from_nanosecond_in_range(
        i128::from(second) * 1_000_000_000,
    ));
    Ok(format!(in alloc; "{datetime}Z")?)
}
