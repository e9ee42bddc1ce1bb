//! Dates as texts.
ghost use Rattle.std.specs.Prelude.{◌≡◌, ℕ, pos, neg_ℤ, ◌≤ℤ◌, IfSome, IfNone, IfOk, IfErr, string_bytes};
ghost use Rattle.jiff.specs.Types.{Date as PlainDate};
ghost use Rattle.ob_base.specs.Stop.{out_of_memory};
ghost use Rattle.ob_time.specs.Dates.{day_text};
ghost use Rattle.ob_time.specs.Moment.{IsDateForm, IsDateText, IsTextOfDay};

use crate::reader::{after, four_digits, two_digits};
use jiff::civil::Date;
use ob_base::Stop;
use std::alloc::Global;

// The three numbers of `YYYY-MM-DD`.
fn date_numbers(text: &[u8]) -> Option<(u16, u8, u8)>
    ensures found { IfSome result (λ p. IsDateForm text.now p.0 p.1 p.2) }
    ensures none { IfNone result ((y m d : ℕ) → ¬ (IsDateForm text.now y m d)) }
{
    let (year, rest) = four_digits(text)?;
    let (month, rest) = two_digits(after(rest, b'-')?)?;
    let (day, rest) = two_digits(after(rest, b'-')?)?;
    if !rest.is_empty() {
        return None;
    }
    Some((year, month, day))
}

/// Reads the date `YYYY-MM-DD`, of the year 0000 or later; `None` for any other text.
pub fn read_date(text: &[u8]) -> Option<Date>
    ensures found { IfSome result (IsDateText text.now) }
    ensures only { IfSome result (λ d. (e : PlainDate) → IsDateText text.now e → e ≡ d) }
    ensures none { IfNone result ((d : PlainDate) → ¬ (IsDateText text.now d)) }
{
    let (year, month, day) = date_numbers(text)?;
    match Date::new(year as i16, month as i8, day as i8) {
        Ok(date) => Some(date),
        Err(_) => None,
    }
}

/// The text of the date with a day number. The error is a failed allocation.
pub(crate) fn text_of_day(alloc: Global, day: i64) -> Result<String, Stop>
    requires low { neg_ℤ (pos 1) ≤ℤ day }
    requires high { day ≤ℤ pos 2_932_896 }
    ensures ok { IfOk result (λ t. IsTextOfDay (string_bytes t) day) }
    ensures value { IfOk result (λ t. string_bytes t ≡ day_text day) }
    ensures errors { IfErr result (λ e. e ≡ out_of_memory) }
{
    let date = jiff_core::civil::Date::from_unix_epoch_day(day).unwrap();
    let date = Date::from_plain(date);
    Ok(format!(in alloc; "{date}")?)
}
