//! The days and the calendar months of a period.
ghost use Rattle.std.specs.Prelude.{◌≡◌, ◌≤◌, ◌<◌, ◌+◌, IfErr, IfOk};
ghost use Rattle.ob_base.specs.Stop.{out_of_memory};
ghost use Rattle.ob_index.specs.Table.{date_of};
ghost use Rattle.ob_time.specs.Calendar.{day_count};
ghost use Rattle.ob_selections.specs.Listed.{begins_month as begins_a_month, is_same_month as are_of_one_month, month_end as end_of_month, month_of};

use ob_base::Stop;
use ob_book::Book;
use ob_sweep::Timeline;
use std::alloc::Global;

// How many bytes of a date are its year and month, as in `2025-03-24`.
const MONTH_BYTES: usize = 7;

/// The date of a day, as `2025-03-24`. The error is a failed allocation.
pub fn day_text<T: Timeline>(alloc: Global, book: &Book<T>, day: u16) -> Result<Vec<u8>, Stop>
    requires { day < day_count book.now.state.period }
    ensures date { IfOk result (λ text. text.items ≡ date_of book.now.state.period day) }
    ensures err { IfErr result (λ e. e ≡ out_of_memory) }
{
    let date = book.period().date_text(day)?;
    let mut text = Vec::new(alloc);
    text.extend_from_slice(date.as_bytes())?;
    Ok(text)
}

/// The month of a day, as `2025-03`. The error is a failed allocation.
pub fn month_text<T: Timeline>(alloc: Global, book: &Book<T>, day: u16) -> Result<Vec<u8>, Stop>
    requires { day < day_count book.now.state.period }
    ensures month { IfOk result (λ text. text.items ≡ month_of book.now.state day) }
    ensures err { IfErr result (λ e. e ≡ out_of_memory) }
{
    let date = book.period().date_text(day)?;
    let mut month = Vec::new(alloc);
    month.extend_from_slice(&date.as_bytes()[..MONTH_BYTES])?;
    Ok(month)
}

/// Whether a day is the first one of its month in the period. The error is a failed allocation.
pub fn begins_month<T: Timeline>(book: &Book<T>, day: u16) -> Result<bool, Stop>
    requires { day < day_count book.now.state.period }
    ensures begins { IfOk result (λ begins. begins ≡ begins_a_month book.now.state day) }
    ensures err { IfErr result (λ e. e ≡ out_of_memory) }
{
    if day == 0 {
        return Ok(true);
    }
    Ok(!is_same_month(book, day - 1, day)?)
}

/// The day after the last one of a day's month in the period. The error is a failed allocation.
pub fn month_end<T: Timeline>(book: &Book<T>, day: u16) -> Result<u16, Stop>
    requires { day < day_count book.now.state.period }
    ensures end { IfOk result (λ end. end ≡ end_of_month book.now.state day) }
    ensures after { IfOk result (λ end. day < end) }
    ensures within { IfOk result (λ end. end ≤ day_count book.now.state.period) }
    ensures err { IfErr result (λ e. e ≡ out_of_memory) }
{
    let days = book.period().days();
    for next in day + 1..days {
        if !is_same_month(book, day, next)? {
            return Ok(next);
        }
    }
    Ok(days)
}

// Whether two days are of one month.
fn is_same_month<T: Timeline>(book: &Book<T>, day: u16, other: u16) -> Result<bool, Stop>
    requires day { day < day_count book.now.state.period }
    requires other { other < day_count book.now.state.period }
    ensures same { IfOk result (λ same. same ≡ are_of_one_month book.now.state day other) }
    ensures err { IfErr result (λ e. e ≡ out_of_memory) }
{
    let date = book.period().date_text(day)?;
    let next = book.period().date_text(other)?;
    Ok(date.as_bytes()[..MONTH_BYTES] == next.as_bytes()[..MONTH_BYTES])
}
