//! The steps of an example.

/// The first date, the number of days and the zone of a period.
pub type Span = (&'static [u8], u16, &'static [u8]);

/// The first day of 2024 in UTC.
pub const ONE_DAY: Span = (b"2024-01-01", 1, b"UTC0");

/// A step. A line of a script is the body text of a command, ` => `, and the expected result. The
/// result is the moved amounts, as `cause 3 600, feeder 1 600, day 0 600`, or the refusal, as
/// `Stale 2`. A body text alone has to move nothing.
#[derive(Clone, Copy)]
pub enum Step<'t> {
    /// Applies the lines of a script and checks what they move.
    Take(&'t str),
    /// Applies the commands of a script, whatever they move.
    Enter(&'t str),
    /// Applies the lines of a script. The book that finds outage intervals in windows may search
    /// its network at most this often for them; adopting searches nothing.
    Within(&'t str, u128),
    /// Checks the totals, that both books have the same outage intervals, and that a replay of the
    /// accepted commands shows the same.
    Shows(u64),
    /// Checks the indices as JSON, over all interruptions and over the unmarked ones.
    Indices(&'t str, &'t str),
    /// Checks the indices over all interruptions as quotients: SAIFI, SAIDI, CAIDI, CAIFI, ASAI and
    /// CEMI-1, undefined if a denominator is 0.
    Quotients(&'t [(u128, u128)]),
    /// Checks the three decimals of SAIDI over all interruptions.
    Saidi(&'t str),
    /// Checks the totals as JSON.
    Totals(&'t str),
    /// Checks the annual table.
    Table(&'t str),
    /// Checks that a replay of the accepted commands and this one is refused as no book.
    NoBook(&'t str),
}
