//! Laws of interruption rows. Their functions do nothing at run time.
ghost use Rattle.ob_rows.specs.RowLaws.{CustomersOfRowsAreCounted, MomentaryRowsAreCounted, RowsAreByCause, RowsAreByDay, RowsAreByFeeder, RowsAreInterruptions, RowsAreWithoutSupply, SustainedRowsAreCounted, SustainedRowsAreTimed};

/// States what the interruption rows of a book are, and what they add up to. The rows of a
/// customer's section and service are its interruptions, in order. The customer-seconds of all rows
/// are those without supply; those of the rows of a cause or a feeder, and those that lie in a day,
/// are its amount. Of all rows, and of those that don't begin on a major event day: the customers
/// of the sustained rows are the customer interruptions (CI), their customer-seconds are those of
/// the customer interruptions (CSI), the customers who have n or more sustained rows are those with
/// n or more sustained interruptions (CN_n), and the customers of the momentary rows are the
/// momentary customer interruptions (MI).
pub fn rows_law()
    ensures interruptions { RowsAreInterruptions }
    ensures without_supply { RowsAreWithoutSupply }
    ensures causes { RowsAreByCause }
    ensures feeders { RowsAreByFeeder }
    ensures days { RowsAreByDay }
    ensures sustained { SustainedRowsAreCounted }
    ensures seconds { SustainedRowsAreTimed }
    ensures customers { CustomersOfRowsAreCounted }
    ensures momentary { MomentaryRowsAreCounted }
{}
