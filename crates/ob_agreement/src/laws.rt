//! Laws on the plain count and the book. Their functions do nothing at run time.
ghost use Rattle.ob_agreement.specs.Counts.{BookIsCounted, CountIsOfBook};
ghost use Rattle.ob_agreement.specs.Readings.{OtherRowsAreRefused, RowsAreReadAlike, TakenRowsAreRead};

/// States that `outagebook total` and the book read a row alike. If no field is a civil moment and
/// the kind isn't one that the book alone has, both read the same command or refuse the same
/// column. Whatever row `total` takes, the book reads as the same command; it refuses a row with a
/// civil moment or of a kind that the book alone has.
pub fn readings_law()
    ensures alike { RowsAreReadAlike }
    ensures taken { TakenRowsAreRead }
    ensures others { OtherRowsAreRefused }
{}

/// States that `outagebook total` counts of a text what a book has after the same rows: its
/// customer-seconds without supply, if a new book of the span's period accepts each row. It counts
/// each such text whose moments are in Unix seconds, whose commands are of its own kinds, and which
/// has at most 1,000,000 rows with its span.
pub fn counts_law()
    ensures counts { CountIsOfBook }
    ensures counted { BookIsCounted }
{}
