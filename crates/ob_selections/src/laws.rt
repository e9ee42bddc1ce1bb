//! Laws of selections. Their functions do nothing at run time.
ghost use Rattle.ob_selections.specs.SelectionLaws.{WholeIsBooksOwn};
ghost use Rattle.ob_selections.specs.SumLaws.{CausesAddUp, DaysAddUp, FeedersAddUp, MonthsAddUp, SectionsAddUp};

/// States what the figures of selections add up to. Without a feeder, a section or a cause, over
/// all days and with 300 seconds as the longest momentary interruption, they are the book's own:
/// the counts, the customer-seconds in service and the seconds of the period from which the annual
/// table has its indices.
pub fn selections_law()
    ensures whole { WholeIsBooksOwn }
{}

/// States which figures add up to those of the whole book, over all interruptions and over those
/// that don't begin on a major event day, with any longest momentary interruption. The sustained
/// interruptions of customers, their seconds and the momentary interruptions do so over all
/// feeders, all sections, all months, all days and all causes; over feeders and sections also the
/// customers with interruptions, with `n` or more of them, and the customer-seconds in service;
/// over months these customer-seconds and the seconds of the days. In all other cases these two are
/// those of the whole book. For causes, each that an interruption may have must have a name.
pub fn sums_law()
    ensures feeders { FeedersAddUp }
    ensures sections { SectionsAddUp }
    ensures months { MonthsAddUp }
    ensures days { DaysAddUp }
    ensures causes { CausesAddUp }
{}
