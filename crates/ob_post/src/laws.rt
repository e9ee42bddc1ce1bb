//! Laws of the amounts, for proofs that call them. These functions do nothing when they run.
ghost use Rattle.ob_post.specs.CauseLaws.{ChangedCause, EnteredCause, SameCause};
ghost use Rattle.ob_post.specs.MoveLaws.{DifferencesFit, HaveKeysOfMore, MovesAreInOrder, MovesAreOfChange, MovesHaveKeys, MovesLeadTo, NodeReposted, NodeStays, NoneReposted, RepostedDiffer};
ghost use Rattle.ob_post.specs.SectionLaws.{BySection, ByRuns, Changed, ChangedInRuns, Connected, ConnectedToRuns, Nobody, OneCustomer, RunsLieWithin, SameByCause, SectionByRuns};
ghost use Rattle.ob_post.specs.TotalLaws.{AddUp, AmountsAreSmall, TotalsAgree, TotalsAreSmall};

/// States that the customer-seconds under a key are those of the sections' outage intervals, each
/// counted under its cutter's cause.
pub fn section_laws()
    ensures within { RunsLieWithin }
    ensures section_by_runs { SectionByRuns }
    ensures by_section { BySection }
    ensures by_runs { ByRuns }
    ensures same_by_cause { SameByCause }
{}

/// States which causes outage intervals have after an entry is added or changed.
pub fn cause_laws()
    ensures entered { EnteredCause }
    ensures changed { ChangedCause }
    ensures same { SameCause }
{}

/// States what one customer adds to the amounts, and how a change of a customer changes them.
pub fn roll_laws()
    ensures nobody { Nobody }
    ensures one { OneCustomer }
    ensures connected { Connected }
    ensures connected_to_runs { ConnectedToRuns }
    ensures changed { Changed }
    ensures changed_in_runs { ChangedInRuns }
{}

/// States that the amounts under all keys of a dimension add up to all customer-seconds and are
/// below 2^63.
pub fn total_laws()
    ensures add_up { AddUp }
    ensures amounts { AmountsAreSmall }
    ensures totals { TotalsAreSmall }
    ensures agree { TotalsAgree }
{}

/// States how the amounts taken back and given lead to the list of changes, and how that list leads
/// to the new amounts.
pub fn move_laws()
    ensures none_reposted { NoneReposted }
    ensures node_stays { NodeStays }
    ensures node_reposted { NodeReposted }
    ensures reposted { RepostedDiffer }
    ensures more_days { HaveKeysOfMore }
    ensures fit { DifferencesFit }
    ensures keys { MovesHaveKeys }
    ensures order { MovesAreInOrder }
    ensures change { MovesAreOfChange }
    ensures lead_to { MovesLeadTo }
{}
