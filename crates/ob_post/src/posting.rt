//! The rows of amounts that a change takes back, and those that it gives.
ghost use Rattle.std.specs.Prelude.{◌≡◌};

use crate::differing::compare;
use crate::laws::move_laws;
use crate::parts::{bound_behind, of_section, part_from, place_from, rise};
use crate::run_amounts::served_delta;
use crate::run_causes::{cause_after, cause_before, causes_after, causes_before, place_recaused};
use crate::{Basis, Dim, MOST_DAYS, Moved, moves, post_runs};
use ob_base::Stop;
use ob_sweep::{Change, Run};
use ob_time::CivilDays;
use std::alloc::Global;

/// The amounts that a change takes back and gives, as rows.
#[derive(Drop)]
pub struct Posting {
    alloc: Global,
    taken: Vec<Moved>,
    given: Vec<Moved>,
}

impl Posting {
    ghost use Rattle.std.specs.Prelude.{◌≡◌, ◌<◌, ◌≤◌, ℕ, true, Some, IfOk, IfErr, IfSome, OnOk};
    ghost use Rattle.std.specs.List.{All, AllPairs};
    ghost use Rattle.ob_base.specs.Stop.{out_of_memory};
    ghost use Rattle.ob_time.specs.Calendar.{days_of, first_second_of, end_second_of, day_count};
    ghost use Rattle.ob_post.specs.Basis.{new_amount, new_part_amount, old_amount, old_part_amount, LieInPeriod, LiesInPeriod};
    ghost use Rattle.ob_post.specs.MoveLaws.{change_from};
    ghost use Rattle.ob_post.specs.Moved.{moves_by};
    ghost use Rattle.ob_post.specs.RunAmounts.{customer_seconds_in};
    ghost use Rattle.ob_post.specs.declared.Dim.{Dim as Dimension};
    ghost use Rattle.ob_post.specs.Balances.{together, Balances, IsOfSmall, Posts};
    ghost use Rattle.ob_post.specs.Causes.{BeginAtCutters, IsSoundChange};
    ghost use Rattle.ob_post.specs.Parts.{AreOfSameSeconds, rise_from};

    /// Makes an empty `Posting`: no amount is taken back or given yet.
    pub fn new(alloc: Global) -> Posting
        ensures { (days : ℕ) (amounts : Dimension → ℕ → ℕ) → Balances days result amounts amounts }
    {
        Posting {
            alloc,
            taken: Vec::new(alloc),
            given: Vec::new(alloc),
        }
    }

    /// Takes back the amounts of a section's outage intervals under the causes of a switching log.
    /// The error is a failed allocation; rows may have been added before it.
    pub fn take(&mut self, runs: &[Run], basis: &Basis<'_>) -> Result<(), Stop>
        requires causes { All (λ e. e.cause < 64) basis.now.sheet.now.entries }
        requires feeder { 1 ≤ basis.now.feeder }
        requires within { LieInPeriod basis.now runs.now }
        ensures taken { (old new : Dimension → ℕ → ℕ)
            → Balances (day_count basis.now.period.now) self.old old new
            → OnOk result (Balances (day_count basis.now.period.now) self.new
            (together old (old_amount basis.now runs.now)) new) }
        ensures err { IfErr result (λ stop. stop ≡ out_of_memory) }
    {
        let causes = causes_before(self.alloc, basis.sheet, runs)?;
        let (feeder, roll, period) = (basis.feeder, basis.roll, basis.period);
        post_runs(runs, &causes, feeder, roll, period, &mut self.taken)
    }

    /// Gives the amounts of a section's outage intervals under the causes of a switching log. The
    /// error is a failed allocation; rows may have been added before it.
    pub fn give(&mut self, runs: &[Run], basis: &Basis<'_>) -> Result<(), Stop>
        requires causes { All (λ e. e.cause < 64) basis.now.sheet.now.entries }
        requires feeder { 1 ≤ basis.now.feeder }
        requires within { LieInPeriod basis.now runs.now }
        ensures given { (old new : Dimension → ℕ → ℕ)
            → Balances (day_count basis.now.period.now) self.old old new
            → OnOk result (Balances (day_count basis.now.period.now) self.new old
            (together new (old_amount basis.now runs.now))) }
        ensures err { IfErr result (λ stop. stop ≡ out_of_memory) }
    {
        let causes = causes_before(self.alloc, basis.sheet, runs)?;
        let (feeder, roll, period) = (basis.feeder, basis.roll, basis.period);
        post_runs(runs, &causes, feeder, roll, period, &mut self.given)
    }

    // Gives the amounts of a section's outage intervals under the causes of a switching log after a
    // change. The error is a failed allocation; rows may have been added before it.
    fn give_changed(&mut self, runs: &[Run], basis: &Basis<'_>, change: &Change) -> Result<(), Stop>
        requires change { IsSoundChange change.now basis.now.sheet.now.entries }
        requires feeder { 1 ≤ basis.now.feeder }
        requires within { LieInPeriod basis.now runs.now }
        ensures given { (old new : Dimension → ℕ → ℕ)
            → Balances (day_count basis.now.period.now) self.old old new
            → OnOk result (Balances (day_count basis.now.period.now) self.new old
            (together new (new_amount basis.now change.now runs.now))) }
        ensures err { IfErr result (λ stop. stop ≡ out_of_memory) }
    {
        let changed = causes_after(self.alloc, basis.sheet, change, runs)?;
        let (feeder, roll, period) = (basis.feeder, basis.roll, basis.period);
        post_runs(runs, &changed, feeder, roll, period, &mut self.given)
    }

    /// Replaces the amounts of a section whose outage intervals a change of the switching log
    /// alters. Takes back those of the intervals that disappear, gives those of the new intervals,
    /// and counts an interval that stays under its new cause if the cause changes. The error is a
    /// failed allocation; rows may have been added before it.
    pub fn replace(
        &mut self,
        old: &[Run],
        new: &[Run],
        basis: &Basis<'_>,
        change: &Change,
    ) -> Result<(), Stop>
        requires change { IsSoundChange change.now basis.now.sheet.now.entries }
        requires feeder { 1 ≤ basis.now.feeder }
        requires old { LieInPeriod basis.now old.now }
        requires new { LieInPeriod basis.now new.now }
        requires rising { AllPairs (λ r s. r.until < s.since) old.now }
        requires cut { BeginAtCutters basis.now.sheet.now.entries old.now }
        ensures posted { Posts (day_count basis.now.period.now) self.old self.new result
            (old_amount basis.now old.now) (new_amount basis.now change.now new.now) }
        ensures err { IfErr result (λ stop. stop ≡ out_of_memory) }
    {
        let runs = compare(old, new);
        self.relabel(runs.front, basis, change)?;
        self.replace_between(runs.taken, runs.given, basis, change)?;
        self.relabel(runs.back, basis, change)
    }

    // Takes back the amounts of the outage intervals that disappear, and gives those of the new
    // ones. Where both come one behind another, the seconds that they have in common stay.
    fn replace_between(
        &mut self,
        taken: &[Run],
        given: &[Run],
        basis: &Basis<'_>,
        change: &Change,
    ) -> Result<(), Stop>
        requires change { IsSoundChange change.now basis.now.sheet.now.entries }
        requires feeder { 1 ≤ basis.now.feeder }
        requires taken { LieInPeriod basis.now taken.now }
        requires given { LieInPeriod basis.now given.now }
        ensures posted { Posts (day_count basis.now.period.now) self.old self.new result
            (old_amount basis.now taken.now) (new_amount basis.now change.now given.now) }
        ensures err { IfErr result (λ stop. stop ≡ out_of_memory) }
    {
        if rise(taken) && rise(given) {
            return self.replace_by_parts(taken, given, basis, change);
        }
        self.take(taken, basis)?;
        self.give_changed(given, basis, change)
    }

    // The same for outage intervals that come one behind another, part by part.
    fn replace_by_parts(
        &mut self,
        taken: &[Run],
        given: &[Run],
        basis: &Basis<'_>,
        change: &Change,
    ) -> Result<(), Stop>
        requires change { IsSoundChange change.now basis.now.sheet.now.entries }
        requires feeder { 1 ≤ basis.now.feeder }
        requires taken { LieInPeriod basis.now taken.now }
        requires given { LieInPeriod basis.now given.now }
        requires taken_rise { rise_from 0 taken.now ≡ true }
        requires given_rise { rise_from 0 given.now ≡ true }
        ensures posted { Posts (day_count basis.now.period.now) self.old self.new result
            (old_amount basis.now taken.now) (new_amount basis.now change.now given.now) }
        ensures err { IfErr result (λ stop. stop ≡ out_of_memory) }
    {
        let end = basis.period.end_second();
        let mut at = basis.period.first_second();
        let mut old = 0;
        let mut new = 0;
        while at < end {
            let taken_until = bound_behind(taken, old, at, end);
            let given_until = bound_behind(given, new, at, end);
            let until = taken_until.min(given_until);
            let was = part_from(taken, old, at, until);
            let now = part_from(given, new, at, until);
            self.replace_part(was, now, basis, change)?;
            old = place_from(taken, old, until);
            new = place_from(given, new, until);
            at = until;
        }
        Ok(())
    }

    // Takes back the amounts of a part of an outage interval, and gives those of another one of the
    // same seconds.
    fn replace_part(
        &mut self,
        was: Option<Run>,
        now: Option<Run>,
        basis: &Basis<'_>,
        change: &Change,
    ) -> Result<(), Stop>
        requires change { IsSoundChange change.now basis.now.sheet.now.entries }
        requires feeder { 1 ≤ basis.now.feeder }
        requires was { IfSome was (LiesInPeriod basis.now) }
        requires now { IfSome now (LiesInPeriod basis.now) }
        requires seconds { AreOfSameSeconds was now }
        ensures posted { Posts (day_count basis.now.period.now) self.old self.new result
            (old_part_amount basis.now was) (new_part_amount basis.now change.now now) }
        ensures err { IfErr result (λ stop. stop ≡ out_of_memory) }
    {
        match was {
            Some(run) => self.replace_run(run, now, basis, change),
            None => self.give_part(now, basis, change),
        }
    }

    // Takes back the amounts of an outage interval, and gives those of another one of the same
    // seconds, if there is one. Of the same section, only the cause may have to be moved.
    fn replace_run(
        &mut self,
        run: Run,
        part: Option<Run>,
        basis: &Basis<'_>,
        change: &Change,
    ) -> Result<(), Stop>
        requires change { IsSoundChange change.now basis.now.sheet.now.entries }
        requires feeder { 1 ≤ basis.now.feeder }
        requires begins { first_second_of basis.now.period.now ≤ run.since }
        requires some { run.since < run.until }
        requires ends { run.until ≤ end_second_of basis.now.period.now }
        requires part { IfSome part (LiesInPeriod basis.now) }
        requires seconds { AreOfSameSeconds (Some run) part }
        ensures posted { Posts (day_count basis.now.period.now) self.old self.new result
            (old_part_amount basis.now (Some run)) (new_part_amount basis.now change.now part) }
        ensures err { IfErr result (λ stop. stop ≡ out_of_memory) }
    {
        if let Some(other) = of_section(part, run.section) {
            let before = cause_before(basis.sheet, &run);
            let after = cause_after(basis.sheet, change, &other);
            return self.relabel_run(&run, before, after, basis);
        }
        self.take(&[run], basis)?;
        self.give_part(part, basis, change)
    }

    // Gives the amounts of a part of an outage interval, if there is one, under the causes after a
    // change.
    fn give_part(
        &mut self,
        part: Option<Run>,
        basis: &Basis<'_>,
        change: &Change,
    ) -> Result<(), Stop>
        requires change { IsSoundChange change.now basis.now.sheet.now.entries }
        requires feeder { 1 ≤ basis.now.feeder }
        requires part { IfSome part (LiesInPeriod basis.now) }
        ensures given { (old new : Dimension → ℕ → ℕ)
            → Balances (day_count basis.now.period.now) self.old old new
            → OnOk result (Balances (day_count basis.now.period.now) self.new old
            (together new (new_part_amount basis.now change.now part))) }
        ensures err { IfErr result (λ stop. stop ≡ out_of_memory) }
    {
        match part {
            Some(run) => self.give_changed(&[run], basis, change),
            None => Ok(()),
        }
    }

    /// Moves the amounts of the one outage interval of a section whose cause changes with the
    /// switching log, if there is one. The error is a failed allocation; rows may have been added
    /// before it.
    pub fn relabel(&mut self, runs: &[Run], basis: &Basis<'_>, change: &Change) -> Result<(), Stop>
        requires change { IsSoundChange change.now basis.now.sheet.now.entries }
        requires feeder { 1 ≤ basis.now.feeder }
        requires within { LieInPeriod basis.now runs.now }
        requires rising { AllPairs (λ r s. r.until < s.since) runs.now }
        requires cut { BeginAtCutters basis.now.sheet.now.entries runs.now }
        ensures posted { Posts (day_count basis.now.period.now) self.old self.new result
            (old_amount basis.now runs.now) (new_amount basis.now change.now runs.now) }
        ensures err { IfErr result (λ stop. stop ≡ out_of_memory) }
    {
        let Some(place) = place_recaused(runs, change) else {
            return Ok(());
        };
        let run = &runs[place];
        let before = cause_before(basis.sheet, run);
        let after = cause_after(basis.sheet, change, run);
        self.relabel_run(run, before, after, basis)
    }

    // Moves the amount of an outage interval to its new cause, if the cause changes. The amounts by
    // feeder and by day stay.
    fn relabel_run(
        &mut self,
        run: &Run,
        before: u8,
        after: u8,
        basis: &Basis<'_>,
    ) -> Result<(), Stop>
        requires before { before < 64 }
        requires after { after < 64 }
        requires begins { first_second_of basis.now.period.now ≤ run.now.since }
        requires some { run.now.since < run.now.until }
        requires ends { run.now.until ≤ end_second_of basis.now.period.now }
        ensures posted { (feeder : ℕ)
            → Posts (day_count basis.now.period.now) self.old self.new result
            (customer_seconds_in basis.now.roll.now.customers run.now before feeder
            (days_of basis.now.period.now))
            (customer_seconds_in basis.now.roll.now.customers run.now after feeder
            (days_of basis.now.period.now)) }
        ensures err { IfErr result (λ stop. stop ≡ out_of_memory) }
    {
        if before == after {
            return Ok(());
        }
        prove!(basis.period.first_second() <= run.since && run.until <= basis.period.end_second());
        let delta = served_delta(basis.roll, run.section, run.since, run.until);
        self.taken.push(Moved {
            dim: Dim::Cause,
            key: u16::from(before),
            delta,
        })?;
        self.given.push(Moved {
            dim: Dim::Cause,
            key: u16::from(after),
            delta,
        })?;
        Ok(())
    }

    /// The amounts given less the amounts taken back, by key, in a period. The error is a failed
    /// allocation.
    pub fn moves(&self, period: &CivilDays) -> Result<Vec<Moved>, Stop>
        requires small { IsOfSmall (day_count period.now) self.now }
        ensures moves { (old new : Dimension → ℕ → ℕ)
            → Balances (day_count period.now) self.now old new
            → IfOk result (λ moved. moved.items ≡ moves_by (change_from old new)
            (day_count period.now)) }
        ensures err { IfErr result (λ stop. stop ≡ out_of_memory) }
    {
        move_laws();
        prove!(period.days() <= MOST_DAYS);
        moves(self.alloc, &self.taken, &self.given)
    }
}
