//! Examples on a timeline: the outage intervals that are built, and the effect of a change of the
//! switching log or the network.
ghost use Rattle.std.specs.Prelude.{◌≡◌, ◌<◌, ◌≤◌, IfOk, OnOk, length};
ghost use Rattle.std.specs.List.{All};
ghost use Rattle.ob_sheet.specs.Sheet.{NameDevices};
ghost use Rattle.ob_sweep.specs.Deltas.{Fits};
ghost use Rattle.ob_sweep.specs.Timeline.{AreRuns};
ghost use Rattle.ob_time.specs.Calendar.{first_second_of, end_second_of};

use crate::ask::{change_of, obey};
use crate::feeders::{NODES, feeders};
use crate::sheet::{period_of, sheet_of};
use ob_command::{Command, read_body};
use ob_net::{Net, read_number};
use ob_sheet::Sheet;
use ob_sweep::{Delta, Run, Scratch, Timeline, Windowed};
use ob_time::{CivilDays, Period};
use std::alloc::Global;
use std::process::Abort;
use std::test::Fail;

// The first date and the number of days of a period, the lives of devices, and the commands of the
// switching log, one a line.
#[derive(Drop)]
struct Given<'t> {
    first: &'t str,
    days: u16,
    lives: String,
    log: String,
}

impl<'t> Given<'t> {
    // That of a line: the first date and the number of days, ` | `, the lives, ` | `, the log.
    fn of(alloc: Global, line: &'t str) -> Result<Given<'t>, Fail> {
        let (period, rest) = line.split_once(" | ").ok_or("lives")?;
        let (lives, log) = rest.split_once(" | ").ok_or("a log")?;
        let (first, days) = period.split_once(" ").ok_or("a number of days")?;
        Ok(Given {
            first,
            days: u16::try_from(read_number(days.as_bytes(), 3, 1, 366).ok_or("a number")?)?,
            lives: lines_of(alloc, lives)?,
            log: lines_of(alloc, log)?,
        })
    }
}

// The commands of a line, with `; ` between them, one a line; `-` for none.
fn lines_of(alloc: Global, commands: &str) -> Result<String, Fail> {
    let commands = if commands == "-" { "" } else { commands };
    Ok(commands.replace(alloc, "; ", "\n")?)
}

// The name of a node in a list of all names.
fn name_at(names: &[&'static str], node: u16) -> Result<&'static str, Fail> {
    Ok(names.get(usize::from(node)).copied().ok_or("a node")?)
}

// Adds the texts of outage intervals: the section, the first second, the second after the last, and
// the number of the cutter (the entry that began it) or `-`.
fn push_runs(alloc: Global, text: &mut String, runs: &[Run]) -> Result<(), Fail> {
    for run in runs {
        let name = name_at(&NODES, run.section)?;
        let (since, until) = (run.since, run.until);
        let part = match run.cutter {
            Some(cutter) => format!(in alloc; " {name} {since} {until} {cutter};")?,
            None => format!(in alloc; " {name} {since} {until} -;")?,
        };
        text.push_str(part.as_str())?;
    }
    Ok(())
}

// The outage intervals of some of the network's nodes, one node after another.
fn texts_of<T: Timeline>(alloc: Global, timeline: &T, nodes: &[u16]) -> Result<String, Fail>
    requires { 7 ≤ length (T.content timeline.now) }
{
    let mut text = String::new(alloc);
    for node in nodes {
        if *node < 7 {
            push_runs(alloc, &mut text, timeline.runs_of(*node))?;
        }
    }
    Ok(text)
}

// The new outage intervals of the touched sections, one section after another.
fn new_runs(alloc: Global, delta: &Delta) -> Result<String, Fail> {
    let mut text = String::new(alloc);
    for section in delta.touched() {
        push_runs(alloc, &mut text, delta.runs(*section))?;
    }
    Ok(text)
}

// The names of nodes, each after a space.
fn names_of(alloc: Global, nodes: &[u16]) -> Result<String, Fail> {
    let mut text = String::new(alloc);
    for node in nodes {
        text.push_str(" ")?;
        text.push_str(name_at(&NODES, *node)?)?;
    }
    Ok(text)
}

// The sections S1 to S5.
const SECTIONS: &'static [u16] = &[2, 3, 4, 5, 6];

// The network, the days and the switching log.
fn days_of(alloc: Global, given: &Given<'_>) -> Result<(Net, Period, Sheet), Fail>
    ensures devices { IfOk result (λ d. NameDevices (length d.0.network.devices) d.2.entries) }
    ensures all { IfOk result (λ d. All (λ e. (first_second_of d.1 ≤ e.second)
        × (e.second < end_second_of d.1)) d.2.entries) }
{
    let net = feeders(alloc, given.lives.as_str())?;
    let period = period_of(alloc, given.first.as_bytes(), given.days)?;
    let sheet = sheet_of(alloc, &net, &period, given.log.as_str())?;
    Ok((net, period, sheet))
}

// The searches that building takes, and the outage intervals that are built.
fn runs_built<T: Timeline>(
    alloc: Global,
    net: &mut Net,
    sheet: &Sheet,
    period: &CivilDays,
) -> Result<String, Fail>
    requires devices { NameDevices (length net.old.network.devices) sheet.now.entries }
    requires all { All (λ e. (first_second_of period.now ≤ e.second)
        × (e.second < end_second_of period.now)) sheet.now.entries }
{
    let timeline = T::build(alloc, net, sheet, period)?;
    let runs = texts_of(alloc, &timeline, SECTIONS)?;
    let searches = net.searches();
    Ok(format!(in alloc; "{searches}:{runs}")?)
}

// Checks the searches and the outage intervals that building takes and gives.
fn build<T: Timeline>(
    rt: &impl Abort,
    alloc: Global,
    given: &Given<'_>,
    title: &str,
    wanted: &str,
) -> Result<(), Fail> {
    let (mut net, period, sheet) = days_of(alloc, given)?;
    let found = runs_built::<T>(alloc, &mut net, &sheet, &period)?;
    assert!(rt;
        net.nodes() == 6 && found.as_str() == wanted,
        "{title}: {found}"
    );
    Ok(())
}

// Adopts a change. Checks that the touched sections then have the outage intervals that were
// planned for them.
fn adopt<T: Timeline>(
    rt: &impl Abort,
    alloc: Global,
    timeline: &mut T,
    delta: Delta,
) -> Result<(), Fail>
    requires count { 7 ≤ length (T.content timeline.old) }
    requires fits { Fits (T.content timeline.old) delta }
    ensures count { length (T.content timeline.new) ≡ length (T.content timeline.old) }
{
    let sections = Vec::from_slice(alloc, delta.touched())?;
    let planned = new_runs(alloc, &delta)?;
    timeline.adopt(delta);
    let adopted = texts_of(alloc, timeline, &sections)?;
    assert!(rt; adopted == planned, "{adopted}");
    Ok(())
}

// Answers the outage intervals built before a change that is asked for, the planned changes of
// them, and the searches that this took. A change of the network is already made, one of the
// switching log isn't yet.
fn planned<T: Timeline>(
    alloc: Global,
    net: &mut Net,
    sheet: &Sheet,
    period: &CivilDays,
    command: &Command,
) -> Result<(T, Delta, u128), Fail>
    requires devices { NameDevices (length net.old.network.devices) sheet.now.entries }
    requires all { All (λ e. (first_second_of period.now ≤ e.second)
        × (e.second < end_second_of period.now)) sheet.now.entries }
    ensures count { IfOk result (λ p. length (T.content p.0) ≡ 1024) }
    ensures fits { IfOk result (λ p. Fits (T.content p.0) p.1) }
    ensures devices { OnOk result (NameDevices (length net.new.network.devices) sheet.now.entries) }
{
    let timeline = T::build(alloc, net, sheet, period)?;
    let (delta, searches) = plan(net, sheet, period, &timeline, command)?;
    Ok((timeline, delta, searches))
}

// The planned changes and their searches, on a timeline that was built before the change.
fn plan<T: Timeline>(
    net: &mut Net,
    sheet: &Sheet,
    period: &CivilDays,
    timeline: &T,
    command: &Command,
) -> Result<(Delta, u128), Fail>
    requires devices { NameDevices (length net.old.network.devices) sheet.now.entries }
    requires all { All (λ e. (first_second_of period.now ≤ e.second)
        × (e.second < end_second_of period.now)) sheet.now.entries }
    requires runs { AreRuns net.old.network sheet.now.entries (first_second_of period.now)
        (end_second_of period.now) (T.content timeline.now) }
    ensures fits { IfOk result (λ p. Fits (T.content timeline.now) p.0) }
    ensures devices { OnOk result (NameDevices (length net.new.network.devices) sheet.now.entries) }
{
    let change = change_of(net, sheet, period, command)?;
    let before = net.searches();
    let delta = timeline.plan(net, sheet, period, &change)?;
    let searches = net.searches().checked_sub(before).ok_or("a count")?;
    Ok((delta, searches))
}

// Answers whether the outage intervals of each section equal those built from scratch.
fn is_as_built<T: Timeline>(
    alloc: Global,
    net: &mut Net,
    sheet: &Sheet,
    period: &CivilDays,
    timeline: &T,
) -> Result<bool, Fail>
    requires devices { NameDevices (length net.old.network.devices) sheet.now.entries }
    requires all { All (λ e. (first_second_of period.now ≤ e.second)
        × (e.second < end_second_of period.now)) sheet.now.entries }
    requires count { length (T.content timeline.now) ≡ 1024 }
{
    let anew = T::build(alloc, net, sheet, period)?;
    for node in 0..net.nodes() {
        if net.feeder_of(node).is_some() && timeline.runs_of(node) != anew.runs_of(node) {
            return Ok(false);
        }
    }
    Ok(true)
}

// Plans and adopts the change that a command asks for, and checks that all outage intervals then
// equal those built from scratch. Answers the searches, the touched sections and the outage
// intervals of the sections S1 to S5.
fn take_over<T: Timeline>(
    rt: &impl Abort,
    alloc: Global,
    net: &mut Net,
    sheet: &mut Sheet,
    period: &CivilDays,
    command: &Command,
) -> Result<String, Fail>
    requires devices { NameDevices (length net.old.network.devices) sheet.old.entries }
    requires all { All (λ e. (first_second_of period.now ≤ e.second)
        × (e.second < end_second_of period.now)) sheet.old.entries }
{
    let (mut timeline, delta, searches) = planned::<T>(alloc, net, sheet, period, command)?;
    let touched = names_of(alloc, delta.touched())?;
    adopt(rt, alloc, &mut timeline, delta)?;
    obey(sheet, net, period, command)?;
    let runs = texts_of(alloc, &timeline, SECTIONS)?;
    assert!(rt; is_as_built(alloc, net, sheet, period, &timeline)?);
    Ok(format!(in alloc; "{searches}:{touched}:{runs}")?)
}

// Checks the effect of a command: its searches, the touched sections and the outage intervals.
fn alter<T: Timeline>(
    rt: &impl Abort,
    alloc: Global,
    given: &Given<'_>,
    case: (&str, &str),
    wanted: (&str, &str),
) -> Result<(), Fail> {
    let (title, ask) = case;
    let command = read_body(ask.as_bytes()).ok_or("a command")?;
    let (mut net, period, mut sheet) = days_of(alloc, given)?;
    let found = take_over::<T>(rt, alloc, &mut net, &mut sheet, &period, &command)?;
    assert!(rt; found.split_once(":") == Some(wanted), "{title}: {found}");
    Ok(())
}

fn tell_one(rt: &impl Abort, alloc: Global, given: &Given<'_>, line: &str) -> Result<(), Fail> {
    let (head, effect) = line.split_once(" => ").ok_or("an effect")?;
    let Some(case) = head.split_once(": ") else {
        build::<Scratch>(rt, alloc, given, head, effect)?;
        return build::<Windowed>(rt, alloc, given, head, effect);
    };
    let (searches, wanted) = effect.split_once(":").ok_or("sections")?;
    let (scratch, windowed) = searches.split_once(" ").ok_or("two numbers")?;
    alter::<Scratch>(rt, alloc, given, case, (scratch, wanted))?;
    alter::<Windowed>(rt, alloc, given, case, (windowed, wanted))
}

/// Checks cases on a timeline that finds outage intervals from scratch (`Scratch`), and on one that
/// finds them in windows (`Windowed`). The window of a change is the seconds in which the change
/// can alter the supply.
///
/// A line without ` => ` gives a period, lives and a switching log, as
/// `1970-01-01 1 | life T1 0 6000 | switch B1 open 3600 3 K1; switch T1 close 4200 3 K1`, for the
/// cases up to the next such line. A case is a title, ` => `, the searches that building takes and
/// the outage intervals of the sections S1 to S5: name, first second, the second after the last,
/// and the number of its cutter (the entry that began it) or `-`. Or it is a title, `: `, one
/// more command, ` => `, the searches on either timeline, the touched sections, and the outage
/// intervals afterwards.
pub fn tell(rt: &impl Abort, alloc: Global, text: &str) -> Result<(), Fail> {
    let mut given = Given::of(alloc, "1970-01-01 1 | - | -")?;
    for line in text.lines() {
        if line.contains(" => ") {
            tell_one(rt, alloc, &given, line)?;
        } else {
            given = Given::of(alloc, line)?;
        }
    }
    Ok(())
}
