//! Shows the progress of long work on a terminal.
use ob_jobs::{Progress, Work};
use std::io::IsTerminal;
use std::time::Instant;

// The shortest time between two updates of the line, in milliseconds.
const PAUSE: u128 = 200;
// The time left is estimated from the steps of at least this many milliseconds, and at most twice
// as many.
const LATELY: u128 = 5_000;

// A moment, and the number of steps done by then.
#[derive(Clone, Copy)]
struct Mark {
    at: Instant,
    step: u32,
}

// When the line was last written, and two earlier moments, at least `LATELY` milliseconds apart.
#[derive(Clone, Copy)]
struct Times {
    written: Instant,
    older: Mark,
    newer: Mark,
}

/// Shows on standard error what is being done, if that is a terminal. It shows that a book is being
/// opened or its tables compared, or how many commands were replayed or rows applied. With these
/// counts it shows about how many there are and about how long the rest will take. It is a single
/// line, rewritten at most five times a second while steps are counted, and cleared at the end.
/// Shows nothing if standard error is no terminal.
#[derive(Drop)]
pub(crate) struct Telling<'r> {
    rt: &'r HostRuntime,
    // None if nothing is shown.
    times: Option<Times>,
    // The name of a step.
    step: &'static str,
    // About how many steps there are.
    steps: u64,
    is_written: bool,
}

impl Telling<'_> {
    /// Creates it with nothing shown yet.
    pub(crate) fn new(rt: &HostRuntime) -> Telling<'_> {
        Telling {
            rt,
            times: None,
            step: "",
            steps: 0,
            is_written: false,
        }
    }

    // Writes the line with this text.
    fn write(&mut self, text: &str) {
        let _ = eprint!(self.rt; "\r{text}\x1b[K");
        self.is_written = true;
    }
}

impl Progress for Telling<'_> {
    fn begin(&mut self, work: Work, steps: u64) {
        self.steps = steps;
        self.times = None;
        if !self.rt.stderr().is_terminal() {
            return;
        }
        match work {
            Work::Opening => self.write("opening the book"),
            Work::Tables => self.write("comparing the tables"),
            Work::Commands => self.step = "command",
            Work::Rows => self.step = "row",
        }
        self.times = match Instant::now(self.rt) {
            Ok(now) => Some(first_times(now)),
            Err(_) => None,
        };
    }

    fn step(&mut self, number: u32) {
        let Some(times) = self.times else {
            return;
        };
        let Ok(now) = Instant::now(self.rt) else {
            return;
        };
        if now.duration_since(times.written).as_millis() < PAUSE {
            return;
        }
        let (step, steps) = (self.step, self.steps.max(u64::from(number)));
        let left = seconds_left(&times.older, now, number, steps);
        let _ = eprint!(self.rt; "\r{step} {number} of {steps}, about {left} s left\x1b[K");
        self.times = Some(moved_on(times, now, number));
        self.is_written = true;
    }

    fn end(&mut self) {
        if self.is_written {
            let _ = eprint!(self.rt; "\r\x1b[K");
            self.is_written = false;
        }
        self.times = None;
    }
}

// The times of work that begins now.
fn first_times(now: Instant) -> Times {
    let mark = Mark { at: now, step: 0 };
    Times {
        written: now,
        older: mark,
        newer: mark,
    }
}

// The times after the line was written now, at this step.
fn moved_on(times: Times, now: Instant, step: u32) -> Times {
    if now.duration_since(times.newer.at).as_millis() < LATELY {
        return Times {
            written: now,
            ..times
        };
    }
    Times {
        written: now,
        older: times.newer,
        newer: Mark { at: now, step },
    }
}

/// Returns how many seconds the remaining steps will take at the speed since an earlier moment.
fn seconds_left(since: &Mark, now: Instant, step: u32, steps: u64) -> u128 {
    let millis = now.duration_since(since.at).as_millis();
    let done = u128::from(step.saturating_sub(since.step));
    let left = u128::from(steps.saturating_sub(u64::from(step)));
    match millis
        .saturating_mul(left)
        .checked_div(done.saturating_mul(1_000))
    {
        Some(seconds) => seconds,
        None => 0,
    }
}
