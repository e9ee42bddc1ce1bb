//! Tests of the line that reports a stop, and of the exit status of the program.
use crate::texts::FIRST_RUN;
use ob_cli::{Unfinished, WrongWords, complaint_of, status_of_run};
use ob_harness::{FAILING, Source};
use ob_net::{Fault, Refusal, Stop, Watched};
use ob_total::run_total;
use std::alloc::Global;
use std::io::Read;
use std::test::Fail;

// A stop, the row at which it came, and its line.
const LINES: &'static [(Stop, Option<u32>, &'static str)] = &[
    (
        Stop::Refused(Refusal::BadField(4)),
        Some(1),
        "refused 1 BadField 4 row 1",
    ),
    (
        Stop::Refused(Refusal::OutOfPeriod),
        Some(24),
        "refused 5 OutOfPeriod row 24",
    ),
    (
        Stop::Refused(Refusal::Full(1_000_000)),
        None,
        "refused 12 Full 1000000",
    ),
    (
        Stop::Refused(Refusal::OldVersion(1)),
        None,
        "refused 19 OldVersion 1",
    ),
    (
        Stop::Refused(Refusal::OutOfPeriod),
        None,
        "refused 5 OutOfPeriod",
    ),
    (Stop::Fault(Fault::Input), None, "fault 23 Input"),
];

#[test]
fn a_complaint_has_number_name_detail_and_row(rt: HostRuntime) -> Result<(), Fail> {
    for (stop, row, wanted) in LINES {
        let line = complaint_of(rt.alloc(), stop, *row)?;
        assert!(rt; line.as_str() == *wanted);
    }
    Ok(())
}

// The exit status after computing the total of a reader's text.
fn status_after<R: Read>(alloc: Global, reader: &mut Watched<R>) -> u8 {
    let mut writer = Watched::new(Vec::new(alloc));
    match run_total(alloc, reader, &mut writer) {
        Ok(_) => status_of_run(&Ok(())),
        Err(stop) => status_of_run(&Err(Unfinished::Stopped(stop.stop, stop.row))),
    }
}

#[test]
fn statuses_of_runs(rt: HostRuntime) {
    let alloc = rt.alloc();
    assert!(rt; status_after(alloc, &mut Watched::new(FIRST_RUN.as_bytes())) == 0);
    assert!(rt; status_after(alloc, &mut Watched::new(b"kind\n".as_slice())) == 2);
    let mut failing = Watched::new(Source::new(FIRST_RUN.as_bytes(), FAILING));
    assert!(rt; status_after(alloc, &mut failing) == 1);
}

// Answers whether wrong arguments have this status, both alone and as the end of the program.
fn ends_with(wrong: WrongWords, wanted: u8) -> bool {
    wrong.status() == wanted && status_of_run(&Err(Unfinished::Words(wrong))) == wanted
}

#[test]
fn statuses_of_stops_and_words(rt: HostRuntime) {
    let refused = Unfinished::Stopped(Stop::Refused(Refusal::NameTaken), None);
    assert!(rt; status_of_run(&Err(refused)) == 2);
    let failed = Unfinished::Stopped(Stop::Fault(Fault::Output), None);
    assert!(rt; status_of_run(&Err(failed)) == 1);
    assert!(rt; status_of_run(&Err(Unfinished::Differs)) == 2);
    assert!(rt; ends_with(WrongWords::Help(String::new(rt.alloc())), 0));
    assert!(rt; ends_with(WrongWords::Version(String::new(rt.alloc())), 0));
    assert!(rt; ends_with(WrongWords::Wrong(String::new(rt.alloc())), 64));
    assert!(rt; ends_with(WrongWords::Fault(Fault::OutOfMemory), 1));
}
