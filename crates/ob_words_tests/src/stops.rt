//! Tests of the numbers, names and details of refusals and faults.
use ob_net::{Fault, Refusal, Stop};
use std::alloc::AllocError;

// A refusal or a fault, its number, its name and its detail.
const STOPS: &'static [(Stop, u8, &'static str, Option<u64>)] = &[
    (Stop::Refused(Refusal::BadField(7)), 1, "BadField", Some(7)),
    (Stop::Refused(Refusal::UnknownName), 2, "UnknownName", None),
    (Stop::Refused(Refusal::NameTaken), 3, "NameTaken", None),
    (Stop::Refused(Refusal::OutOfPeriod), 5, "OutOfPeriod", None),
    (
        Stop::Refused(Refusal::UnknownEntry),
        6,
        "UnknownEntry",
        None,
    ),
    (
        Stop::Refused(Refusal::Stale(MOST)),
        7,
        "Stale",
        Some(4_294_967_295),
    ),
    (Stop::Refused(Refusal::Withdrawn), 8, "Withdrawn", None),
    (
        Stop::Refused(Refusal::UnknownCustomer),
        9,
        "UnknownCustomer",
        None,
    ),
    (Stop::Refused(Refusal::BadService), 10, "BadService", None),
    (
        Stop::Refused(Refusal::RefConflict(12)),
        11,
        "RefConflict",
        Some(12),
    ),
    (Stop::Refused(Refusal::Full(1024)), 12, "Full", Some(1024)),
    (
        Stop::Refused(Refusal::MarkedAlready),
        13,
        "MarkedAlready",
        None,
    ),
    (Stop::Refused(Refusal::NotMarked), 14, "NotMarked", None),
    (
        Stop::Refused(Refusal::UnknownCause),
        15,
        "UnknownCause",
        None,
    ),
    (Stop::Refused(Refusal::BadPeriod), 16, "BadPeriod", None),
    (Stop::Refused(Refusal::BadBook), 17, "BadBook", None),
    (Stop::Refused(Refusal::BadLife), 18, "BadLife", None),
    (
        Stop::Refused(Refusal::OldVersion(1)),
        19,
        "OldVersion",
        Some(1),
    ),
    (Stop::Fault(Fault::OutOfMemory), 20, "OutOfMemory", None),
    (Stop::Fault(Fault::Store), 21, "Store", None),
    (Stop::Fault(Fault::Reopen), 22, "Reopen", None),
    (Stop::Fault(Fault::Input), 23, "Input", None),
    (Stop::Fault(Fault::Output), 24, "Output", None),
];

const MOST: u32 = 4_294_967_295;

#[test]
fn stops(rt: HostRuntime) {
    for (stop, number, name, detail) in STOPS {
        assert!(rt; stop.number() == *number && stop.name() == *name);
        assert!(rt; stop.detail() == *detail);
        let (inner, inner_name, inner_detail) = match stop {
            Stop::Refused(refusal) => (refusal.number(), refusal.name(), refusal.detail()),
            Stop::Fault(fault) => (fault.number(), fault.name(), fault.detail()),
        };
        assert!(rt; inner == *number && inner_name == *name && inner_detail == *detail);
    }
    assert!(rt; Stop::from(AllocError) == Stop::Fault(Fault::OutOfMemory));
}
