//! The line that the program prints for a refusal or a fault.
ghost use Rattle.std.specs.Prelude.{◌≡◌, IfOk, string_bytes};
ghost use Rattle.ob_cli.specs.Complaints.{complaint_line, fault_line, refused_line};

use ob_base::{Fault, Refusal, Stop};
use std::alloc::{AllocError, Global};

/// Returns the line for a refusal or a fault. That of a refusal is `refused <number> <name>`, then
/// the detail and ` row <n>`, if there are these. That of a fault is `fault <number> <name>`.
pub fn complaint_of(alloc: Global, stop: &Stop, row: Option<u32>) -> Result<String, AllocError>
    ensures { IfOk result (λ line. string_bytes line ≡ complaint_line stop.now row) }
{
    match stop {
        Stop::Refused(refusal) => refused_line_of(alloc, refusal, row),
        Stop::Fault(fault) => fault_line_of(alloc, fault),
    }
}

fn refused_line_of(alloc: Global, refusal: &Refusal, row: Option<u32>) -> Result<String, AllocError>
    ensures { IfOk result (λ line. string_bytes line ≡ refused_line refusal.now row) }
{
    let number = refusal.number();
    let name = refusal.name();
    match (refusal.detail(), row) {
        (Some(detail), Some(row)) => format!(in alloc;
            "refused {number} {name} {detail} row {row}"
        ),
        (Some(detail), None) => format!(in alloc; "refused {number} {name} {detail}"),
        (None, Some(row)) => format!(in alloc; "refused {number} {name} row {row}"),
        (None, None) => format!(in alloc; "refused {number} {name}"),
    }
}

fn fault_line_of(alloc: Global, fault: &Fault) -> Result<String, AllocError>
    ensures { IfOk result (λ line. string_bytes line ≡ fault_line fault.now) }
{
    let number = fault.number();
    let name = fault.name();
    format!(in alloc; "fault {number} {name}")
}
