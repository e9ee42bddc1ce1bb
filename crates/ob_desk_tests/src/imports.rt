//! Tests of imports by POST.
use crate::script::{Ask, Reply, Row, are_answered};
use ob_harness::texts::{ONE_NAME_TWICE, TWO_NAMES};
use std::alloc::AllocError;

const UNPROCESSABLE: &'static str = "422 Unprocessable Entity";

const NAME_TAKEN: &'static str =
    "{\"added\":3,\"again\":0,\"stopped\":{\"name\":\"NameTaken\",\"refused\":3,\"row\":4}}";

// A row is refused, and then changed.
const CHANGED: &[Row] = &[
    (
        Ask::Post("/import", ONE_NAME_TWICE),
        Ok(1),
        Reply::Json(UNPROCESSABLE, NAME_TAKEN),
    ),
    (
        Ask::Post("/import", TWO_NAMES),
        Ok(1),
        Reply::Json("200 OK", "{\"added\":1,\"again\":3,\"stopped\":null}"),
    ),
    (
        Ask::Post("/import", TWO_NAMES),
        Ok(1),
        Reply::Json("200 OK", "{\"added\":0,\"again\":4,\"stopped\":null}"),
    ),
];

#[test]
fn a_row_stops_and_is_changed(rt: HostRuntime) -> Result<(), AllocError> {
    are_answered(&rt, rt.alloc(), CHANGED, 4)
}
