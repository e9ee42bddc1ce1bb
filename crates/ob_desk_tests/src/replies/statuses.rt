//! Tests of the statuses of replies to refusals and imports; further ones are those of
//! `commands.rt`. The bytes of replies are those of whole streams.
use ob_base::Refusal;
use ob_http_replies::{Status, refusal_status, report_status};

#[test]
fn refusals_and_imports(rt: HostRuntime) {
    assert!(rt; refusal_status(&Refusal::NameTaken) == Status::Conflict);
    for refusal in [
        Refusal::Full(50_000),
        Refusal::BadLife,
        Refusal::OldVersion(1),
    ] {
        assert!(rt; refusal_status(&refusal) == Status::UnprocessableEntity);
    }
    assert!(rt; report_status(None) == Status::Ok);
    assert!(rt; report_status(Some((4, Refusal::NameTaken))) == Status::UnprocessableEntity);
}
