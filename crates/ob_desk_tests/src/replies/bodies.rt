//! A test of the JSON body of a reply with the least amount. The other bodies are those of
//! `commands.rt`, `views.rt` and `imports.rt`.
use ob_base::Stop;
use ob_http_replies::accepted_text;
use ob_post::{Dim, Moved};

const LEAST: Moved = Moved {
    dim: Dim::Day,
    key: 0,
    delta: i64::MIN,
};

#[test]
fn accepted(rt: HostRuntime) -> Result<(), Stop> {
    let text = accepted_text(rt.alloc(), 26, &[LEAST, LEAST])?;
    assert!(rt;
        text.as_slice()
            == b"{\"moved\":[[\"day\",0,-9223372036854775808],[\"day\",0,-9223372036854775808]],\"no\":26}".as_slice()
    );
    Ok(())
}
