//! Tests of the major event day flags.
use ob_index::Marks;
use ob_net::{Crew, Refusal};
use std::process::Abort;
use std::test::Fail;

/// The engineer named by this text.
pub fn engineer(rt: &impl Abort, text: &[u8]) -> Crew {
    Crew::read(text).expect(rt, "an engineer")
}

#[test]
fn days_are_marked_and_unmarked(rt: HostRuntime) -> Result<(), Fail> {
    let mut marks = Marks::new(rt.alloc(), 3)?;
    let (first, second) = (engineer(&rt, b"E-1"), engineer(&rt, b"E-2"));
    assert!(rt; !marks.is_marked(0) && !marks.is_marked(1) && !marks.is_marked(2));
    assert!(rt; marks.mark(1, first) == Ok(()));
    assert!(rt; marks.mark(1, second) == Err(Refusal::MarkedAlready));
    assert!(rt; marks.engineer(1) == Some(first) && marks.engineer(2).is_none());
    assert!(rt; marks.unmark(2) == Err(Refusal::NotMarked));
    marks.put(2, Some(second));
    assert!(rt; marks.engineer(2) == Some(second));
    assert!(rt; marks.unmark(1) == Ok(()));
    assert!(rt; marks.unmark(1) == Err(Refusal::NotMarked));
    assert!(rt; !marks.is_marked(1) && marks.is_marked(2));
    Ok(())
}
