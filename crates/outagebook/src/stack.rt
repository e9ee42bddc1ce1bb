//! The stack that the jobs use, taken before any of them begins.
use std::alloc::{AllocError, Global};

/// The bytes of a page of the stack.
const PAGE: usize = 4_096;

/// The pages that are taken: 256 KiB, more than any job uses, however large its book is.
const PAGES: u16 = 64;

/// Takes the stack that the jobs use. Fails only if memory is refused.
///
/// Where the stack can't grow, the system ends the program, and no function is told. But a process
/// has one limit for its stack and its heap (`ulimit -v`). So this asks the heap for twice as much
/// first and gives it back, and then the stack can have it.
pub(crate) fn take_stack(alloc: Global) -> Result<(), AllocError> {
    let _ = Vec::<u8>::with_capacity(alloc, 128 * PAGE)?;
    let _ = fill_pages(PAGES, &[0; PAGE]);
    Ok(())
}

/// Fills so many pages of the stack, and one more. The value means nothing: without one, and without
/// the page above, no page would be filled.
#[inline(never)]
fn fill_pages(pages: u16, above: &[u8; PAGE]) -> u8 {
    let page = [above[usize::from(pages) % PAGE]; PAGE];
    if pages == 0 {
        page[0]
    } else {
        fill_pages(pages - 1, &page)
    }
}
