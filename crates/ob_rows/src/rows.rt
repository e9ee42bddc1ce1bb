//! The interruption rows of a book, handed out one after another.
ghost use Rattle.std.specs.Prelude.{◌≡◌, ◌≤◌, ◌<◌, ◌*◌, ◌^◌, IfOk, length};
ghost use Rattle.std.specs.List.{All, flat_map};
ghost use Rattle.ob_cust.specs.Blocks.{service_of};
ghost use Rattle.ob_rows.specs.Outages.{IsOutage, part_of_run, rows_of_block, rows_of_run};
ghost use Rattle.ob_rows.specs.Rows.{interruption_rows, rows_of_node};
ghost use Rattle.ob_rows.specs.Services.{customers_with};
ghost use Rattle.ob_rows.specs.Sinks.{HandsRows};

use crate::row::row_of;
use crate::sink::RowSink;
use ob_base::{Fault, Interval};
use ob_book::Book;
use ob_cust::SectionBlock;
use ob_sweep::{Run, Timeline};

/// Passes the interruption rows of a book to a sink: by section, then by service, then by time.
/// Returns how many there are. Allocates nothing; the only error is the sink's.
pub fn each_row<T: Timeline, V: RowSink>(book: &Book<T>, sink: &mut V) -> Result<u64, Fault>
    ensures hands { HandsRows V.takes sink.old sink.new (interruption_rows book.now.state) result }
{
    let mut rows = 0;
    for node in 0..book.net().nodes() {
        rows += hand_node(book, node, sink)?;
    }
    Ok(rows)
}

// Passes the rows of a node to a sink; none if the node is no section.
fn hand_node<T: Timeline, V: RowSink>(book: &Book<T>, node: u16, sink: &mut V) -> Result<u64, Fault>
    requires { node < length book.now.state.network.nodes }
    ensures hands { HandsRows V.takes sink.old sink.new (rows_of_node book.now.state node) result }
    ensures few { IfOk result (λ rows. rows ≤ 2 ^ 42) }
{
    // This call's contract states how short the period is.
    let _ = book.period().length();
    let Some(feeder) = book.net().feeder_of(node) else {
        return Ok(0);
    };
    let blocks = book.roll().section_blocks(node);
    hand_blocks(book, feeder, blocks, book.timeline().runs_of(node), sink)
}

// Passes the rows of a section's blocks to a sink.
fn hand_blocks<T: Timeline, V: RowSink>(
    book: &Book<T>,
    feeder: u8,
    blocks: &[SectionBlock],
    runs: &[Run],
    sink: &mut V,
) -> Result<u64, Fault>
    requires counts { All (λ c. c.block.count ≡ customers_with book.now.state.customers c.section
        (service_of c.block)) blocks.now }
    requires outages { All (λ c. All (IsOutage book.now.state c.section) runs.now) blocks.now }
    requires few_blocks { length blocks.now ≤ 100_000 }
    requires few_runs { length runs.now < 2 ^ 25 }
    ensures hands { HandsRows V.takes sink.old sink.new (flat_map
        (λ c. rows_of_block book.now.state c.section feeder runs.now c) blocks.now) result }
    ensures few { IfOk result (λ rows. rows ≤ length blocks.now * 2 ^ 25) }
{
    let mut rows = 0;
    for block in blocks {
        rows += hand_block(book, feeder, block, runs, sink)?;
    }
    Ok(rows)
}

// Passes the rows of a block to a sink.
fn hand_block<T: Timeline, V: RowSink>(
    book: &Book<T>,
    feeder: u8,
    block: &SectionBlock,
    runs: &[Run],
    sink: &mut V,
) -> Result<u64, Fault>
    requires count { block.now.block.count ≡ customers_with book.now.state.customers
        block.now.section (service_of block.now.block) }
    requires outages { All (IsOutage book.now.state block.now.section) runs.now }
    ensures hands { HandsRows V.takes sink.old sink.new
        (rows_of_block book.now.state block.now.section feeder runs.now block.now) result }
    ensures few { IfOk result (λ rows. rows ≤ length runs.now) }
{
    let mut rows = 0;
    for run in runs {
        rows += hand_run(book, feeder, block, run, sink)?;
    }
    Ok(rows)
}

// Passes the row of an outage interval to a sink; none if no customer of the block is in service
// then.
fn hand_run<T: Timeline, V: RowSink>(
    book: &Book<T>,
    feeder: u8,
    block: &SectionBlock,
    run: &Run,
    sink: &mut V,
) -> Result<u64, Fault>
    requires count { block.now.block.count ≡ customers_with book.now.state.customers
        block.now.section (service_of block.now.block) }
    requires outage { IsOutage book.now.state block.now.section run.now }
    ensures hands { HandsRows V.takes sink.old sink.new (rows_of_run book.now.state
        block.now.section feeder (service_of block.now.block) run.now) result }
    ensures few { IfOk result (λ rows. rows ≤ 1) }
{
    let part = part_in_service(block, run);
    if part.since >= part.until {
        return Ok(0);
    }
    sink.take(&row_of(book, feeder, block, run, &part))?;
    Ok(1)
}

// The part of an outage interval in which the customers of a block are in service. If it ends no
// later than it begins, it has no second.
fn part_in_service(block: &SectionBlock, run: &Run) -> Interval
    ensures part { result ≡ part_of_run block.now.section (service_of block.now.block)
        run.now }
    ensures since { run.now.since ≤ result.since }
    ensures until { result.until ≤ run.now.until }
{
    let until = match block.block.until {
        Some(end) => end.min(run.until),
        None => run.until,
    };
    Interval {
        since: block.block.since.max(run.since),
        until,
    }
}
