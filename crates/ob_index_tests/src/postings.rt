//! Tests of the moves from some amounts to others, of dimensions and of laws.
ghost use Rattle.std.specs.Prelude.{IsTrue};
ghost use Rattle.std.specs.List.{All};
ghost use Rattle.ob_index_tests.specs.Small.{IsSmall};

use crate::moved::{Row, are, row};
use ob_post::{Dim, Moved, laws, moves};
use std::alloc::Global;
use std::test::Fail;

// Answers whether the row has a key that postings keep, and a small difference.
fn is_small(row: &Moved) -> bool
    ensures { IsTrue result → IsSmall row.now }
{
    let is_kept = match row.dim {
        Dim::Cause => row.key < 64,
        Dim::Feeder => 1 <= row.key && row.key < 256,
        Dim::Day => row.key < 366,
    };
    is_kept && row.delta.unsigned_abs() <= 10_000
}

fn are_small(moved: &[Moved]) -> bool
    ensures { IsTrue result → All IsSmall moved.now }
{
    for row in moved {
        if !is_small(row) {
            return false;
        }
    }
    true
}

fn rows(alloc: Global, rows: &[Row]) -> Result<Vec<Moved>, Fail> {
    let mut made = Vec::new(alloc);
    for (dim, key, delta) in rows {
        made.push(row(*dim, *key, *delta))?;
    }
    Ok(made)
}

// The moves between two lists of at most a hundred such rows each.
fn small_moves(alloc: Global, taken: &[Moved], given: &[Moved]) -> Result<Vec<Moved>, Fail> {
    if taken.len() > 100 || given.len() > 100 || !are_small(taken) || !are_small(given) {
        return Err("rows that aren't small".into());
    }
    Ok(moves(alloc, taken, given)?)
}

const TAKEN: [Row; 3] = [
    (Dim::Cause, 3, 1_800),
    (Dim::Feeder, 1, 1_800),
    (Dim::Day, 0, 1_800),
];

const GIVEN: [Row; 6] = [
    (Dim::Day, 1, 3_000),
    (Dim::Cause, 4, 1_200),
    (Dim::Feeder, 1, 1_800),
    (Dim::Cause, 4, 2_400),
    (Dim::Day, 0, 600),
    (Dim::Feeder, 255, 0),
];

const MOVES: [Row; 4] = [
    (Dim::Cause, 3, -1_800),
    (Dim::Cause, 4, 3_600),
    (Dim::Day, 0, -1_200),
    (Dim::Day, 1, 3_000),
];

// Rows in any order, with several of one key, give each key's difference once, in order and without
// zeros.
#[test]
fn moves_are_differences(rt: HostRuntime) -> Result<(), Fail> {
    let (taken, given) = (rows(rt.alloc(), &TAKEN)?, rows(rt.alloc(), &GIVEN)?);
    let moved = small_moves(rt.alloc(), &taken, &given)?;
    assert!(rt; are(&moved, &MOVES));
    assert!(rt; small_moves(rt.alloc(), &given, &given)?.is_empty());
    Ok(())
}

// The laws are for proofs: a call does nothing.
#[test]
fn dimensions_have_numbers_and_laws_can_be_called(rt: HostRuntime) {
    laws::section_laws();
    laws::cause_laws();
    laws::roll_laws();
    laws::total_laws();
    laws::move_laws();
    assert!(rt; Dim::Cause.number() == 1 && Dim::Cause.word() == "cause");
    assert!(rt; Dim::Feeder.number() == 2 && Dim::Feeder.word() == "feeder");
    assert!(rt; Dim::Day.number() == 3 && Dim::Day.word() == "day");
}
