//! Tests of the storage layer (`Keeper`) over two files in memory. Each task, such as a command, a
//! request, an import, a new book or a migration, is stopped at each call of either file. What is
//! left, with or without what was not synced, holds all that was acknowledged and at most one
//! command more, or the new book, and the work goes on from there. A `Keeper` whose store failed
//! answers nothing until its book is loaded again. In other tests one allocation, chosen from
//! outside, is refused: the call reports this, leaves the book as it was, and succeeds at the
//! second try. This crate holds only tests, and no other crate uses it. The amounts are worked out
//! by hand from the definitions.
#![tactic(auto)]

#[cfg(test)]
mod creations;
#[cfg(test)]
mod disks;
#[cfg(test)]
mod importing;
#[cfg(test)]
mod memory;
#[cfg(test)]
mod office;
#[cfg(test)]
mod refusals;
#[cfg(test)]
mod scripts;
#[cfg(test)]
mod sending;
#[cfg(test)]
mod serving;
#[cfg(test)]
mod stops;
#[cfg(test)]
mod tasks;
#[cfg(test)]
mod upgrades;
#[cfg(test)]
mod working;
