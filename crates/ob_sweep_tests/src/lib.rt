//! Tests of the crates between the commands and the index amounts: the switching log of `ob_sheet`,
//! the customer register of `ob_cust`, and worked examples of the timelines of `ob_sweep`. An
//! example gives a small network and a switching log as body texts of commands. It lists the outage
//! intervals that are built and, for a change, the touched sections, their new outage intervals and
//! the searches that it takes. Each example runs on every timeline, through the trait alone.
//!
//! This crate holds only tests, and no other crate uses it. The expected values are worked out by
//! hand from the definitions.
#![tactic(auto)]

#[cfg(test)]
mod ask;
#[cfg(test)]
mod builds;
#[cfg(test)]
mod change;
#[cfg(test)]
mod changes;
#[cfg(test)]
mod example;
#[cfg(test)]
mod feeders;
#[cfg(test)]
mod lives;
#[cfg(test)]
mod rolls;
#[cfg(test)]
mod sheet;
#[cfg(test)]
mod sheets;
