//! Tests of the lowest crates: names, fields, refusals, streams and the network of `ob_net`, the
//! periods and moments of `ob_time`, and the commands and their texts of `ob_command`.
//!
//! This crate holds only tests, and no other crate uses it. The expected values are worked out by
//! hand from the definitions, or come from the programs that the comments name.
#![tactic(auto)]

#[cfg(test)]
mod commands;
#[cfg(test)]
mod fields;
#[cfg(test)]
mod intervals;
#[cfg(test)]
mod lives;
#[cfg(test)]
mod moments;
#[cfg(test)]
mod networks;
#[cfg(test)]
mod periods;
#[cfg(test)]
mod stops;
#[cfg(test)]
mod streams;
#[cfg(test)]
mod watched;
