//! Tests of the path of a text through `total`: its rows, its fields, its commands, its total and
//! the first refusal in it. They also cover readers and writers that fail, the arguments of the
//! command line, and the program's messages and exit statuses.
//!
//! This crate holds only tests, and no other crate uses it. The rows, totals and refusals are
//! worked out by hand from the rules.
#![tactic(auto)]

#[cfg(test)]
mod columns;
#[cfg(test)]
mod commands;
#[cfg(test)]
mod limits;
#[cfg(test)]
mod lives;
#[cfg(test)]
mod rows;
#[cfg(test)]
mod script;
#[cfg(test)]
mod statuses;
#[cfg(test)]
mod streams;
#[cfg(test)]
mod texts;
#[cfg(test)]
mod totals;
#[cfg(test)]
mod words;
