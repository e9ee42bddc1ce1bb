//! Computes the total of a text: the customer-seconds without supply, counted second by second.
//!
//! Reads a span, a network, a customer register and a switching log from CSV rows, searches the
//! network once for each second of the span, and adds up the customers in service without supply.
//! The count is kept this simple because other implementations are compared with it. The program
//! uses this crate for `outagebook total`.
#![tactic(auto)]

mod command;
mod count;
mod total;
mod world;

pub use total::{TotalStop, run_total};
