//! The customer register: the customers and their service.
//!
//! Keeps customers by number, each with its section and the seconds of its service. Promises for
//! which reasons a customer is refused, the sum of the seconds of service over any span of time
//! for the customers of a section, and how many customers of a section have each service.
//! Used by `ob_post` and `ob_index`, which count customer-seconds, and by the book's state and
//! tables.
#![tactic(auto)]

mod roll;
mod service;
mod services;
mod shelf;

use ob_base::Second;
pub use roll::Roll;

/// A customer of a section, in service from `since` up to `until`, or without end.
#[derive(Clone, Copy, PartialEq, Eq)]
pub struct Customer {
    /// Its number, which no other customer has.
    pub no: u32,
    /// The node that supplies it.
    pub section: u16,
    /// The first second of its service.
    pub since: Second,
    /// The second at which its service ends; `None` if it has no end.
    pub until: Option<Second>,
}

/// Customers of one section with equal service, counted together.
#[derive(Clone, Copy, PartialEq, Eq)]
pub struct Block {
    /// The first second of their service.
    pub since: Second,
    /// The second at which their service ends; `None` if it has no end.
    pub until: Option<Second>,
    /// The number of these customers.
    pub count: u32,
}

/// A block of customers together with their section.
#[derive(Clone, Copy, PartialEq, Eq)]
pub struct SectionBlock {
    /// The section of the customers.
    pub section: u16,
    /// Their service, and the number of these customers.
    pub block: Block,
}

/// How many customers there may be.
pub const MOST_CUSTOMERS: usize = 100_000;
