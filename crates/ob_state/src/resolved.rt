//! An accepted command with numbers in place of names.
use ob_base::{Crew, Life, Name};
use ob_command::CauseCode;
use ob_cust::Customer;
use ob_net::{Device, Node};
use ob_sheet::Entry;

/// An accepted command, with numbers in place of names, and with the entry or the customer that it
/// concerns.
#[derive(Clone, Copy)]
pub enum Resolved {
    /// Adds a cause.
    Cause { code: CauseCode, name: Name },
    /// Adds a bus or a section, after all other nodes.
    Node { number: u16, node: Node },
    /// Adds a device, after all others.
    Device { number: u16, device: Device },
    /// Gives a device another in-service interval.
    Life { device: u16, old: Life, new: Life },
    /// Adds a customer.
    Customer(Customer),
    /// Gives a customer another service interval.
    Service { old: Customer, new: Customer },
    /// Adds an entry, with the number after the last.
    Entered(Entry),
    /// Corrects an entry: `new` replaces `old`.
    Corrected { old: Entry, new: Entry },
    /// Withdraws an entry, which then no longer counts.
    Withdrawn { old: Entry, new: Entry },
    /// Marks a day of the period as a major event day.
    Marked { day: u16, engineer: Crew },
    /// Removes the major event day flag of a day.
    Unmarked { day: u16 },
}
