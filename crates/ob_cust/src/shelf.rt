//! A shelf: the services of the customers of some sections, and the ends of these services.

use crate::services::Services;
use crate::{Customer, MOST_CUSTOMERS};
use std::alloc::{AllocError, Global};

/// The services of the customers of some sections.
///
/// A service with an end equals a service without end, minus another one without end that begins
/// at that end. So each end is stored as a service without end.
#[derive(Drop)]
pub struct Shelf {
    /// The services of the customers.
    pub services: Services,
    /// For each service with an end, a service without end that begins there.
    pub ends: Services,
    /// The number of customers.
    pub customers: usize,
}

impl Shelf {
    ghost use Rattle.std.specs.Prelude.{◌≡◌, ◌<◌, ◌≤◌, ◌+◌, ℕ, Option, OnOk};
    ghost use Rattle.ob_cust.specs.Services.{sum_of, customers_of};
    ghost use Rattle.ob_cust.specs.Shelves.{at_end, IsRoomier, HasRoom, IsEmpty};

    /// Makes a shelf without customers.
    pub fn new(alloc: Global) -> Shelf
        ensures { IsEmpty result }
    {
        Shelf {
            services: Services::new(alloc),
            ends: Services::new(alloc),
            customers: 0,
        }
    }

    /// Makes room for one more customer, whatever services the other customers get.
    pub fn reserve_one(&mut self) -> Result<(), AllocError>
        requires few { self.old.customers ≤ 100_000 }
        ensures kept { IsRoomier self.old self.new }
        ensures ok { OnOk result (HasRoom self.new) }
    {
        let customers = self.customers + 1;
        self.services.reserve(customers)?;
        self.ends.reserve(customers)
    }

    /// Counts one more customer.
    pub fn add(&mut self, customer: &Customer)
        requires counted { self.old.customers ≡ customers_of self.old.services.blocks }
        requires ends { customers_of self.old.ends.blocks ≤ self.old.customers }
        requires few { self.old.customers < 100_000 }
        requires room { HasRoom self.old }
        ensures services { (f : ℕ → ℕ → Option ℕ → ℕ)
            → sum_of f self.new.services.blocks ≡ sum_of f self.old.services.blocks + f
            customer.now.section customer.now.since customer.now.until }
        ensures ends { (f : ℕ → ℕ → Option ℕ → ℕ) → sum_of f self.new.ends.blocks
            ≡ sum_of f self.old.ends.blocks + at_end f customer.now.section customer.now.until }
        ensures customers { self.new.customers ≡ self.old.customers + 1 }
        ensures capacity { self.new.services.capacity ≡ self.old.services.capacity }
        ensures capacity_of_ends { self.new.ends.capacity ≡ self.old.ends.capacity }
    {
        self.services
            .add(customer.section, customer.since, customer.until);
        self.ends.add_end(customer.section, customer.until);
        self.customers += 1;
    }

    /// Counts a customer with its new service instead of its old one.
    pub fn revise(&mut self, old: &Customer, new: &Customer)
        requires there { (f : ℕ → ℕ → Option ℕ → ℕ)
            → f old.now.section old.now.since old.now.until ≤ sum_of f self.old.services.blocks }
        requires there_end { (f : ℕ → ℕ → Option ℕ → ℕ)
            → at_end f old.now.section old.now.until ≤ sum_of f self.old.ends.blocks }
        requires room { customers_of self.old.services.blocks ≤ self.old.services.capacity }
        requires few { customers_of self.old.services.blocks ≤ 100_000 }
        requires room_of_ends { customers_of self.old.ends.blocks < self.old.ends.capacity + at_end
            (λ section since until. 1) old.now.section old.now.until }
        requires few_ends { customers_of self.old.ends.blocks < 100_000 + at_end
            (λ section since until. 1) old.now.section old.now.until }
        ensures services { (f : ℕ → ℕ → Option ℕ → ℕ)
            → sum_of f self.new.services.blocks + f old.now.section old.now.since old.now.until
            ≡ sum_of f self.old.services.blocks + f new.now.section new.now.since new.now.until }
        ensures ends { (f : ℕ → ℕ → Option ℕ → ℕ) → sum_of f self.new.ends.blocks + at_end f
            old.now.section old.now.until ≡ sum_of f self.old.ends.blocks + at_end f new.now.section
            new.now.until }
        ensures customers { self.new.customers ≡ self.old.customers }
        ensures capacity { self.new.services.capacity ≡ self.old.services.capacity }
        ensures capacity_of_ends { self.new.ends.capacity ≡ self.old.ends.capacity }
    {
        self.services.remove(old.section, old.since, old.until);
        self.services.add(new.section, new.since, new.until);
        self.ends.remove_end(old.section, old.until);
        self.ends.add_end(new.section, new.until);
    }
}
