//! The customer register: the customers by number.
ghost use Rattle.std.specs.Prelude.{◌≡◌, ◌<◌, ◌≤◌, ◌==◌, ◌%◌, ℕ, List, IfOk, IfErr, OnOk, false, true, length, map, nat_lt, slice_get, slice_index_or};
ghost use Rattle.std.specs.List.{All, AllPairs, count_by, find};
ghost use Rattle.std.specs.Result.{is_ok};
ghost use Rattle.ob_cust.specs.Roll.{has_number};
ghost use Rattle.ob_cust.specs.Shelves.{AreShelves, HasRoom, IsEmpty, IsRoomier};

use crate::service::ends_too_early;
use crate::shelf::Shelf;
use crate::{Block, Customer, MOST_CUSTOMERS, SectionBlock};
use ob_base::{Refusal, Second, Stop};
use std::alloc::{AllocError, Global};
use std::marker::Model;

/// The customers of the network. Their services are counted on shelves, each for some of the
/// sections, so a change moves the services of one shelf only.
#[derive(Drop)]
pub struct Roll {
    customers: Vec<Customer>,
    // A section's customers are counted on the shelf `section % shelves.len()`.
    shelves: Vec<Shelf>,
    // Every shelf has room for this many more customers, whatever their section.
    room: usize,
}

// How many shelves a register has that isn't made for one customer.
const SHELVES: usize = 64;

impl Model for Roll {
    ghost use Rattle.std.specs.Prelude.{◌≤◌, ◌+◌, length};
    ghost use Rattle.std.specs.Vec.{vec_capacity};
    ghost use Rattle.ob_cust.specs.Roll.{RollState, IsRoll};
    ghost use Rattle.ob_cust.specs.Shelves.{AreShelves};

    ghost Value = { RollState };

    ghost view = { λ r. record {
      customers = r.customers.items;
      room = r.room;
    } };

    ghost invariant = { λ r. IsRoll r.customers.items
        × AreShelves r.customers.items r.room r.shelves.items
        × (length r.customers.items + r.room ≤ vec_capacity r.customers) };
}

impl Roll {
    ghost use Rattle.std.specs.Prelude.{◌≡◌, ◌≢◌, ◌<◌, ◌≤◌, ◌+◌, ◌==◌, ℕ, Option, None, Some, false, [], ◌∷◌, length, map, IfSome, IfOk, OnOk, OnErr, IfErr};
    ghost use Rattle.std.specs.List.{All, AllPairs, Any, count_by, find, sum_by};
    ghost use Rattle.std.specs.declared.cmp.Ordering.TheVariants.{Less};
    ghost use Rattle.std.specs.Result.{result_err};
    ghost use Rattle.ob_base.specs.Stop.{out_of_memory};
    ghost use Rattle.ob_cust.specs.Blocks.{has_service, service_cmp, service_of, sum_over_blocks, sum_over_customers};
    ghost use Rattle.ob_cust.specs.Roll.{connect_refusal, ends_too_early, is_bad_service, revise_refusal, revised, with_customer, with_service};
    ghost use Rattle.ob_cust.specs.Service.{served_seconds as served};

    /// Makes a register without customers.
    pub fn new(alloc: Global) -> Roll
        ensures { result.customers ≡ [] }
    {
        Roll {
            customers: Vec::new(alloc),
            shelves: Vec::new(alloc),
            room: 0,
        }
    }

    /// Makes a register of one customer, with memory for this customer alone.
    pub fn of_one(alloc: Global, customer: Customer) -> Result<Roll, Stop>
        requires service { is_bad_service customer ≡ false }
        ensures roll { IfOk result (λ roll. roll.customers ≡ customer ∷ []) }
        ensures err { IfErr result (λ stop. stop ≡ out_of_memory) }
    {
        let customers = Vec::new(alloc);
        let shelves = empty_shelves(alloc, 1)?;
        let mut roll = Roll {
            customers,
            shelves,
            room: 0,
        };
        roll.reserve_one()?;
        roll.add(customer);
        Ok(roll)
    }

    /// Makes room for one more customer.
    pub fn reserve_one(&mut self) -> Result<(), Stop>
        ensures room { OnOk result (0 < self.new.room) }
        ensures err { IfErr result (λ stop. stop ≡ out_of_memory) }
        ensures customers { self.new.customers ≡ self.old.customers }
    {
        if self.room > 0 {
            return Ok(());
        }
        let alloc = *self.customers.allocator();
        make_shelves(&mut self.shelves, alloc)?;
        self.customers.reserve(1)?;
        reserve_each(&mut self.shelves)?;
        self.room = 1;
        Ok(())
    }

    /// Connects a customer. Refused with `NameTaken` if its number is in use, else with
    /// `BadService` if its service ends no later than it begins, else with `Full` if there are
    /// `MOST_CUSTOMERS`. It moves the customers with greater numbers, at most 3.2 MB, and on one
    /// shelf the services after its own.
    pub fn connect(&mut self, customer: Customer) -> Result<(), Refusal>
        requires room { 0 < self.old.room }
        ensures refused { result_err result ≡ connect_refusal self.old.customers customer }
        ensures ok { OnOk result (self.new.customers ≡ with_customer customer self.old.customers) }
        ensures err { OnErr result (self.new ≡ self.old) }
        ensures room { self.old.room ≤ self.new.room + 1 }
        ensures no_more_room { self.new.room ≤ self.old.room }
    {
        if let Some(refusal) = self.connect_refusal(&customer) {
            return Err(refusal);
        }
        self.add(customer);
        Ok(())
    }

    /// Why a customer can't be connected; `None` if it can.
    pub fn connect_refusal(&self, customer: &Customer) -> Option<Refusal>
        ensures { result ≡ connect_refusal self.now.customers customer.now }
    {
        if place_of(&self.customers, customer.no).is_ok() {
            return Some(Refusal::NameTaken);
        }
        if ends_too_early(customer.since, customer.until) {
            return Some(Refusal::BadService);
        }
        if self.customers.len() == MOST_CUSTOMERS {
            return Some(Refusal::Full(MOST_CUSTOMERS as u32));
        }
        None
    }

    /// Adds a customer for whom `connect_refusal` is `None`.
    pub fn add(&mut self, customer: Customer)
        requires room { 0 < self.old.room }
        requires free { connect_refusal self.old.customers customer ≡ None }
        ensures customers { self.new.customers ≡ with_customer customer self.old.customers }
        ensures room { self.old.room ≤ self.new.room + 1 }
        ensures no_more_room { self.new.room ≤ self.old.room }
    {
        let place = place_in(&self.customers, customer.no);
        let shelf = shelf_of(customer.section, self.shelves.len());
        self.shelves[shelf].add(&customer);
        self.room -= 1;
        // There is room for one more, so `insert` needs no memory.
        if self.customers.insert(place, customer).is_err() {
            unreachable!();
        }
    }

    /// Gives a customer another service. Refused with `UnknownCustomer` if no customer has the
    /// number, else with `BadService` if the new service ends no later than it begins.
    pub fn revise(&mut self, no: u32, since: Second, until: Option<Second>) -> Result<(), Refusal>
        ensures refused { result_err result ≡ revise_refusal self.old.customers «no» since until }
        ensures ok { OnOk result (self.new.customers
            ≡ with_service «no» since until self.old.customers) }
        ensures err { OnErr result (self.new ≡ self.old) }
        ensures room { self.new.room ≡ self.old.room }
    {
        let customer = self.customer_for(no, since, until)?;
        let revised = Customer {
            since,
            until,
            ..customer
        };
        self.serve(customer, revised);
        Ok(())
    }

    /// The customer with a number as it is now, or why it can't get this service.
    #[tactic(auto, using(crate::proofs::Searched::has_found))]
    pub fn customer_for(
        &self,
        no: u32,
        since: Second,
        until: Option<Second>,
    ) -> Result<Customer, Refusal>
        ensures refused { result_err result
            ≡ revise_refusal self.now.customers «no» since until }
        ensures found { IfOk result (λ c. find (λ d. d.«no» == «no») self.now.customers
            ≡ Some c) }
        ensures service { IfOk result (λ c. ends_too_early since until ≡ false) }
    {
        let Some(customer) = self.customer(no) else {
            return Err(Refusal::UnknownCustomer);
        };
        if ends_too_early(since, until) {
            return Err(Refusal::BadService);
        }
        Ok(customer)
    }

    /// Replaces a customer by the same customer with another service.
    pub fn serve(&mut self, old: Customer, new: Customer)
        requires on { find (λ c. c.«no» == old.«no») self.old.customers ≡ Some old }
        requires new { new ≡ revised new.since new.until old }
        requires service { is_bad_service new ≡ false }
        ensures customers { self.new.customers
            ≡ with_service old.«no» new.since new.until self.old.customers }
        ensures room { self.new.room ≡ self.old.room }
    {
        let place = place_in(&self.customers, old.no);
        let shelf = shelf_of(old.section, self.shelves.len());
        self.shelves[shelf].revise(&old, &new);
        self.customers[place] = new;
    }

    /// The customers, in order of rising number.
    pub fn customers(&self) -> &[Customer]
        ensures customers { result.now ≡ self.now.customers }
        ensures rising { AllPairs (λ c d. c.«no» < d.«no») result.now }
        ensures services { All (λ c. IfSome c.until (λ until. c.since < until)) result.now }
        ensures few { length result.now ≤ 100_000 }
    {
        &self.customers
    }

    /// The customer with a number.
    pub fn customer(&self, no: u32) -> Option<Customer>
        ensures { result ≡ find (λ c. c.«no» == «no») self.now.customers }
    {
        match place_of(&self.customers, no) {
            Ok(place) => Some(self.customers[place]),
            Err(_) => None,
        }
    }

    /// Whether there are as many as `MOST_CUSTOMERS`.
    pub fn is_full(&self) -> bool
        ensures { result ≡ (length self.now.customers == 100_000) }
    {
        self.customers.len() == MOST_CUSTOMERS
    }

    /// The seconds of service from `a` up to `b`, summed over the customers of a section; 0 if `b`
    /// is not after `a`.
    pub fn served_seconds(&self, section: u16, a: Second, b: Second) -> u64
        requires { b ≤ 99_999_999_999 }
        ensures { result ≡ served self.now.customers section a b }
    {
        if b <= a || self.shelves.is_empty() {
            return 0;
        }
        let shelf = &self.shelves[shelf_of(section, self.shelves.len())];
        let begun = shelf.services.seconds_passed(section, b)
            + shelf.ends.seconds_passed(section, a);
        let over = shelf.services.seconds_passed(section, a)
            + shelf.ends.seconds_passed(section, b);
        (begun - over) as u64
    }

    /// The blocks of a section: each service of its customers once, ordered by `since` and then by
    /// `until`, where a service without end comes first. Needs no memory.
    pub fn section_blocks(&self, section: u16) -> &[SectionBlock]
        ensures of_section { All (λ b. b.section ≡ section) result.now }
        ensures positive { All (λ b. 0 < b.block.count) result.now }
        ensures sums { (f : ℕ → Option ℕ → ℕ) → sum_over_blocks f (map (λ b. b.block) result.now)
            ≡ sum_over_customers f section self.now.customers }
        ensures ordered { AllPairs (λ a b. service_cmp (service_of a.block) (service_of b.block)
            ≡ Less) result.now }
        ensures few { sum_by (λ b. b.block.count) result.now ≤ 100_000 }
    {
        if self.shelves.is_empty() {
            return &[];
        }
        let shelf = &self.shelves[shelf_of(section, self.shelves.len())];
        shelf.services.of_section(section)
    }

    /// The blocks of a section: each service of its customers once, ordered by `since` and then by
    /// `until`, where a service without end comes first.
    pub fn blocks(&self, section: u16) -> Result<Vec<Block>, Stop>
        ensures counts { IfOk result (λ blocks. All (λ b. b.count
            ≡ count_by (has_service section b.since b.until) self.now.customers) blocks.items) }
        ensures positive { IfOk result (λ blocks. All (λ b. 0 < b.count) blocks.items) }
        ensures once { IfOk result (λ blocks. AllPairs (λ a b. a.since ≡ b.since
            → a.until ≢ b.until) blocks.items) }
        ensures complete { IfOk result (λ blocks. All (λ c. c.section ≡ section
            → Any (λ b. (b.since ≡ c.since) × (b.until ≡ c.until)) blocks.items) self.now.customers) }
        ensures sums { IfOk result (λ blocks. (f : ℕ → Option ℕ → ℕ)
            → sum_over_blocks f blocks.items ≡ sum_over_customers f section self.now.customers) }
        ensures ordered { IfOk result (λ blocks. AllPairs
            (λ a b. service_cmp (service_of a) (service_of b) ≡ Less) blocks.items) }
        ensures few { IfOk result (λ blocks. sum_by (λ b. b.count) blocks.items ≤ 100_000) }
        ensures err { IfErr result (λ stop. stop ≡ out_of_memory) }
    {
        let blocks = without_section(*self.customers.allocator(), self.section_blocks(section))?;
        Ok(blocks)
    }
}

// The blocks without their section.
fn without_section(alloc: Global, blocks: &[SectionBlock]) -> Result<Vec<Block>, AllocError>
    ensures blocks { IfOk result (λ v. v.items ≡ map (λ b. b.block) blocks.now) }
{
    let mut plain = Vec::new(alloc);
    for b in blocks {
        plain.push(b.block)?;
    }
    Ok(plain)
}

// Makes the shelves if there are none.
fn make_shelves(shelves: &mut Vec<Shelf>, alloc: Global) -> Result<(), AllocError>
    ensures some { OnOk result (0 < length shelves.new.items) }
    ensures shelves { (customers : List Customer) (room : ℕ)
        → AreShelves customers room shelves.old.items
        → AreShelves customers room shelves.new.items }
{
    if !shelves.is_empty() {
        return Ok(());
    }
    *shelves = empty_shelves(alloc, SHELVES)?;
    Ok(())
}

// Makes shelves without customers.
fn empty_shelves(alloc: Global, count: usize) -> Result<Vec<Shelf>, AllocError>
    ensures len { IfOk result (λ v. length v.items ≡ count) }
    ensures empty { IfOk result (λ v. All IsEmpty v.items) }
{
    let mut shelves = Vec::new(alloc);
    for _ in 0..count {
        shelves.push(Shelf::new(alloc))?;
    }
    Ok(shelves)
}

// Makes room for one more customer on each shelf.
fn reserve_each(shelves: &mut [Shelf]) -> Result<(), AllocError>
    requires few { All (λ s. s.customers ≤ 100_000) shelves.old }
    ensures len { length shelves.new ≡ length shelves.old }
    ensures kept { (k : ℕ) (d : Shelf) → IsRoomier (slice_index_or shelves.old k d)
        (slice_index_or shelves.new k d) }
    ensures ok { OnOk result (All HasRoom shelves.new) }
{
    for shelf in 0..shelves.len() {
        shelves[shelf].reserve_one()?;
    }
    Ok(())
}

// The number of the shelf for a section.
fn shelf_of(section: u16, shelves: usize) -> usize
    requires { 0 < shelves }
    ensures within { result < shelves }
    ensures is { result ≡ section % shelves }
{
    section as usize % shelves
}

// The place of the customer with this number, as `Ok`; if missing, where it would be, as `Err`.
fn place_of(customers: &[Customer], no: u32) -> Result<usize, usize>
    requires { AllPairs (λ c d. c.«no» < d.«no») customers.now }
    ensures known { is_ok result ≡ has_number customers.now «no» }
    ensures found { IfOk result (λ place. slice_get customers.now place
        ≡ find (λ c. c.«no» == «no») customers.now) }
    ensures within { IfOk result (λ place. place < length customers.now) }
    ensures place { IfErr result (λ place. place ≡ count_by (λ c. nat_lt c.«no» «no») customers.now) }
    ensures bound { IfErr result (λ place. place ≤ length customers.now) }
{
    customers.binary_search_by_key(&no, |customer| customer.no)
}

// The place of the customer with this number, or where it would be.
fn place_in(customers: &[Customer], no: u32) -> usize
    requires { AllPairs (λ c d. c.«no» < d.«no») customers.now }
    ensures known { has_number customers.now «no» ≡ true → slice_get customers.now result
        ≡ find (λ c. c.«no» == «no») customers.now }
    ensures within { has_number customers.now «no» ≡ true → result < length customers.now }
    ensures new { has_number customers.now «no» ≡ false → result
        ≡ count_by (λ c. nat_lt c.«no» «no») customers.now }
    ensures bound { result ≤ length customers.now }
{
    match place_of(customers, no) {
        Ok(place) | Err(place) => place,
    }
}
