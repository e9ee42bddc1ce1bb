//! The change that an accepted command makes to the state. Nothing here allocates: `reserve_one`
//! reserved the memory.
use crate::resolved::Resolved;
use crate::state::State;
use ob_base::{Crew, Life, Name};
use ob_command::CauseCode;
use ob_cust::Customer;
use ob_net::{Device, Node};
use ob_sheet::Entry;

impl State {
    ghost use Rattle.std.specs.Prelude.{◌≡◌, ◌<◌, ◌≤◌, None, length, set};
    ghost use Rattle.ob_base.specs.Life.{life_refusal};
    ghost use Rattle.ob_net.specs.Network.{CanJoin, HasFeederOrNone, node_refusal, with_joined, with_life, with_node};
    ghost use Rattle.ob_state.specs.Effects.{with_network};
    ghost use Rattle.ob_state.specs.Resolved.{CanTake, IsCorrection, IsNewCustomer, IsNextEntry, IsOtherService, IsWithdrawal, changed_by, next_by};

    /// Makes the change of an accepted command.
    pub fn change(&mut self, resolved: &Resolved)
        requires takes { CanTake self.old.state resolved.now }
        requires few { self.old.state.accepted < 1_000_000 }
        requires room { 0 < self.old.room }
        ensures state { self.new.state ≡ next_by self.old.state resolved.now }
        ensures searches { self.new.searches ≡ self.old.searches }
        ensures no_more_room { self.new.room ≤ self.old.room }
    {
        self.change_parts(resolved);
        self.accepted += 1;
    }

    // Makes the change, except for the number of accepted commands.
    fn change_parts(&mut self, resolved: &Resolved)
        requires takes { CanTake self.old.state resolved.now }
        requires room { 0 < self.old.room }
        ensures state { self.new.state ≡ changed_by self.old.state resolved.now }
        ensures searches { self.new.searches ≡ self.old.searches }
        ensures no_more_room { self.new.room ≤ self.old.room }
    {
        match *resolved {
            Resolved::Cause { code, name } => self.name_cause(code, name),
            Resolved::Node { node, .. } => self.add_node(node),
            Resolved::Device { device, .. } => self.join(device),
            Resolved::Life { device, new, .. } => self.set_life(device, new),
            Resolved::Customer(customer) => self.connect(customer),
            Resolved::Service { old, new } => self.revise(old, new),
            Resolved::Entered(entry) => self.enter(entry),
            Resolved::Corrected { old, new } => self.correct(old, new),
            Resolved::Withdrawn { old, new } => self.withdraw(old, new),
            Resolved::Marked { day, engineer } => self.mark(day, Some(engineer)),
            Resolved::Unmarked { day } => self.mark(day, None),
        }
    }

    fn name_cause(&mut self, code: CauseCode, name: Name)
        ensures state { self.new.state ≡ changed_by self.old.state (Resolved.Cause code name) }
        ensures searches { self.new.searches ≡ self.old.searches }
        ensures no_more_room { self.new.room ≤ self.old.room }
    {
        self.causes.put(code.get(), name);
    }

    /// Adds a node whose name is not in use.
    pub(crate) fn add_node(&mut self, node: Node)
        requires room { 0 < self.old.room }
        requires free { node_refusal self.old.state.network node.name ≡ None }
        requires feeder { HasFeederOrNone node }
        ensures state { self.new.state ≡ with_network self.old.state
            (with_node self.old.state.network node) }
        ensures searches { self.new.searches ≡ self.old.searches }
        ensures no_more_room { self.new.room ≤ self.old.room }
    {
        self.net.add_node(node);
    }

    /// Adds a device that the network accepts.
    pub(crate) fn join(&mut self, device: Device)
        requires room { 0 < self.old.room }
        requires joins { CanJoin self.old.state.network device }
        ensures state { self.new.state ≡ with_network self.old.state
            (with_joined self.old.state.network device) }
        ensures searches { self.new.searches ≡ self.old.searches }
        ensures no_more_room { self.new.room ≤ self.old.room }
    {
        self.net.join(device);
    }

    /// Sets the in-service interval (`life`) of a device.
    pub(crate) fn set_life(&mut self, device: u16, life: Life)
        requires device { device < length self.old.state.network.devices }
        requires life { life_refusal life ≡ None }
        ensures state { self.new.state ≡ with_network self.old.state
            (with_life self.old.state.network device life) }
        ensures searches { self.new.searches ≡ self.old.searches }
        ensures no_more_room { self.new.room ≤ self.old.room }
    {
        self.net.give_life(device, life);
    }

    fn connect(&mut self, customer: Customer)
        requires takes { IsNewCustomer self.old.state customer }
        requires room { 0 < self.old.room }
        ensures state { self.new.state ≡ changed_by self.old.state (Resolved.Customer customer) }
        ensures searches { self.new.searches ≡ self.old.searches }
        ensures no_more_room { self.new.room ≤ self.old.room }
    {
        self.roll.add(customer);
    }

    fn revise(&mut self, old: Customer, new: Customer)
        requires { IsOtherService self.old.state old new }
        ensures state { self.new.state ≡ changed_by self.old.state (Resolved.Service old new) }
        ensures searches { self.new.searches ≡ self.old.searches }
        ensures no_more_room { self.new.room ≤ self.old.room }
    {
        self.roll.serve(old, new);
    }

    fn enter(&mut self, entry: Entry)
        requires takes { IsNextEntry self.old.state entry }
        requires room { 0 < self.old.room }
        ensures state { self.new.state ≡ changed_by self.old.state (Resolved.Entered entry) }
        ensures searches { self.new.searches ≡ self.old.searches }
        ensures no_more_room { self.new.room ≤ self.old.room }
    {
        self.sheet.add(entry);
    }

    fn correct(&mut self, old: Entry, new: Entry)
        requires { IsCorrection self.old.state old new }
        ensures state { self.new.state ≡ changed_by self.old.state (Resolved.Corrected old new) }
        ensures searches { self.new.searches ≡ self.old.searches }
        ensures no_more_room { self.new.room ≤ self.old.room }
    {
        self.sheet.replace(old, new);
    }

    fn withdraw(&mut self, old: Entry, new: Entry)
        requires { IsWithdrawal self.old.state old new }
        ensures state { self.new.state ≡ changed_by self.old.state (Resolved.Withdrawn old new) }
        ensures searches { self.new.searches ≡ self.old.searches }
        ensures no_more_room { self.new.room ≤ self.old.room }
    {
        let _ = self.sheet.entry(old.no);
        self.sheet.replace(old, new);
    }

    // Sets the major event day flag of a day, with the engineer's name, or clears it.
    fn mark(&mut self, day: u16, engineer: Option<Crew>)
        requires { day < length self.old.state.marks }
        ensures state { self.new.state
            ≡ record (self.old.state) { marks = set self.old.state.marks day engineer } }
        ensures searches { self.new.searches ≡ self.old.searches }
        ensures no_more_room { self.new.room ≤ self.old.room }
    {
        self.marks.put(day, engineer);
    }
}
