//! The state of a book: everything except the outage intervals and the amounts, which follow from
//! it.
use crate::causes::Causes;
use ob_base::{Name, Stop};
use ob_cust::Roll;
use ob_index::Marks;
use ob_net::Net;
use ob_sheet::Sheet;
use ob_sweep::Timeline;
use ob_time::Period;
use std::alloc::Global;
use std::marker::Model;

/// The period, the network, the causes, the customer register, the switching log, the major event
/// days, and the number of accepted commands.
#[derive(Drop)]
pub struct State {
    pub(crate) period: Period,
    pub(crate) net: Net,
    pub(crate) causes: Causes,
    pub(crate) roll: Roll,
    pub(crate) sheet: Sheet,
    pub(crate) marks: Marks,
    pub(crate) accepted: u32,
}

impl Model for State {
    ghost use Rattle.std.specs.Prelude.{min};
    ghost use Rattle.ob_state.specs.States.{BookValue, IsBookState, book_state};

    ghost Value = { BookValue };

    ghost view = { λ s. record {
      state = book_state s.period s.net.network s.causes s.roll.customers s.sheet.entries s.marks s.accepted;
      room = min (min s.net.node_room s.net.device_room) (min s.roll.room s.sheet.room);
      searches = s.net.searches;
    } };

    ghost invariant = { λ s. IsBookState (book_state s.period s.net.network s.causes
        s.roll.customers s.sheet.entries s.marks s.accepted) };
}

impl State {
    ghost use Rattle.std.specs.Prelude.{◌≡◌, ◌<◌, ◌≤◌, ◌+◌, ◌-◌, IfOk, IfErr, OnOk, IsSome, length};
    ghost use Rattle.std.specs.List.{All};
    ghost use Rattle.ob_base.specs.Stop.{out_of_memory};
    ghost use Rattle.ob_net.specs.Network.{home_feeder, without_last_node, JoinsTwo};
    ghost use Rattle.ob_state.specs.State.{empty_book, cause_name_of};
    ghost use Rattle.ob_state.specs.Effects.{without_device, without_node};
    ghost use Rattle.ob_state.specs.Searches.{searches_of_state};
    ghost use Rattle.ob_state.specs.States.{AreRunsOf, IsSoundState};

    /// The state of a new book.
    pub fn new(alloc: Global, period: Period) -> Result<State, Stop>
        ensures state { IfOk result (λ s. s.state ≡ empty_book period) }
        ensures searches { IfOk result (λ s. s.searches ≡ 0) }
        ensures err { IfErr result (λ stop. stop ≡ out_of_memory) }
    {
        let marks = Marks::new(alloc, period.days())?;
        let net = Net::new(alloc)?;
        Ok(State {
            period,
            net,
            causes: Causes::new(),
            roll: Roll::new(alloc),
            sheet: Sheet::new(alloc),
            marks,
            accepted: 0,
        })
    }

    /// Reserves the memory for the change of one command.
    pub fn reserve_one(&mut self) -> Result<(), Stop>
        ensures room { OnOk result (0 < self.new.room) }
        ensures err { IfErr result (λ stop. stop ≡ out_of_memory) }
        ensures state { self.new.state ≡ self.old.state }
        ensures searches { self.new.searches ≡ self.old.searches }
    {
        self.net.reserve_one()?;
        self.roll.reserve_one()?;
        self.sheet.reserve_one()?;
        Ok(())
    }

    /// The number of accepted commands. The postcondition `sound` states what holds for each state.
    pub fn accepted(&self) -> u32
        ensures accepted { result ≡ self.now.state.accepted }
        ensures sound { IsSoundState self.now.state }
    {
        self.sound();
        self.accepted
    }

    /// The period.
    pub fn period(&self) -> &Period
        ensures { result.now ≡ self.now.state.period }
    {
        &self.period
    }

    /// The network.
    pub fn net(&self) -> &Net
        ensures network { result.now.network ≡ self.now.state.network }
        ensures searches { result.now.searches ≡ self.now.searches }
    {
        &self.net
    }

    /// The customer register.
    pub fn roll(&self) -> &Roll
        ensures { result.now.customers ≡ self.now.state.customers }
    {
        &self.roll
    }

    /// The switching log.
    pub fn sheet(&self) -> &Sheet
        ensures { result.now.entries ≡ self.now.state.entries }
    {
        &self.sheet
    }

    /// The major event days.
    pub fn marks(&self) -> &Marks
        ensures { result.now ≡ self.now.state.marks }
    {
        &self.marks
    }

    // States what holds for each state, from the contracts of its parts. Does nothing at run time.
    fn sound(&self)
        ensures { IsSoundState self.now.state }
    {
        let _ = (self.period.days(), self.net.nodes());
        let _ = (self.roll.customers().len(), self.sheet.entry(1));
    }

    /// The name of the cause with this code; None if there is no such cause.
    pub fn cause_name(&self, code: u8) -> Option<Name>
        ensures { result ≡ cause_name_of self.now.state.causes code }
    {
        self.causes.name(code)
    }

    /// Computes the outage intervals of all sections from scratch. The number of searches of the
    /// network is at most that of one sweep. Fails only if an allocation fails.
    pub fn build<T: Timeline>(&mut self, alloc: Global) -> Result<T, Stop>
        ensures runs { IfOk result (λ t. AreRunsOf self.old.state (T.content t)) }
        ensures err { IfErr result (λ stop. stop ≡ out_of_memory) }
        ensures state { self.new.state ≡ self.old.state }
        ensures room { self.new.room ≡ self.old.room }
        ensures searches { self.new.searches ≤ self.old.searches
            + searches_of_state self.old.state }
    {
        T::build(alloc, &mut self.net, &self.sheet, &self.period)
    }

    /// Removes the node that was added last. No device is connected to it and no customer is on it.
    pub(crate) fn take_back_node(&mut self)
        requires some { 1 < length self.old.state.network.nodes }
        requires free { All (JoinsTwo (length self.old.state.network.nodes - 1))
            self.old.state.network.devices }
        requires customers { All (λ c. IsSome (home_feeder
            (without_last_node self.old.state.network) c.section)) self.old.state.customers }
        ensures state { self.new.state ≡ without_node self.old.state }
        ensures searches { self.new.searches ≡ self.old.searches }
    {
        self.net.take_back_node();
    }

    /// Removes the device that was added last, for which there is no entry.
    pub(crate) fn take_back_device(&mut self)
        requires some { 0 < length self.old.state.network.devices }
        requires entries { All (λ e. e.device < length self.old.state.network.devices - 1)
            self.old.state.entries }
        ensures state { self.new.state ≡ without_device self.old.state }
        ensures searches { self.new.searches ≡ self.old.searches }
    {
        self.net.take_back_device();
    }
}
