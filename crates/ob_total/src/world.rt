//! What the rows read so far define: the span, the network, the switching log and the customer
//! register.
ghost use Rattle.std.specs.Prelude.{◌≡◌};

use crate::command::{Command, Span};
use crate::count::count_seconds;
use ob_base::{Crew, Life, Name, Pos, Refusal, Second, Stop};
use ob_cust::{Customer, Roll};
use ob_net::Net;
use ob_sheet::{MOST_ENTRIES, Sheet};
use std::alloc::Global;
use std::marker::Model;

/// The span, and the network, the switching log and the customer register after the commands so
/// far.
#[derive(Drop)]
pub struct World {
    span: Span,
    net: Net,
    sheet: Sheet,
    roll: Roll,
}

impl Model for World {
    ghost use Rattle.ob_total.specs.Worlds.{WorldState, IsWorld};

    ghost Value = { WorldState };

    ghost view = { λ w. record { span = w.span; network = w.net.network; entries = w.sheet.entries; customers = w.roll.customers } };

    ghost invariant = { λ w. IsWorld (record {
      span = w.span;
      network = w.net.network;
      entries =
          w.sheet.entries;
      customers = w.roll.customers;
    }) };
}

impl World {
    ghost use Rattle.std.specs.Prelude.{◌≡◌, ◌<◌, ◌≤◌, ◌≢◌, ◌+◌, ◌^◌, [], length, IfOk, IfErr, IfSome, OnErr, OnOk};
    ghost use Rattle.ob_base.specs.Stop.{out_of_memory};
    ghost use Rattle.ob_net.specs.Network.{section_of};
    ghost use Rattle.ob_total.specs.Commands.{IsCommand, IsSpan};
    ghost use Rattle.ob_total.specs.Worlds.{empty_world, next, customer_seconds_of};
    ghost use Rattle.ob_total.specs.Steps.{StepsAs};

    /// Creates a world with this span, GRID as the only node, no entry and no customer.
    pub fn new(alloc: Global, span: Span) -> Result<World, Stop>
        requires { IsSpan span }
        ensures world { IfOk result (λ w. w ≡ empty_world span) }
        ensures err { IfErr result (λ stop. stop ≡ out_of_memory) }
    {
        let net = Net::new(alloc)?;
        Ok(World {
            span,
            net,
            sheet: Sheet::new(alloc),
            roll: Roll::new(alloc),
        })
    }

    /// Applies a command. After an error the world is unchanged.
    pub fn act(&mut self, command: &Command) -> Result<(), Stop>
        requires { IsCommand command.now }
        ensures said { StepsAs result self.new (next self.old command.now) }
        ensures err { OnErr result (self.new ≡ self.old) }
    {
        match *command {
            Command::Cause => Ok(()),
            Command::Bus(name) => self.add_bus(name),
            Command::Section(name, feeder) => self.add_section(name, feeder),
            Command::Device(name, a, b, normal, life) => self.add_device(name, a, b, normal, life),
            Command::Life(device, life) => self.set_life(device, life),
            Command::Connect(number, section, since, until) => {
                self.connect(number, section, since, until)
            }
            Command::Switch(device, pos, second, cause, crew) => {
                self.switch(device, pos, second, cause, crew)
            }
        }
    }

    /// Counts the customer-seconds without supply in the span, second by second.
    pub fn count(&mut self) -> Result<u64, Stop>
        ensures total { IfOk result (λ n. n ≡ customer_seconds_of self.old) }
        ensures err { IfErr result (λ stop. stop ≡ out_of_memory) }
    {
        let mut entered = self.sheet.entered_before(0, &self.net)?;
        let alloc = *entered.allocator();
        let customers = self.roll.customers();
        count_seconds(
            alloc,
            &mut self.net,
            &self.sheet,
            customers,
            self.span,
            &mut entered,
        )
    }

    fn add_bus(&mut self, name: Name) -> Result<(), Stop>
        ensures said { StepsAs result self.new (next self.old (Command.Bus name)) }
        ensures err { OnErr result (self.new ≡ self.old) }
    {
        self.net.reserve_one()?;
        self.net.add_bus(name)?;
        Ok(())
    }

    fn add_section(&mut self, name: Name, feeder: u8) -> Result<(), Stop>
        requires { 1 ≤ feeder }
        ensures said { StepsAs result self.new (next self.old (Command.Section name feeder)) }
        ensures err { OnErr result (self.new ≡ self.old) }
    {
        self.net.reserve_one()?;
        self.net.add_section(name, feeder)?;
        Ok(())
    }

    fn add_device(
        &mut self,
        name: Name,
        a: Name,
        b: Name,
        normal: Pos,
        life: Life,
    ) -> Result<(), Stop>
        requires { a ≢ b }
        ensures said { StepsAs result self.new (next self.old (Command.Device name a b normal life)) }
        ensures err { OnErr result (self.new ≡ self.old) }
    {
        self.net.reserve_one()?;
        self.net.add_device(name, a, b, normal, life)?;
        Ok(())
    }

    fn set_life(&mut self, device: Name, life: Life) -> Result<(), Stop>
        ensures said { StepsAs result self.new (next self.old (Command.Life device life)) }
        ensures err { OnErr result (self.new ≡ self.old) }
    {
        let Some(device) = self.net.device_of(&device) else {
            return Err(Stop::Refused(Refusal::UnknownName));
        };
        self.net.set_life(device, life)?;
        Ok(())
    }

    fn section_named(&self, name: &Name) -> Option<u16>
        ensures section { result ≡ section_of self.now.network name.now }
        ensures exists { IfSome result (λ v. v < length self.now.network.nodes) }
    {
        let node = self.net.node_of(name)?;
        match self.net.feeder_of(node) {
            Some(_) => Some(node),
            None => None,
        }
    }

    fn connect(
        &mut self,
        number: u32,
        section: Name,
        since: Second,
        until: Option<Second>,
    ) -> Result<(), Stop>
        ensures said { StepsAs result self.new (next self.old
            (Command.Connect number section since until)) }
        ensures err { OnErr result (self.new ≡ self.old) }
    {
        let Some(section) = self.section_named(&section) else {
            return Err(Stop::Refused(Refusal::UnknownName));
        };
        self.roll.reserve_one()?;
        self.roll.connect(Customer {
            no: number,
            section,
            since,
            until,
        })?;
        Ok(())
    }

    fn switch(
        &mut self,
        device: Name,
        pos: Pos,
        second: Second,
        cause: u8,
        crew: Crew,
    ) -> Result<(), Stop>
        ensures said { StepsAs result self.new (next self.old
            (Command.Switch device pos second cause crew)) }
        ensures err { OnErr result (self.new ≡ self.old) }
    {
        let Some(device) = self.net.device_of(&device) else {
            return Err(Stop::Refused(Refusal::UnknownName));
        };
        if second < self.span.first || self.span.end <= second {
            return Err(Stop::Refused(Refusal::OutOfPeriod));
        }
        if self.sheet.is_full() {
            return Err(Stop::Refused(Refusal::Full(MOST_ENTRIES as u32)));
        }
        self.sheet.reserve_one()?;
        self.sheet.enter(device, pos, second, cause, crew);
        Ok(())
    }
}
