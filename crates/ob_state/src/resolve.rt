//! Looks up a command in a state: why the state refuses it, or what it changes, by numbers. Nothing
//! here allocates.
use crate::MOST_COMMANDS;
use crate::resolved::Resolved;
use crate::state::State;
use ob_base::{Crew, Name, Refusal};
use ob_command::{
    CauseCode, CivilDate, Command, FeederNumber, Moment, NewDevice, Operation, Serial, Service,
};
use ob_cust::Customer;
use ob_net::Node;
use ob_sheet::{Entry, MOST_ENTRIES};

impl State {
    ghost use Rattle.std.specs.Prelude.{◌≡◌, ◌<◌, ℕ, List, [], ◌∷◌, Some, None, true, IfOk, IfSome, IsSome, OnOk};
    ghost use Rattle.std.specs.Result.{result_err};
    ghost use Rattle.jiff.specs.Words.{epoch_day};
    ghost use Rattle.ob_net.specs.Network.{home_feeder, node_refusal, section_of};
    ghost use Rattle.ob_time.specs.Calendar.{IsInPeriod, day_on};
    ghost use Rattle.ob_index.specs.Marks.{unmark_refusal};
    ghost use Rattle.ob_command.specs.Ranges.{IsCauseCode};
    ghost use Rattle.ob_state.specs.State.{has_cause};
    ghost use Rattle.ob_state.specs.Refusals.{day_refusal, first, if_outside, if_unknown_cause, refusal, refusals};
    ghost use Rattle.ob_state.specs.Resolved.{Resolves};

    /// Returns the change that a command makes, or the reason for which it is refused.
    pub fn resolve(&self, command: &Command) -> Result<Resolved, Refusal>
        ensures refused { result_err result ≡ refusal self.now.state command.now }
        ensures resolved { IfOk result (Resolves self.now.state command.now) }
        ensures few { OnOk result (self.now.state.accepted < 1_000_000) }
    {
        let resolved = self.resolve_kind(command)?;
        if self.accepted == MOST_COMMANDS {
            return Err(Refusal::Full(MOST_COMMANDS));
        }
        Ok(resolved)
    }

    // The change that a command makes, or the first refusal of its kind.
    fn resolve_kind(&self, command: &Command) -> Result<Resolved, Refusal>
        ensures refused { result_err result ≡ first (refusals self.now.state command.now) }
        ensures resolved { IfOk result (Resolves self.now.state command.now) }
    {
        match *command {
            Command::Cause { code, name } => self.resolve_cause(code, name),
            Command::Bus { name } => self.resolve_node(name, None),
            Command::Section { name, feeder } => self.resolve_node(name, Some(feeder)),
            Command::Device(device) => self.resolve_device(&device),
            Command::Life { device, life } => self.resolve_life(&device, life),
            Command::Connect {
                customer,
                section,
                service,
            } => self.resolve_connect(customer, &section, service),
            Command::Revise { customer, service } => self.resolve_revise(customer, service),
            Command::Switch { device, operation } => self.resolve_switch(&device, operation),
            Command::Correct {
                entry,
                revision,
                operation,
            } => self.resolve_correct(entry, revision, operation),
            Command::Withdraw { entry, revision } => self.resolve_withdraw(entry, revision),
            Command::Mark { date, engineer } => self.resolve_mark(date, engineer),
            Command::Unmark { date, .. } => self.resolve_unmark(date),
        }
    }

    fn resolve_cause(&self, code: CauseCode, name: Name) -> Result<Resolved, Refusal>
        ensures refused { result_err result
            ≡ first (refusals self.now.state (Command.Cause code name)) }
        ensures resolved { IfOk result (Resolves self.now.state (Command.Cause code name)) }
    {
        if self.causes.name(code.get()).is_some() || self.causes.has_name(&name) {
            return Err(Refusal::NameTaken);
        }
        Ok(Resolved::Cause { code, name })
    }

    // Looks up a new bus, or a new section with its home feeder.
    fn resolve_node(&self, name: Name, feeder: Option<FeederNumber>) -> Result<Resolved, Refusal>
        ensures refused { result_err result
            ≡ first (node_refusal self.now.state.network name ∷ []) }
        ensures bus { feeder ≡ None
            → IfOk result (Resolves self.now.state (Command.Bus name)) }
        ensures section { (f : ℕ) → feeder ≡ Some f
            → IfOk result (Resolves self.now.state (Command.Section name f)) }
    {
        if let Some(refusal) = self.net.node_refusal(&name) {
            return Err(refusal);
        }
        let number = self.net.nodes();
        let feeder = match feeder {
            Some(feeder) => Some(feeder.get()),
            None => None,
        };
        let node = Node { name, feeder };
        Ok(Resolved::Node { number, node })
    }

    fn resolve_device(&self, new: &NewDevice) -> Result<Resolved, Refusal>
        ensures refused { result_err result
            ≡ first (refusals self.now.state (Command.Device new.now)) }
        ensures resolved { IfOk result (Resolves self.now.state (Command.Device new.now)) }
    {
        let ends = &new.ends;
        let (a, b) = self
            .net
            .ends_of(&new.name, ends.a(), ends.b(), new.life.life())?;
        let number = self.net.devices();
        let device = new.between(a, b);
        Ok(Resolved::Device { number, device })
    }

    fn resolve_life(&self, device: &Name, life: Service) -> Result<Resolved, Refusal>
        ensures refused { result_err result
            ≡ first (refusals self.now.state (Command.Life device.now life)) }
        ensures resolved { IfOk result (Resolves self.now.state (Command.Life device.now life)) }
    {
        let new = life.life();
        let Some(device) = self.net.device_of(device) else {
            return Err(Refusal::UnknownName);
        };
        if !new.ends_later() {
            return Err(Refusal::BadLife);
        }
        let old = self.net.life_of(device);
        Ok(Resolved::Life { device, old, new })
    }

    fn resolve_connect(
        &self,
        customer: Serial,
        section: &Name,
        service: Service,
    ) -> Result<Resolved, Refusal>
        ensures refused { result_err result
            ≡ first (refusals self.now.state (Command.Connect customer section.now service)) }
        ensures resolved { IfOk result
            (Resolves self.now.state (Command.Connect customer section.now service)) }
    {
        let Some(section) = self.section_named(section) else {
            return Err(Refusal::UnknownName);
        };
        let customer = Customer {
            no: customer.get(),
            section,
            since: service.since.second(),
            until: service.end(),
        };
        if let Some(refusal) = self.roll.connect_refusal(&customer) {
            return Err(refusal);
        }
        Ok(Resolved::Customer(customer))
    }

    // The number of the section with this name; None if no node has the name, or if the node is a
    // bus.
    fn section_named(&self, name: &Name) -> Option<u16>
        ensures section { result ≡ section_of self.now.state.network name.now }
        ensures fed { IfSome result (λ v. IsSome (home_feeder self.now.state.network v)) }
    {
        let node = self.net.node_of(name)?;
        match self.net.feeder_of(node) {
            Some(_) => Some(node),
            None => None,
        }
    }

    fn resolve_revise(&self, customer: Serial, service: Service) -> Result<Resolved, Refusal>
        ensures refused { result_err result
            ≡ first (refusals self.now.state (Command.Revise customer service)) }
        ensures resolved { IfOk result (Resolves self.now.state (Command.Revise customer service)) }
    {
        let since = service.since.second();
        let until = service.end();
        let old = self.roll.customer_for(customer.get(), since, until)?;
        let new = Customer {
            since,
            until,
            ..old
        };
        Ok(Resolved::Service { old, new })
    }

    fn resolve_switch(&self, device: &Name, operation: Operation) -> Result<Resolved, Refusal>
        ensures refused { result_err result
            ≡ first (refusals self.now.state (Command.Switch device.now operation)) }
        ensures resolved { IfOk result
            (Resolves self.now.state (Command.Switch device.now operation)) }
    {
        let Some(device) = self.net.device_of(device) else {
            return Err(Refusal::UnknownName);
        };
        self.check_operation(operation.second, operation.cause)?;
        if self.sheet.is_full() {
            return Err(Refusal::Full(MOST_ENTRIES as u32));
        }
        Ok(Resolved::Entered(Entry {
            no: self.sheet.len() as u32 + 1,
            rev: 1,
            device,
            pos: operation.act,
            second: operation.second.second(),
            cause: operation.cause.get(),
            crew: operation.crew,
            kept: true,
        }))
    }

    fn resolve_correct(
        &self,
        entry: Serial,
        revision: Serial,
        operation: Operation,
    ) -> Result<Resolved, Refusal>
        ensures refused { result_err result
            ≡ first (refusals self.now.state (Command.Correct entry revision operation)) }
        ensures resolved { IfOk result
            (Resolves self.now.state (Command.Correct entry revision operation)) }
    {
        let old = self.sheet.kept_entry(entry.get(), revision.get())?;
        self.check_operation(operation.second, operation.cause)?;
        let new = Entry {
            rev: old.rev.saturating_add(1),
            pos: operation.act,
            second: operation.second.second(),
            cause: operation.cause.get(),
            crew: operation.crew,
            ..old
        };
        Ok(Resolved::Corrected { old, new })
    }

    fn resolve_withdraw(&self, entry: Serial, revision: Serial) -> Result<Resolved, Refusal>
        ensures refused { result_err result
            ≡ first (refusals self.now.state (Command.Withdraw entry revision)) }
        ensures resolved { IfOk result (Resolves self.now.state (Command.Withdraw entry revision)) }
    {
        let old = self.sheet.kept_entry(entry.get(), revision.get())?;
        let new = Entry {
            rev: old.rev.saturating_add(1),
            kept: false,
            ..old
        };
        Ok(Resolved::Withdrawn { old, new })
    }

    fn resolve_mark(&self, date: CivilDate, engineer: Crew) -> Result<Resolved, Refusal>
        ensures refused { result_err result
            ≡ first (refusals self.now.state (Command.Mark date engineer)) }
        ensures resolved { IfOk result (Resolves self.now.state (Command.Mark date engineer)) }
    {
        let Some(day) = self.period.day_index(&date.date()) else {
            return Err(Refusal::OutOfPeriod);
        };
        if self.marks.is_marked(day) {
            return Err(Refusal::MarkedAlready);
        }
        Ok(Resolved::Marked { day, engineer })
    }

    fn resolve_unmark(&self, date: CivilDate) -> Result<Resolved, Refusal>
        ensures refused { result_err result
            ≡ first (day_refusal (day_on self.now.state.period (epoch_day date))
            (unmark_refusal self.now.state.marks) ∷ []) }
        ensures resolved { (engineer : List ℕ)
            → IfOk result (Resolves self.now.state (Command.Unmark date engineer)) }
    {
        let Some(day) = self.period.day_index(&date.date()) else {
            return Err(Refusal::OutOfPeriod);
        };
        if !self.marks.is_marked(day) {
            return Err(Refusal::NotMarked);
        }
        Ok(Resolved::Unmarked { day })
    }

    // Checks that an operation lies in the period and that its cause has a name.
    fn check_operation(&self, second: Moment, cause: CauseCode) -> Result<(), Refusal>
        ensures refused { result_err result ≡ first (if_outside self.now.state.period second
            ∷ if_unknown_cause self.now.state.causes cause ∷ []) }
        ensures inside { OnOk result (IsInPeriod self.now.state.period second) }
        ensures cause { OnOk result (has_cause self.now.state.causes cause ≡ true) }
        ensures code { IsCauseCode cause }
    {
        let second = second.second();
        if second < self.period.first_second() || self.period.end_second() <= second {
            return Err(Refusal::OutOfPeriod);
        }
        if self.causes.name(cause.get()).is_none() {
            return Err(Refusal::UnknownCause);
        }
        Ok(())
    }
}
