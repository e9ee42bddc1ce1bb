//! The effect of a new customer, or of another service interval of a customer.
ghost use Rattle.std.specs.Prelude.{◌≡◌, ℕ, ◌∷◌, [], IsSome, false, IfOk, IfErr, OnOk};
ghost use Rattle.ob_net.specs.Network.{home_feeder};
ghost use Rattle.ob_base.specs.Stop.{out_of_memory};
ghost use Rattle.ob_cust.specs.Roll.{is_bad_service};
ghost use Rattle.ob_time.specs.Calendar.{day_count};
ghost use Rattle.ob_post.specs.declared.Dim.{Dim as Dimension};
ghost use Rattle.ob_state.specs.States.{AreRunsOf, IsSoundState};
ghost use Rattle.ob_post.specs.Balances.{together, Balances};
ghost use Rattle.ob_state.specs.Effects.{amount_of_customer, IsEffect};
ghost use Rattle.ob_state.specs.Resolved.{next_by, IsNewCustomer, IsOtherService};

use crate::effect::Effect;
use crate::resolved::Resolved;
use crate::retiming::Retiming;
use crate::state::State;
use ob_base::Stop;
use ob_cust::{Customer, Roll};
use ob_post::laws::{roll_laws, section_laws, total_laws};
use ob_post::{Basis, Posting};
use ob_sweep::Timeline;
use std::alloc::Global;

/// Computes the effect of a new customer. Fails only if an allocation fails.
pub fn effect_of_connect<T: Timeline>(
    alloc: Global,
    state: &State,
    timeline: &T,
    customer: Customer,
) -> Result<Effect, Stop>
    requires takes { IsNewCustomer state.now.state customer }
    requires runs { AreRunsOf state.now.state (T.content timeline.now) }
    ensures effect { IfOk result (IsEffect state.now.state (next_by state.now.state
        (Resolved.Customer customer))) }
    ensures err { IfErr result (λ stop. stop ≡ out_of_memory) }
{
    roll_laws();
    total_laws();
    let _ = state.accepted();
    let mut posting = Posting::new(alloc);
    give_customer(alloc, state, timeline, customer, &mut posting)?;
    Ok(Effect {
        moves: posting.moves(&state.period)?,
        retiming: Retiming::Same,
    })
}

/// Computes the effect of another service interval of a customer. Fails only if an allocation
/// fails.
pub fn effect_of_revise<T: Timeline>(
    alloc: Global,
    state: &State,
    timeline: &T,
    old: Customer,
    new: Customer,
) -> Result<Effect, Stop>
    requires takes { IsOtherService state.now.state old new }
    requires runs { AreRunsOf state.now.state (T.content timeline.now) }
    ensures effect { IfOk result (IsEffect state.now.state (next_by state.now.state
        (Resolved.Service old new))) }
    ensures err { IfErr result (λ stop. stop ≡ out_of_memory) }
{
    roll_laws();
    total_laws();
    let _ = state.accepted();
    let mut posting = Posting::new(alloc);
    take_customer(alloc, state, timeline, old, &mut posting)?;
    give_customer(alloc, state, timeline, new, &mut posting)?;
    Ok(Effect {
        moves: posting.moves(&state.period)?,
        retiming: Retiming::Same,
    })
}

// Subtracts the amounts of one customer.
fn take_customer<T: Timeline>(
    alloc: Global,
    state: &State,
    timeline: &T,
    customer: Customer,
    posting: &mut Posting,
) -> Result<(), Stop>
    requires sound { IsSoundState state.now.state }
    requires section { IsSome (home_feeder state.now.state.network customer.section) }
    requires service { is_bad_service customer ≡ false }
    requires runs { AreRunsOf state.now.state (T.content timeline.now) }
    ensures taken { (old new : Dimension → ℕ → ℕ)
        → Balances (day_count state.now.state.period) posting.old old new
        → OnOk result (Balances (day_count state.now.state.period) posting.new
        (together old (amount_of_customer state.now.state customer)) new) }
    ensures err { IfErr result (λ stop. stop ≡ out_of_memory) }
{
    section_laws();
    roll_laws();
    // The node is no section, so no amount changes.
    let Some(feeder) = state.net.feeder_of(customer.section) else {
        return Ok(());
    };
    let roll = Roll::of_one(alloc, customer)?;
    let runs = timeline.runs_of(customer.section);
    let basis = Basis {
        sheet: &state.sheet,
        feeder,
        roll: &roll,
        period: &state.period,
    };
    posting.take(runs, &basis)
}

// Adds the amounts of one customer.
fn give_customer<T: Timeline>(
    alloc: Global,
    state: &State,
    timeline: &T,
    customer: Customer,
    posting: &mut Posting,
) -> Result<(), Stop>
    requires sound { IsSoundState state.now.state }
    requires section { IsSome (home_feeder state.now.state.network customer.section) }
    requires service { is_bad_service customer ≡ false }
    requires runs { AreRunsOf state.now.state (T.content timeline.now) }
    ensures given { (old new : Dimension → ℕ → ℕ)
        → Balances (day_count state.now.state.period) posting.old old new
        → OnOk result (Balances (day_count state.now.state.period) posting.new old
        (together new (amount_of_customer state.now.state customer))) }
    ensures err { IfErr result (λ stop. stop ≡ out_of_memory) }
{
    section_laws();
    roll_laws();
    // The node is no section, so no amount changes.
    let Some(feeder) = state.net.feeder_of(customer.section) else {
        return Ok(());
    };
    let roll = Roll::of_one(alloc, customer)?;
    let runs = timeline.runs_of(customer.section);
    let basis = Basis {
        sheet: &state.sheet,
        feeder,
        roll: &roll,
        period: &state.period,
    };
    posting.give(runs, &basis)
}
