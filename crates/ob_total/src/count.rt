//! Counts second by second: one search of the network for each second, and one for each customer
//! without supply.
ghost use Rattle.std.specs.Prelude.{◌≡◌, ◌<◌, ◌≤◌, [], not, false, length, slice_index_or, IfOk, IfErr};
ghost use Rattle.std.specs.List.{All, count_by};
ghost use Rattle.ob_base.specs.Seconds.{seconds};
ghost use Rattle.ob_base.specs.Stop.{out_of_memory};
ghost use Rattle.ob_net.specs.Network.{as_of};
ghost use Rattle.ob_net.specs.Walk.{is_supplied};
ghost use Rattle.ob_sheet.specs.Positions.{entered as entered_under};
ghost use Rattle.ob_sheet.specs.Sheet.{NameDevices};
ghost use Rattle.ob_sheet.specs.Supply.{is_deenergized};
ghost use Rattle.ob_cust.specs.Service.{in_service};
ghost use Rattle.ob_total.specs.Commands.{IsSpan};
ghost use Rattle.ob_cust.specs.WithoutSupply.{is_without_supply, seconds_without_supply};

use crate::command::Span;
use ob_base::{Pos, Second, Stop};
use ob_cust::{Customer, MOST_CUSTOMERS};
use ob_net::Net;
use ob_sheet::Sheet;
use std::alloc::Global;

/// Counts the customer-seconds without supply in a span. `entered` holds the normal positions at
/// first.
pub fn count_seconds(
    alloc: Global,
    net: &mut Net,
    sheet: &Sheet,
    customers: &[Customer],
    span: Span,
    entered: &mut [Pos],
) -> Result<u64, Stop>
    requires span { IsSpan span }
    requires devices { NameDevices (length net.old.network.devices) sheet.now.entries }
    requires sections { All (λ c. c.section < length net.old.network.nodes) customers.now }
    requires few { length customers.now ≤ 100_000 }
    requires normal { entered.old ≡ entered_under net.old.network [] }
    ensures total { IfOk result (λ n. n ≡ seconds_without_supply
        (is_deenergized net.old.network sheet.now.entries) (seconds span.first span.end)
        customers.now) }
    ensures err { IfErr result (λ stop. stop ≡ out_of_memory) }
    ensures network { net.new.network ≡ net.old.network }
{
    let mut total = 0;
    let mut place = 0;
    for second in span.first..span.end {
        place = sheet.advance(place, second, entered);
        let without = count_second(alloc, net, customers, second, entered)?;
        total += without;
    }
    Ok(total)
}

/// Counts the customers without supply at a second. `entered` holds the positions entered up to it.
fn count_second(
    alloc: Global,
    net: &mut Net,
    customers: &[Customer],
    second: Second,
    entered: &[Pos],
) -> Result<u64, Stop>
    requires positions { length entered.now ≡ length net.old.network.devices }
    requires sections { All (λ c. c.section < length net.old.network.nodes) customers.now }
    ensures count { IfOk result (λ n. n ≡ count_by
        (λ c. is_without_supply (λ v s. not (is_supplied net.old.network
        (as_of net.old.network.devices second entered.now) v)) c second) customers.now) }
    ensures few { IfOk result (λ n. n ≤ length customers.now) }
    ensures err { IfErr result (λ stop. stop ≡ out_of_memory) }
    ensures network { net.new.network ≡ net.old.network }
{
    let positions = positions_at(alloc, net, second, entered)?;
    let supplied = net.supplied(&positions)?;
    Ok(count_without(customers, second, &supplied))
}

/// Returns the positions entered, but open for each device that is not in service at this second.
fn positions_at(alloc: Global, net: &Net, second: Second, entered: &[Pos]) -> Result<Vec<Pos>, Stop>
    requires { length entered.now ≡ length net.now.network.devices }
    ensures positions { IfOk result (λ p. p.items
        ≡ as_of net.now.network.devices second entered.now) }
    ensures long { IfOk result (λ p. length p.items ≡ length net.now.network.devices) }
    ensures err { IfErr result (λ stop. stop ≡ out_of_memory) }
{
    let mut positions = Vec::with_capacity(alloc, entered.len())?;
    positions.extend_from_slice(entered)?;
    net.open_outside_lives(second, &mut positions);
    Ok(positions)
}

/// Counts the customers that are in service at a second, on a node without supply.
fn count_without(customers: &[Customer], second: Second, supplied: &[bool]) -> u64
    requires { All (λ c. c.section < length supplied.now) customers.now }
    ensures count { result ≡ count_by (λ c. is_without_supply
        (λ v s. not (slice_index_or supplied.now v false)) c second) customers.now }
    ensures few { result ≤ length customers.now }
{
    let mut count = 0;
    for customer in customers {
        if is_in_service(customer, second) && !supplied[customer.section as usize] {
            count += 1;
        }
    }
    count
}

/// Whether a customer is in service at a second.
fn is_in_service(customer: &Customer, second: Second) -> bool
    ensures { result ≡ in_service customer.now second }
{
    let has_ended = match customer.until {
        Some(until) => until <= second,
        None => false,
    };
    customer.since <= second && !has_ended
}
