//! Tests of the customer register: customers by number, seconds of service, and equal services. Its
//! refusals are tested in `ob_total_tests` and `ob_book_tests`.
use ob_cust::{Block, Customer, Roll, SectionBlock};
use ob_net::{LAST_SECOND, Second, Stop};
use std::alloc::Global;
use std::process::Abort;
use std::test::Fail;

fn service(no: u32, section: u16, since: Second, until: Option<Second>) -> Customer {
    Customer {
        no,
        section,
        since,
        until,
    }
}

// The register of these customers, connected one after another.
fn roll_of(alloc: Global, customers: &[Customer]) -> Result<Roll, Fail> {
    let mut roll = Roll::new(alloc);
    for customer in customers {
        roll.reserve_one()?;
        roll.connect(*customer)?;
    }
    Ok(roll)
}

#[test]
fn customers_by_number(rt: HostRuntime) -> Result<(), Fail> {
    let three = service(3, 1, 0, None);
    let five = service(5, 2, 10, Some(11));
    let seven = service(7, 1, 4, Some(9));
    let mut roll = roll_of(rt.alloc(), &[seven, three, five])?;
    assert!(rt; roll.customers() == [three, five, seven].as_slice());
    assert!(rt; roll.customer(5) == Some(five) && roll.customer(6) == None && !roll.is_full());
    assert!(rt; roll.revise(5, 10, Some(13)) == Ok(()));
    assert!(rt; roll.customer(5) == Some(service(5, 2, 10, Some(13))));
    let one = Customer {
        no: 7,
        section: 1,
        since: 4,
        until: Some(9),
    };
    let roll = Roll::of_one(rt.alloc(), one)?;
    assert!(rt; roll.customers() == [one].as_slice());
    Ok(())
}

// Connects a customer, which may not be refused, and ends its service in second 9.
fn add_and_serve(rt: &impl Abort, roll: &mut Roll, customer: Customer) -> Result<(), Stop> {
    roll.reserve_one()?;
    if let Some(refusal) = roll.connect_refusal(&customer) {
        return Err(Stop::Refused(refusal));
    }
    roll.add(customer);
    let until = Some(9);
    let old = roll.customer_for(customer.no, customer.since, until)?;
    assert!(rt; old.no == customer.no && old.since == customer.since);
    roll.serve(old, Customer { until, ..old });
    Ok(())
}

#[test]
fn adds_a_customer_and_ends_its_service(rt: HostRuntime) -> Result<(), Fail> {
    let five = service(5, 2, 10, None);
    let mut roll = roll_of(rt.alloc(), &[five])?;
    add_and_serve(&rt, &mut roll, service(3, 1, 4, None))?;
    assert!(rt; roll.customers() == [service(3, 1, 4, Some(9)), five].as_slice());
    assert!(rt; roll.served_seconds(1, 0, 20) == 5);
    Ok(())
}

// A section, the bounds of a span, and the expected seconds of service in it.
const SERVED: &'static [(u16, Second, Second, u64)] = &[
    (1, 0, 10, 0),
    (1, 0, 12, 2),
    (1, 12, 18, 9),
    (1, 18, 25, 9),
    (1, 20, 25, 5),
    (1, 25, 18, 0),
    (2, 5, 30, 2),
    (1, 2, 9, 0),
    (2, 8, 30, 0),
    (3, 0, 100, 0),
];

#[test]
fn counts_the_seconds_of_service(rt: HostRuntime) -> Result<(), Fail> {
    let customers = &[
        service(1, 1, 10, Some(20)),
        service(2, 1, 15, None),
        service(3, 2, 0, Some(7)),
    ];
    let roll = roll_of(rt.alloc(), customers)?;
    for (section, a, b, seconds) in SERVED {
        assert!(rt; *b <= LAST_SECOND);
        assert!(rt; roll.served_seconds(*section, *a, *b) == *seconds);
    }
    Ok(())
}

fn block(since: Second, until: Option<Second>, count: u32) -> Block {
    Block {
        since,
        until,
        count,
    }
}

const T: Second = 1_704_067_200;

#[test]
fn counts_equal_services_once(rt: HostRuntime) -> Result<(), Fail> {
    let customers = &[
        service(1, 1, T, None),
        service(2, 1, T, None),
        service(3, 2, T, None),
        service(4, 2, 0, Some(T)),
        service(5, 4, 7, None),
        service(6, 2, T, Some(T + 60)),
        service(7, 2, T, None),
        service(8, 2, T, Some(T + 60)),
        service(9, 2, T, Some(T + 60)),
    ];
    let roll = roll_of(rt.alloc(), customers)?;
    let first = roll.blocks(1)?;
    assert!(rt; first.as_slice() == [block(T, None, 2)].as_slice());
    let second = roll.blocks(2)?;
    let (old, two) = (block(0, Some(T), 1), block(T, None, 2));
    assert!(rt; second.as_slice() == [old, two, block(T, Some(T + 60), 3)].as_slice());
    assert!(rt; roll.blocks(3)?.is_empty());
    let later = SectionBlock {
        section: 4,
        block: block(7, None, 1),
    };
    assert!(rt; roll.section_blocks(4) == [later].as_slice());
    Ok(())
}
