// Each refusal, on a plan and a list that were filled before, and the edges of what is taken.
use crate::draft::{all_reservations, changed, sheet};
use cases::parts::{deep_entries, entry, is_example, reserve};
use cases::{EXAMPLE_ENTRIES, example_plan};
use plan::entry::Entry;
use plan::fault::PlanFault;
use plan::plan::Plan;
use reservation::fault::CheckFault;
use reservation::reservation::Reservation;
use sheet::fault::{Layer, SheetFault};
use sheet::load::load;
use std::alloc::{AllocError, Global};
use std::test::Fail;

// A list that is full of something else.
const FULL_LIST: [Reservation; 16] = [Reservation {
    activity: 9,
    ticks: 1,
    period: 8,
}; 16];

// The sheet of the example plan with one reservation.
fn example(heap: Global) -> Result<Vec<u8>, AllocError> {
    sheet(heap, 10, 2, &EXAMPLE_ENTRIES, &[reserve(0, 4, 20)])
}

// Fails a test in which something does not hold: a helper has no handle, without which it cannot assert.
fn check(holds: bool) -> Result<(), Fail> {
    if holds {
        Ok(())
    } else {
        Err(Fail::new("it does not hold"))
    }
}

// The bytes are refused with this fault, and plan and list stay as they were.
fn refused(
    heap: Global,
    bytes: &[u8],
    fault: SheetFault,
    number: u8,
    place: usize,
) -> Result<(), Fail> {
    let mut plan = example_plan(heap)?;
    let mut list = FULL_LIST;
    check(load(bytes, &mut plan, &mut list) == Err(fault))?;
    check(is_example(&plan))?;
    check(list == FULL_LIST)?;
    check(fault.number() == Some(number))?;
    check(fault.place() == place)
}

// The example's sheet with one byte changed is refused.
fn refused_at(
    heap: Global,
    at: usize,
    value: u8,
    fault: SheetFault,
    number: u8,
    place: usize,
) -> Result<(), Fail> {
    let bytes = changed(heap, example(heap)?.as_slice(), at, value)?;
    refused(heap, bytes.as_slice(), fault, number, place)
}

// The sheet of these is taken into a plan and a list that held something else.
fn taken(
    heap: Global,
    entries: &[Entry],
    reservations: &[Reservation],
    size: usize,
) -> Result<(), Fail> {
    let bytes = sheet(heap, 64, 5, entries, reservations)?;
    check(bytes.len() == size)?;
    let mut plan = example_plan(heap)?;
    let mut list = FULL_LIST;
    check(load(bytes.as_slice(), &mut plan, &mut list) == Ok(reservations.len()))?;
    check(plan.base().ticks == 64 && plan.depth() == 5)?;
    check(plan.entries() == entries)?;
    check(list.starts_with(reservations))?;
    let mut others = list.iter().skip(reservations.len());
    check(others.all(|reservation| *reservation == reserve(0, 0, 0)))
}

#[test]
fn example_is_taken(rt: HostRuntime) -> Result<(), Fail> {
    let heap = rt.alloc();
    let mut plan = Plan::empty(heap);
    let mut list = FULL_LIST;
    let bytes = example(heap)?;
    assert_eq!(rt; bytes.len(), 1024);
    assert_eq!(rt; load(bytes.as_slice(), &mut plan, &mut list), Ok(1));
    assert!(rt; is_example(&plan));
    assert_eq!(rt; list[0], reserve(0, 4, 20));
    assert_eq!(rt; list[1], reserve(0, 0, 0));
    assert_eq!(rt; list[15], reserve(0, 0, 0));
    Ok(())
}

#[test]
fn fewest_and_most_entries_are_taken(rt: HostRuntime) -> Result<(), Fail> {
    let heap = rt.alloc();
    taken(heap, &[], &[], 512)?;
    for (count, size) in [(1, 1024), (60, 1024), (61, 1536), (120, 1536)] {
        taken(heap, deep_entries(heap, count)?.as_slice(), &[], size)?;
    }
    Ok(())
}

#[test]
fn sixteen_reservations_are_taken(rt: HostRuntime) -> Result<(), Fail> {
    let heap = rt.alloc();
    let list = all_reservations(heap)?;
    assert_eq!(rt; list.len(), 16);
    taken(
        heap,
        deep_entries(heap, 120)?.as_slice(),
        list.as_slice(),
        1536,
    )
}

#[test]
fn size_is_told(rt: HostRuntime) -> Result<(), Fail> {
    let heap = rt.alloc();
    let bytes = example(heap)?;
    assert!(rt; bytes.len() == 1024);
    refused(heap, &[], SheetFault::Size, 31, 0)?;
    refused(heap, &bytes.as_slice()[0..511], SheetFault::Size, 31, 0)?;
    refused(heap, &bytes.as_slice()[0..1023], SheetFault::Size, 31, 0)?;
    refused(heap, &[0; 2048], SheetFault::Size, 31, 0)?;
    assert_eq!(rt; SheetFault::Size.layer(), Layer::Sheet);
    Ok(())
}

#[test]
fn wrong_check_is_told(rt: HostRuntime) -> Result<(), Fail> {
    let heap = rt.alloc();
    let blank = [0; 1536];
    let mut last = [0; 1536];
    last[1536 - 1] = 1;
    let mut both = last;
    both[512 + 507] = 1;
    refused(heap, &both, SheetFault::BlockCheck { block: 1 }, 32, 512)?;
    refused(heap, &last, SheetFault::BlockCheck { block: 2 }, 32, 1024)?;
    refused(heap, &blank, SheetFault::Heading, 33, 0)
}

#[test]
fn wrong_heading_is_told(rt: HostRuntime) -> Result<(), Fail> {
    let heap = rt.alloc();
    let changes = [
        (0, 2),
        (1, 1),
        (5, 17),
        (6, 0),
        (6, 61),
        (7, 1),
        (9, 1),
        (14, 1),
        (507, 1),
    ];
    for (at, value) in changes {
        refused_at(heap, at, value, SheetFault::Heading, 33, 0)?;
    }
    Ok(())
}

#[test]
fn wrong_entry_block_is_told(rt: HostRuntime) -> Result<(), Fail> {
    let heap = rt.alloc();
    let fault = SheetFault::EntryBlock { block: 1 };
    let changes = [
        (512, 1),
        (513, 2),
        (514, 5),
        (515, 1),
        (519, 1),
        (568, 1),
        (1019, 1),
    ];
    for (at, value) in changes {
        refused_at(heap, at, value, fault, 34, 512)?;
    }
    let full = sheet(heap, 64, 5, deep_entries(heap, 61)?.as_slice(), &[])?;
    let bytes = changed(heap, full.as_slice(), 1026, 2)?;
    refused(
        heap,
        bytes.as_slice(),
        SheetFault::EntryBlock { block: 2 },
        34,
        1024,
    )
}

#[test]
fn wrong_plan_is_told(rt: HostRuntime) -> Result<(), Fail> {
    let heap = rt.alloc();
    refused_at(heap, 3, 1, SheetFault::Plan(PlanFault::Dimensions), 21, 0)?;
    refused_at(heap, 4, 6, SheetFault::Plan(PlanFault::Dimensions), 21, 0)?;
    refused_at(
        heap,
        528,
        16,
        SheetFault::Plan(PlanFault::OutOfRange { index: 1 }),
        23,
        528,
    )?;
    let clash = SheetFault::Plan(PlanFault::Clash {
        later: 1,
        earlier: 0,
    });
    refused_at(heap, 532, 2, clash, 24, 528)?;
    assert_eq!(rt; clash.layer(), Layer::Plan);
    let full = sheet(heap, 64, 5, deep_entries(heap, 62)?.as_slice(), &[])?;
    let bytes = changed(heap, full.as_slice(), 1041, 6)?;
    refused(
        heap,
        bytes.as_slice(),
        SheetFault::Plan(PlanFault::OutOfRange { index: 61 }),
        23,
        1040,
    )
}

#[test]
fn wrong_reservation_is_told(rt: HostRuntime) -> Result<(), Fail> {
    let heap = rt.alloc();
    let outside = SheetFault::Check(CheckFault::OutOfRange { index: 0 });
    refused_at(heap, 8, 16, outside, 12, 8)?;
    assert_eq!(rt; outside.layer(), Layer::Check);
    let twice = sheet(
        heap,
        10,
        2,
        &EXAMPLE_ENTRIES,
        &[reserve(0, 4, 20), reserve(0, 1, 20)],
    )?;
    refused(
        heap,
        twice.as_slice(),
        SheetFault::Check(CheckFault::Twice { index: 1 }),
        13,
        14,
    )?;
    let short = SheetFault::Check(CheckFault::Short {
        index: 0,
        start: 5,
        found: 3,
    });
    refused_at(heap, 12, 19, short, 14, 8)
}

#[test]
fn plan_is_told_before_the_check(rt: HostRuntime) -> Result<(), Fail> {
    let heap = rt.alloc();
    let bytes = sheet(heap, 10, 2, &[entry(0, 3, 0, 0, 1)], &[reserve(16, 1, 1)])?;
    refused(
        heap,
        bytes.as_slice(),
        SheetFault::Plan(PlanFault::OutOfRange { index: 0 }),
        23,
        520,
    )
}
