// Every refusal, through a plan and through shifts of it, and the edges of the ranges.
use cases::example_plan;
use cases::free::Free;
use cases::parts::{entry, reserve};
use plan::entry::Entry;
use plan::fault::PlanFault;
use plan::plan::Plan;
use reservation::check::check;
use reservation::fault::CheckFault;
use reservation::reservation::Reservation;
use std::alloc::Global;
use std::test::Fail;
use timetable::shift::Shift;

// As `example_plan` is made, for plans that a test alone has.
fn plan(heap: Global, base: u16, depth: u8, entries: &[Entry]) -> Result<Plan, PlanFault> {
    let mut plan = Plan::empty(heap);
    plan.fill(base, depth, entries)?;
    Ok(plan)
}

fn short(index: usize, start: u16, found: u16) -> Result<(), CheckFault> {
    Err(CheckFault::Short {
        index,
        start,
        found,
    })
}

fn outside(index: usize) -> Result<(), CheckFault> {
    Err(CheckFault::OutOfRange { index })
}

// The activities 0, 1, 2 and so on, each 1 tick out of every 16: together all ticks, exactly.
fn turns() -> [Reservation; 17] {
    let mut list = [reserve(0, 1, 16); 17];
    for (activity, place) in (0..17u8).zip(&mut list) {
        *place = reserve(activity, 1, 16);
    }
    list
}

// A frame of 16 ticks, one for each activity.
fn slots() -> [Entry; 16] {
    let mut entries = [entry(0, 0, 0, 0, 1); 16];
    for (activity, place) in (0..16u8).zip(&mut entries) {
        *place = entry(activity, 0, 0, u16::from(activity), 1);
    }
    entries
}

#[test]
fn windows_begin_at_every_tick(rt: HostRuntime) -> Result<(), Fail> {
    let six = example_plan(rt.alloc())?;
    assert_eq!(rt; check(&six, &[reserve(0, 4, 20)]), Ok(()));
    assert_eq!(rt; check(&six, &[reserve(0, 4, 19)]), short(0, 5, 3));
    let two = plan(
        rt.alloc(),
        4,
        1,
        &[entry(0, 1, 0, 0, 1), entry(0, 1, 1, 3, 1)],
    )?;
    assert_eq!(rt; check(&two, &[reserve(0, 1, 4)]), short(0, 1, 0));
    Ok(())
}

// The windows short of 4 in 19 begin at 5 to 8 of each 20 ticks.
#[test]
fn windows_move_with_a_shift(rt: HostRuntime) -> Result<(), Fail> {
    let later = Shift::new(example_plan(rt.alloc())?, 7);
    assert_eq!(rt; check(&later, &[reserve(0, 4, 20)]), Ok(()));
    assert_eq!(rt; check(&later, &[reserve(0, 4, 19)]), short(0, 12, 3));
    let earlier = Shift::new(example_plan(rt.alloc())?, -5);
    assert_eq!(rt; check(&earlier, &[reserve(0, 4, 19)]), short(0, 0, 3));
    let first = Shift::new(example_plan(rt.alloc())?, i32::MIN);
    assert_eq!(rt; check(&first, &[reserve(0, 4, 19)]), short(0, 0, 3));
    let last = Shift::new(Shift::new(example_plan(rt.alloc())?, i32::MAX), -9);
    assert_eq!(rt; check(&last, &[reserve(0, 4, 19)]), short(0, 3, 3));
    Ok(())
}

#[test]
fn period_over_the_cycle(rt: HostRuntime) -> Result<(), Fail> {
    let six = example_plan(rt.alloc())?;
    assert_eq!(rt; check(&six, &[reserve(5, 5, 41)]), Ok(()));
    assert_eq!(rt; check(&six, &[reserve(5, 6, 74)]), short(0, 0, 5));
    assert_eq!(rt; check(&six, &[reserve(5, 510, 4096)]), Ok(()));
    assert_eq!(rt; check(&six, &[reserve(5, 511, 4096)]), short(0, 0, 510));
    Ok(())
}

#[test]
fn every_tick(rt: HostRuntime) -> Result<(), Fail> {
    let all = plan(rt.alloc(), 1, 0, &[entry(15, 0, 0, 0, 1)])?;
    assert_eq!(rt; check(&all, &[reserve(15, 1, 1)]), Ok(()));
    assert_eq!(rt; check(&all, &[reserve(15, 4096, 4096)]), Ok(()));
    let six = example_plan(rt.alloc())?;
    assert_eq!(rt; check(&six, &[reserve(1, 1, 1)]), short(0, 3, 0));
    assert_eq!(rt; check(&six, &[]), Ok(()));
    Ok(())
}

// Seventeen are too many, also where the last one is outside its range.
#[test]
fn sixteen_and_seventeen(rt: HostRuntime) -> Result<(), Fail> {
    let sixteen = plan(rt.alloc(), 16, 0, &slots())?;
    let list = turns();
    assert_eq!(rt; check(&sixteen, &list[0..16]), Ok(()));
    assert_eq!(rt; check(&sixteen, &list), Err(CheckFault::TooMany));
    assert_eq!(rt; check(&sixteen, &list[1..17]), outside(15));
    let earlier = Shift::new(sixteen, -3);
    assert_eq!(rt; check(&earlier, &list[0..16]), Ok(()));
    assert_eq!(rt; check(&earlier, &list), Err(CheckFault::TooMany));
    assert_eq!(rt; check(&earlier, &list[1..17]), outside(15));
    Ok(())
}

#[test]
fn fields_out_of_range(rt: HostRuntime) {
    let good = reserve(0, 1, 4096);
    assert_eq!(rt; check(&Free, &[good, reserve(16, 1, 1)]), outside(1));
    assert_eq!(rt; check(&Free, &[good, reserve(1, 0, 1)]), outside(1));
    assert_eq!(rt; check(&Free, &[good, reserve(1, 3, 2)]), outside(1));
    assert_eq!(rt; check(&Free, &[good, reserve(1, 1, 4097)]), outside(1));
    assert_eq!(rt;
        check(&Free, &[reserve(255, 65535, 65535), reserve(16, 0, 0)]),
        outside(0)
    );
    assert_eq!(rt; check(&Free, &[good, good, reserve(1, 0, 0)]), outside(2));
}

// The first one that repeats an earlier one, before anything is counted.
#[test]
fn activity_twice(rt: HostRuntime) -> Result<(), Fail> {
    let six = example_plan(rt.alloc())?;
    let list = [
        reserve(3, 1, 1),
        reserve(0, 4, 20),
        reserve(5, 1, 40),
        reserve(0, 1, 40),
        reserve(3, 1, 40),
    ];
    assert_eq!(rt; check(&six, &list), Err(CheckFault::Twice { index: 3 }));
    assert_eq!(rt;
        check(&Shift::new(six, -1), &list),
        Err(CheckFault::Twice { index: 3 })
    );
    Ok(())
}

// The first reservation that is short is told, though a later one is short sooner.
#[test]
fn the_first_short_one(rt: HostRuntime) -> Result<(), Fail> {
    let six = example_plan(rt.alloc())?;
    let list = [reserve(1, 3, 10), reserve(0, 4, 19), reserve(5, 5, 5)];
    assert_eq!(rt; check(&six, &list), short(1, 5, 3));
    assert_eq!(rt; check(&Shift::new(six, -6), &list), short(1, 0, 3));
    Ok(())
}

#[test]
fn always_free_is_short(rt: HostRuntime) {
    assert_eq!(rt; check(&Free, &[reserve(0, 1, 1)]), short(0, 0, 0));
    assert_eq!(rt;
        check(&Shift::new(Free, -1), &[reserve(15, 1, 4096)]),
        short(0, 0, 0)
    );
    assert_eq!(rt; check(&Free, &[]), Ok(()));
}

#[test]
fn numbers(rt: HostRuntime) {
    assert_eq!(rt; CheckFault::TooMany.number(), 11);
    assert_eq!(rt; CheckFault::OutOfRange { index: 3 }.number(), 12);
    assert_eq!(rt; CheckFault::Twice { index: 3 }.number(), 13);
    let fault = CheckFault::Short {
        index: 3,
        start: 2,
        found: 1,
    };
    assert_eq!(rt; fault.number(), 14);
    assert_eq!(rt; CheckFault::Overbooked.number(), 15);
}
