// What the rules do at their edges.
ghost use Rattle.std.specs.Prelude.{◌≡◌};

use crate::robin::RoundRobin;
use spare::example::held_queue;
use spare::fault::WheelFault;
use spare::hold::Hold;
use spare::queue::Queue;
use spare::ready::ReadySet;
use spare::rule::SpareRule;
use spare::waiting::name_each;
use spare::wheel::Wheel;
use std::test::Fail;

// Is called only where the rule's patience is shown to be this one.
fn has_patience<R: SpareRule>(rule: &R, patience: u32)
    requires { R.SpareRule.patience rule.now ≡ patience }
{}

#[test]
fn sets_have_only_activities(rt: HostRuntime) {
    let set = ReadySet::empty().with(0).with(15).with(16).with(255);
    assert!(rt; set.has(0) && set.has(15));
    assert!(rt; !set.has(1) && !set.has(16) && !set.has(255));
    assert!(rt; !set.is_empty());
    assert!(rt; set.without(0).without(16).has(15));
    assert!(rt; set.without(0).without(15).is_empty());
    assert!(rt; ReadySet::all().has(15) && !ReadySet::all().has(16));
}

#[test]
fn nobody_is_named_from_the_empty_set(rt: HostRuntime) -> Result<(), Fail> {
    let mut queue = Queue::new();
    assert_eq!(rt; queue.choose(ReadySet::empty()), None);
    assert_eq!(rt; queue.order()[0], 0);
    let mut wheel = Wheel::new(rt.alloc())?;
    assert_eq!(rt; wheel.choose(ReadySet::empty()), None);
    assert_eq!(rt; wheel.mark(), 15);
    let mut hold = Hold::new(Queue::new(), 3);
    assert_eq!(rt; hold.choose(ReadySet::all()), Some(0));
    assert_eq!(rt; hold.choose(ReadySet::empty()), None);
    assert_eq!(rt; hold.left(), 3);
    assert_eq!(rt; hold.choose(ReadySet::all()), Some(0));
    assert_eq!(rt; hold.left(), 2);
    Ok(())
}

#[test]
fn the_only_member_is_named(rt: HostRuntime) {
    let only = ReadySet::empty().with(9);
    let mut queue = Queue::new();
    assert_eq!(rt; queue.choose(only), Some(9));
    assert_eq!(rt; queue.choose(only), Some(9));
    assert_eq!(rt; queue.order()[15], 9);
    let mut robin = Hold::new(RoundRobin::new(), 1);
    assert_eq!(rt; robin.choose(only), Some(9));
    assert_eq!(rt; robin.choose(ReadySet::all()), Some(9));
    assert_eq!(rt; robin.choose(ReadySet::all()), Some(10));
}

#[test]
fn all_sixteen_come_in_turn(rt: HostRuntime) -> Result<(), Fail> {
    let mut queue = Queue::new();
    let mut wheel = Wheel::new(rt.alloc())?;
    for activity in 0..16u8 {
        assert_eq!(rt; queue.choose(ReadySet::all()), Some(activity));
        assert_eq!(rt; wheel.choose(ReadySet::all()), Some(activity));
    }
    assert_eq!(rt; queue.choose(ReadySet::all()), Some(0));
    assert_eq!(rt; wheel.choose(ReadySet::all()), Some(0));
    Ok(())
}

#[test]
fn a_hold_of_none_changes_nothing_and_one_of_255_repeats_so_often(rt: HostRuntime) {
    let mut plain = Hold::new(Queue::new(), 0);
    assert_eq!(rt; plain.choose(ReadySet::all()), Some(0));
    assert_eq!(rt; plain.choose(ReadySet::all()), Some(1));
    let mut long = Hold::new(Queue::new(), 255);
    for _ in 0..256u16 {
        assert_eq!(rt; long.choose(ReadySet::all()), Some(0));
    }
    assert_eq!(rt; long.choose(ReadySet::all()), Some(1));
    assert_eq!(rt; long.choose(ReadySet::all().without(1)), Some(2));
    assert_eq!(rt; long.left(), 255);
    assert_eq!(rt; long.choice(), Some(2));
}

// Writes the activities over the first places.
fn put_all(places: &mut [u8]) {
    for (place, activity) in places.iter_mut().zip(0..16) {
        *place = activity;
    }
}

#[test]
fn wheels_of_16_and_64_places(rt: HostRuntime) -> Result<(), Fail> {
    let mut wheel = Wheel::new(rt.alloc())?;
    let back: [u8; 16] = [15, 14, 13, 12, 11, 10, 9, 8, 7, 6, 5, 4, 3, 2, 1, 0];
    wheel.fill(&back)?;
    assert_eq!(rt; wheel.mark(), 15);
    assert_eq!(rt; wheel.choose(ReadySet::all()), Some(15));
    assert_eq!(rt; wheel.mark(), 0);
    let mut places = [3u8; 64];
    put_all(&mut places);
    wheel.fill(&places)?;
    assert_eq!(rt; wheel.places().len(), 64);
    assert_eq!(rt; wheel.mark(), 63);
    assert_eq!(rt; wheel.choose(ReadySet::empty().with(15).with(3)), Some(3));
    assert_eq!(rt; wheel.choose(ReadySet::empty().with(15).with(3)), Some(15));
    assert_eq!(rt; wheel.choose(ReadySet::empty().with(15).with(3)), Some(3));
    assert_eq!(rt; wheel.mark(), 16);
    Ok(())
}

// A wheel that runs backwards, and has named 15 once.
fn turned(rt: HostRuntime) -> Result<Wheel, WheelFault> {
    let mut wheel = Wheel::new(rt.alloc())?;
    let back: [u8; 16] = [15, 14, 13, 12, 11, 10, 9, 8, 7, 6, 5, 4, 3, 2, 1, 0];
    wheel.fill(&back)?;
    let _ = wheel.choose(ReadySet::all());
    Ok(wheel)
}

// Whether the places are refused, and the wheel stays what it was.
fn refuses(wheel: &mut Wheel, places: &[u8]) -> bool {
    let refused = wheel.fill(places) == Err(WheelFault::Places);
    refused && wheel.mark() == 0 && wheel.places().len() == 16 && wheel.places()[1] == 14
}

#[test]
fn tables_that_are_none_are_refused(rt: HostRuntime) -> Result<(), Fail> {
    let mut wheel = turned(rt)?;
    assert!(rt;
        refuses(
            &mut wheel,
            &[0, 1, 2, 3, 4, 5, 6, 7, 8, 9, 10, 11, 12, 13, 14],
        )
    );
    assert!(rt;
        refuses(
            &mut wheel,
            &[0, 1, 2, 3, 4, 5, 6, 7, 8, 9, 10, 11, 12, 13, 14, 14],
        )
    );
    assert!(rt;
        refuses(
            &mut wheel,
            &[0, 1, 2, 3, 4, 5, 6, 7, 8, 9, 10, 11, 12, 13, 14, 15, 16],
        )
    );
    assert!(rt; refuses(&mut wheel, &[]));
    let mut places = [0u8; 65];
    put_all(&mut places);
    assert!(rt; refuses(&mut wheel, &places));
    assert_eq!(rt; wheel.choose(ReadySet::all()), Some(14));
    assert_eq!(rt; WheelFault::Places.number(), Some(25));
    assert_eq!(rt; WheelFault::Memory.number(), None);
    Ok(())
}

#[test]
fn a_hold_over_a_hold_over_a_wheel(rt: HostRuntime) -> Result<(), Fail> {
    let mut rule = Hold::new(Hold::new(Wheel::new(rt.alloc())?, 1), 2);
    has_patience(&rule, 95);
    let mut names = [None; 12];
    let _ = name_each(&mut rule, &[ReadySet::all(); 12], &mut names);
    assert!(rt; names[..6] == [Some(0); 6] && names[6..] == [Some(1); 6]);
    assert_eq!(rt; rule.below().left(), 0);
    assert_eq!(rt; rule.into_below().into_below().mark(), 1);
    Ok(())
}

#[test]
fn many_sets_in_turn(rt: HostRuntime) {
    let sets = [
        ReadySet::all(),
        ReadySet::empty(),
        ReadySet::empty().with(0),
        ReadySet::all(),
    ];
    let mut names = [Some(77u8); 3];
    let mut queue = Queue::new();
    assert_eq!(rt; name_each(&mut queue, &sets, &mut names), 3);
    assert!(rt; names[0] == Some(0) && names[1] == None && names[2] == Some(0));
    assert_eq!(rt; name_each(&mut queue, &sets[0..1], &mut names), 1);
    assert!(rt; names[0] == Some(1) && names[1] == None);
    assert!(rt; held_queue()[2] == Some(1));
}
