// Refusals in their order, both ends of the clock, full windows, all seats, and tickets of other levels.
use crate::beyond::seat_beyond;
use crate::foreign::end_elsewhere_first;
use cases::free::Free;
use level::level::Level;
use level::refusal::Refusal;
use level::ticked::{Letter, Ticked};
use scripts::door::{close_door, open_door};
use spare::queue::Queue;
use std::test::Fail;

fn free_level(number: u32, clock: i32) -> Level<Free, Queue> {
    Level::open(number, clock, Free, Queue::new())
}

#[test]
fn the_clock_ends_at_its_last_value(rt: HostRuntime) {
    let mut level = free_level(1, i32::MAX - 1);
    let idle = Ticked {
        tick: i32::MAX - 1,
        runner: None,
        letter: Letter::Idle,
    };
    assert_eq!(rt; level.tick(), Ok(idle));
    assert_eq!(rt; level.tick(), Err(Refusal::ClockAtEnd));
    assert_eq!(rt; level.clock(), i32::MAX);
}

#[test]
fn the_clock_begins_at_its_least_value(rt: HostRuntime) {
    let mut level = free_level(u32::MAX, i32::MIN);
    assert_eq!(rt; level.wake(15), Ok(()));
    let spare = Ticked {
        tick: i32::MIN,
        runner: Some(15),
        letter: Letter::Spare,
    };
    assert_eq!(rt; level.tick(), Ok(spare));
    assert_eq!(rt; level.used(15), Ok(1));
    assert_eq!(rt; level.number(), u32::MAX);
}

#[test]
fn refusals_come_in_the_order_of_their_numbers(rt: HostRuntime) {
    let mut level = free_level(1, 10);
    assert_eq!(rt;
        open_door(&mut level, 16, 16, 9, 0, 9),
        Err(Refusal::UnknownActivity)
    );
    assert_eq!(rt;
        open_door(&mut level, 16, 15, 9, 0, 9),
        Err(Refusal::ZeroEstimate)
    );
    assert_eq!(rt;
        open_door(&mut level, 16, 15, 9, 2, 9),
        Err(Refusal::EarlyStart)
    );
    assert_eq!(rt;
        open_door(&mut level, 16, 15, 10, 2, 10),
        Err(Refusal::BadDeadline)
    );
    assert_eq!(rt;
        open_door(&mut level, 16, 15, 10, 2, 1035),
        Err(Refusal::BadDeadline)
    );
    assert_eq!(rt;
        open_door(&mut level, 16, 15, 10, 2, 11),
        Err(Refusal::SeatUnavailable)
    );
    assert_eq!(rt;
        open_door(&mut level, 15, 15, 10, 2, 11),
        Err(Refusal::TooFew { available: 1 })
    );
    assert_eq!(rt; open_door(&mut level, 15, 15, 10, 1, 11), Ok(()));
    assert_eq!(rt;
        open_door(&mut level, 15, 15, 10, 1, 11),
        Err(Refusal::SeatUnavailable)
    );
}

#[test]
fn activities_and_seats_end_at_fifteen(rt: HostRuntime) {
    let mut level = free_level(1, 0);
    assert_eq!(rt; level.wake(16), Err(Refusal::UnknownActivity));
    assert_eq!(rt; level.block(65535), Err(Refusal::UnknownActivity));
    assert_eq!(rt; level.used(16), Err(Refusal::UnknownActivity));
    assert_eq!(rt; close_door(&mut level, 16), Err(Refusal::NoTicketLeft));
    assert_eq!(rt; close_door(&mut level, 15), Err(Refusal::NoTicketLeft));
    assert!(rt; !level.is_ready(16));
    assert!(rt; level.seat(16).is_none());
}

#[test]
fn a_window_of_1024_reaches_across_zero(rt: HostRuntime) {
    let mut level = free_level(1, -512);
    assert_eq!(rt;
        open_door(&mut level, 0, 3, -512, 1024, 513),
        Err(Refusal::BadDeadline)
    );
    assert_eq!(rt; open_door(&mut level, 0, 3, -512, 1024, 512), Ok(()));
    assert_eq!(rt; level.marked_for(-512), Some(0));
    assert_eq!(rt; level.marked_for(511), Some(0));
    assert_eq!(rt; level.marked_for(512), None);
    assert_eq!(rt;
        open_door(&mut level, 1, 3, -1, 1, 1),
        Err(Refusal::TooFew { available: 0 })
    );
    assert_eq!(rt; close_door(&mut level, 0), Ok(0));
    assert_eq!(rt; level.marked_for(-1), None);
}

#[test]
fn a_window_reaches_to_the_end_of_the_clock(rt: HostRuntime) {
    let mut level = free_level(1, i32::MAX - 1023);
    assert_eq!(rt;
        open_door(&mut level, 0, 3, i32::MAX - 1023, 1024, i32::MAX),
        Err(Refusal::TooFew { available: 1023 })
    );
    assert_eq!(rt;
        open_door(&mut level, 0, 3, i32::MAX - 1, 1, i32::MAX),
        Ok(())
    );
    assert_eq!(rt; level.marked_for(i32::MAX - 1), Some(0));
    assert_eq!(rt; level.marked_for(i32::MAX), None);
}

#[test]
fn all_sixteen_seats_run_their_own_ticks(rt: HostRuntime) {
    let mut level = free_level(7, 0);
    for seat in 0..16u16 {
        assert_eq!(rt; level.wake(seat), Ok(()));
        assert_eq!(rt; open_door(&mut level, seat, 15 - seat, 0, 1, 16), Ok(()));
    }
    assert!(rt; seat_beyond(&level, 15).is_some());
    assert!(rt; seat_beyond(&level, 16).is_none());
    for seat in 0..16u8 {
        let run = Ticked {
            tick: i32::from(seat),
            runner: Some(15 - seat),
            letter: Letter::Constrained { seat },
        };
        assert_eq!(rt; level.tick(), Ok(run));
    }
    for seat in 0..16u16 {
        assert_eq!(rt; close_door(&mut level, seat), Ok(1));
        assert_eq!(rt; close_door(&mut level, seat), Err(Refusal::NoTicketLeft));
    }
}

#[test]
fn a_blocked_holder_loses_its_mark_to_the_rule(rt: HostRuntime) {
    let mut level = free_level(7, 0);
    assert_eq!(rt; open_door(&mut level, 2, 3, 0, 1, 1), Ok(()));
    assert_eq!(rt; level.wake(9), Ok(()));
    let spare = Ticked {
        tick: 0,
        runner: Some(9),
        letter: Letter::Spare,
    };
    assert_eq!(rt; level.tick(), Ok(spare));
    assert_eq!(rt; close_door(&mut level, 2), Ok(0));
}

#[test]
fn a_ticket_of_another_level_comes_back(rt: HostRuntime) {
    let mut home = free_level(1, 0);
    let mut other = free_level(2, 0);
    assert_eq!(rt; open_door(&mut other, 4, 3, 0, 1, 9), Ok(()));
    assert_eq!(rt;
        end_elsewhere_first(&mut home, &mut other, 4, 3, 9),
        Ok((Some(Refusal::InvalidTicket), 0))
    );
    assert!(rt; home.seat(4).is_none());
    assert!(rt; other.seat(4).is_some());
}

#[test]
fn texts_of_refusals(rt: HostRuntime) -> Result<(), Fail> {
    let texts = [
        (Refusal::ClockAtEnd, "1: the clock stands at its last value"),
        (Refusal::UnknownActivity, "2: the activity is above 15"),
        (Refusal::ZeroEstimate, "3: the estimate is 0"),
        (Refusal::EarlyStart, "4: the start lies before the clock"),
        (
            Refusal::BadDeadline,
            "5: the deadline does not come after the start, or lies over 1,024 ticks past the clock",
        ),
        (
            Refusal::SeatUnavailable,
            "6: the seat is above 15, or in use",
        ),
        (
            Refusal::TooFew { available: 6 },
            "7: only 6 ticks are available",
        ),
        (
            Refusal::InvalidTicket,
            "8: the ticket is of another level, or no ticket of its seat is out",
        ),
        (Refusal::NoTicketLeft, "9: no ticket was left at the seat"),
    ];
    for (refusal, text) in texts {
        assert!(rt; refusal.to_string(rt.alloc())?.as_str() == text);
    }
    Ok(())
}
