// The worked examples of begin on the example plan.
use cases::example_plan;
use level::level::Level;
use level::refusal::Refusal;
use plan::plan::Plan;
use scripts::door::open_door;
use spare::queue::Queue;
use std::test::Fail;

// Whether exactly these ticks from 205 to 274 are marked for the seat.
fn marks_are(level: &Level<Plan, Queue>, seat: u8, ticks: &[i32]) -> bool {
    (205..275).all(|t| (level.marked_for(t) == Some(seat)) == ticks.contains(&t))
}

fn run_to(level: &mut Level<Plan, Queue>, clock: i32) {
    for _k in 0..64u8 {
        if level.clock() < clock {
            let _ = level.tick();
        }
    }
}

#[test]
fn own_ticks_come_first_and_then_free_ones(rt: HostRuntime) -> Result<(), Fail> {
    let mut level = Level::open(0, 205, example_plan(rt.alloc())?, Queue::new());
    assert_eq!(rt; open_door(&mut level, 0, 0, 230, 11, 270), Ok(()));
    assert!(rt;
        marks_are(
            &level,
            0,
            &[244, 245, 246, 247, 264, 265, 266, 267, 248, 249, 257],
        )
    );
    run_to(&mut level, 213);
    assert_eq!(rt; open_door(&mut level, 1, 4, 215, 11, 265), Ok(()));
    assert!(rt;
        marks_are(
            &level,
            1,
            &[223, 233, 243, 253, 263, 217, 218, 219, 228, 229, 258],
        )
    );
    run_to(&mut level, 225);
    assert_eq!(rt; level.clock(), 225);
    assert_eq!(rt;
        open_door(&mut level, 2, 0, 225, 10, 270),
        Err(Refusal::TooFew { available: 6 })
    );
    Ok(())
}
