// A lift, which asks for the ticks of a ride before it moves.
ghost use Rattle.std.specs.Prelude.{ℕ, ℤ};
ghost use Rattle.level.specs.Levels.{meaning};
ghost use Rattle.scripts.specs.Outcomes.{Ridden};
ghost use Rattle.scripts.specs.Plays.{LevelPlays};

use crate::outcome::{Failure, finish};
use level::level::Level;
use spare::rule::SpareRule;
use timetable::table::Timetable;

// Runs so many ticks.
fn run<T: Timetable, R: SpareRule>(level: &mut Level<T, R>, ticks: u16)
    ensures { LevelPlays T.Timetable R.SpareRule level.old level.new }
{
    for _ in 0..ticks {
        let _ = level.tick();
    }
}

/// Rides once: the lift gets `needed` of the next `length` ticks, the ticks are run, and the constraint is ended. Returns the ticks that it ran.
pub fn ride<T: Timetable, R: SpareRule>(
    level: &mut Level<T, R>,
    seat: u16,
    lift: u16,
    needed: u16,
    length: u16,
) -> Result<u32, Failure>
    ensures done { (deadline : ℤ) × Ridden (meaning T.Timetable R.SpareRule level.old) seat lift needed deadline result (meaning T.Timetable R.SpareRule level.new) }
    ensures plays { LevelPlays T.Timetable R.SpareRule level.old level.new }
{
    let start = level.clock();
    let deadline = start.saturating_add(i32::from(length));
    let ticket = level.begin(seat, lift, start, needed, deadline)?;
    run(level, length);
    finish(level, ticket)
}
