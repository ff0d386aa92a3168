// A door: one script begins its constraint and leaves the ticket with the level, and another collects and ends it.
// Neither can be refused its ticket, and that is proved, so neither has to say what it would do with it.
ghost use Rattle.std.specs.Prelude.{ℕ, ℤ};
ghost use Rattle.level.specs.Levels.{meaning};
ghost use Rattle.scripts.specs.Outcomes.{DoorOpened, DoorClosed};
ghost use Rattle.scripts.specs.Plays.{LevelPlays};

use level::level::Level;
use level::refusal::Refusal;
use spare::rule::SpareRule;
use timetable::table::Timetable;

/// Opens the door: it gets `needed` of the ticks from `start` to before `deadline`, and its ticket is left with the level.
pub fn open_door<T: Timetable, R: SpareRule>(
    level: &mut Level<T, R>,
    seat: u16,
    door: u16,
    start: i32,
    needed: u16,
    deadline: i32,
) -> Result<(), Refusal>
    ensures done { DoorOpened (meaning T.Timetable R.SpareRule level.old) seat door start needed deadline result (meaning T.Timetable R.SpareRule level.new) }
    ensures plays { LevelPlays T.Timetable R.SpareRule level.old level.new }
{
    let ticket = level.begin(seat, door, start, needed, deadline)?;
    level.leave(ticket).unwrap();
    Ok(())
}

/// Closes the door that another script opened, and returns the ticks that it ran.
pub fn close_door<T: Timetable, R: SpareRule>(
    level: &mut Level<T, R>,
    seat: u16,
) -> Result<u32, Refusal>
    ensures done { DoorClosed (meaning T.Timetable R.SpareRule level.old) seat result (meaning T.Timetable R.SpareRule level.new) }
    ensures plays { LevelPlays T.Timetable R.SpareRule level.old level.new }
{
    let ticket = level.collect(seat)?;
    Ok(level.end(ticket).unwrap())
}
