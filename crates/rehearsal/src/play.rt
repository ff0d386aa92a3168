// Commands played on a level: the calls that each makes, and the row of their answers.
ghost use Rattle.std.specs.Prelude.{ℕ, [], ◌∷◌, ℤ};
ghost use Rattle.command.specs.declared.command.Command.TheVariants.{Wake, Block, Begin, End};
ghost use Rattle.level.specs.Levels.{meaning};
ghost use Rattle.rehearsal.specs.Played.{Woken, Blocked, Ticks, Begun, Finished};
ghost use Rattle.rehearsal.specs.Stages.{stage, PlaysCommand, PlaysTick, rows_in};

use level::level::Level;
use row::row::Row;
use spare::rule::SpareRule;
use timetable::table::Timetable;

// A wake and a block are played by two functions of two lines: one for both would take the call and the row as closures.

/// Plays `w A`: nothing is told where the level accepts it.
pub fn play_wake<T: Timetable, R: SpareRule>(level: &mut Level<T, R>, activity: u16) -> Option<Row>
    ensures calls { Woken (meaning T.Timetable R.SpareRule level.old) activity result (meaning T.Timetable R.SpareRule level.new) }
    ensures plays { PlaysCommand R.SpareRule (stage T.Timetable R.SpareRule level.old) (Wake activity) (rows_in result) (stage T.Timetable R.SpareRule level.new) }
{
    let refusal = level.wake(activity).err()?;
    Some(Row::WakeRefused {
        activity,
        number: refusal.number(),
    })
}

/// Plays `b A`: nothing is told where the level accepts it.
pub fn play_block<T: Timetable, R: SpareRule>(level: &mut Level<T, R>, activity: u16) -> Option<Row>
    ensures calls { Blocked (meaning T.Timetable R.SpareRule level.old) activity result (meaning T.Timetable R.SpareRule level.new) }
    ensures plays { PlaysCommand R.SpareRule (stage T.Timetable R.SpareRule level.old) (Block activity) (rows_in result) (stage T.Timetable R.SpareRule level.new) }
{
    let refusal = level.block(activity).err()?;
    Some(Row::BlockRefused {
        activity,
        number: refusal.number(),
    })
}

/// Plays one tick.
pub fn play_tick<T: Timetable, R: SpareRule>(level: &mut Level<T, R>) -> Row
    ensures calls { Ticks (meaning T.Timetable R.SpareRule level.old) result (meaning T.Timetable R.SpareRule level.new) }
    ensures plays { PlaysTick R.SpareRule (stage T.Timetable R.SpareRule level.old) result (stage T.Timetable R.SpareRule level.new) }
{
    match level.tick() {
        Ok(ticked) => Row::Ran {
            tick: ticked.tick,
            runner: ticked.runner,
            letter: ticked.letter,
        },
        Err(refusal) => Row::TickRefused {
            number: refusal.number(),
        },
    }
}

/// Plays `c SEAT A START DEADLINE E`: the constraint begins, and its ticket is left with the level.
pub fn play_begin<T: Timetable, R: SpareRule>(
    level: &mut Level<T, R>,
    seat: u16,
    activity: u16,
    start: i32,
    deadline: i32,
    estimate: u16,
) -> Row
    ensures calls { Begun (meaning T.Timetable R.SpareRule level.old) seat activity start deadline estimate result (meaning T.Timetable R.SpareRule level.new) }
    ensures plays { PlaysCommand R.SpareRule (stage T.Timetable R.SpareRule level.old) (Begin seat activity start deadline estimate) (result ∷ []) (stage T.Timetable R.SpareRule level.new) }
{
    match level.begin(seat, activity, start, estimate, deadline) {
        Ok(ticket) => {
            level.leave(ticket).unwrap();
            Row::Began { seat }
        }
        Err(refusal) => Row::BeginRefused {
            seat,
            number: refusal.number(),
        },
    }
}

/// Plays `e SEAT`: the ticket that was left there is collected, and its constraint ended.
pub fn play_end<T: Timetable, R: SpareRule>(level: &mut Level<T, R>, seat: u16) -> Row
    ensures calls { Finished (meaning T.Timetable R.SpareRule level.old) seat result (meaning T.Timetable R.SpareRule level.new) }
    ensures plays { PlaysCommand R.SpareRule (stage T.Timetable R.SpareRule level.old) (End seat) (result ∷ []) (stage T.Timetable R.SpareRule level.new) }
{
    match level.collect(seat) {
        Ok(ticket) => Row::Ended {
            seat,
            taken: level.end(ticket).unwrap(),
        },
        Err(refusal) => Row::EndRefused {
            seat,
            number: refusal.number(),
        },
    }
}
