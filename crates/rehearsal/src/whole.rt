// Whole rehearsals.
ghost use Rattle.std.specs.Prelude.{◌≡◌, ℕ, ℤ};
ghost use Rattle.rehearsal.specs.Whole.{output_of, TellsScript, ScriptRowsOnce, Tells, RowsOnce};

use crate::fault::RehearsalFault;
use crate::rehearsal::Rehearsal;
use command::opening::read_opening;
use level::level::Level;
use plan::plan::Plan;
use reservation::reservation::Reservation;
use row::gather::hand_row;
use row::row::Row;
use row::sink::Sink;
use sheet::load::load;
use spare::hold::Hold;
use spare::queue::Queue;
use std::alloc::Global;
use timetable::table::Timetable;

/// Plays a script on a level over the timetable, and hands the rows to the sink.
pub fn rehearse_on<T: Timetable + Drop, S: Sink>(
    timetable: T,
    script: &[u8],
    sink: &mut S,
) -> Result<(), S::Fault>
    ensures told { TellsScript S.Sink.hands (T.Timetable.owner timetable) (T.Timetable.cycle timetable) script.now sink.old result sink.new }
    ensures once { ScriptRowsOnce }
{
    match read_opening(script) {
        Ok(opening) => {
            let rule = Hold::new(Queue::new(), opening.repeats);
            let level = Level::open(0, opening.clock, timetable, rule);
            let mut rehearsal = Rehearsal::new(opening.reader, level);
            rehearsal.run(sink)
        }
        Err(fault) => hand_row(&Row::Malformed { line: fault.line() }, sink),
    }
}

/// Plays a script on a level over the plan of a sheet, and hands the rows to the sink. Of a sheet that is refused only `? 0` is told.
pub fn rehearse<S: Sink>(
    heap: Global,
    sheet: &[u8],
    script: &[u8],
    sink: &mut S,
) -> Result<(), RehearsalFault<S::Fault>>
    ensures told { Tells S.Sink.hands sheet.now script.now sink.old result sink.new }
    ensures once { RowsOnce }
{
    let mut plan = Plan::empty(heap);
    let mut list = [Reservation::default(); 16];
    match load(sheet, &mut plan, &mut list) {
        Ok(_) => rehearse_on(plan, script, sink).map_err(RehearsalFault::Output),
        // No `ok_or` and `?`: `ok_or` asks that its error can be dropped, and so the fault of any sink.
        Err(fault) => match fault.number() {
            Some(_) => hand_row(&Row::Malformed { line: 0 }, sink).map_err(RehearsalFault::Output),
            None => Err(RehearsalFault::Memory),
        },
    }
}
