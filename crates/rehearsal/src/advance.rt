// How a rehearsal goes on.
ghost use Rattle.std.specs.Prelude.{◌≡◌, ℕ, ◌<◌, true, [], ◌∷◌, ℤ, is_ok, ◌≢◌};
ghost use Rattle.command.specs.Grammar.{ReadsNumbered, ReadOnce};
ghost use Rattle.command.specs.Reading.{next_line};
ghost use Rattle.rehearsal.specs.Onwards.{standing, RunsTick, StopsAt, LineGoes, RunsNext, RunsOn};
ghost use Rattle.rehearsal.specs.Rehearsals.{state, Starting, TickRun, Refused, Follows, NextLine, Goes};
ghost use Rattle.rehearsal.specs.Stages.{rows_in};

use crate::play::{play_begin, play_block, play_end, play_tick, play_wake};
use crate::rehearsal::{Progress, Rehearsal};
use command::command::{Command, ScriptFault};
use command::reader::Reader;
use level::level::Level;
use row::row::Row;
use spare::rule::SpareRule;
use timetable::table::Timetable;

impl<'a, T: Timetable, R: SpareRule> Rehearsal<'a, T, R> {
    /// A rehearsal that plays on the level what the reader still has.
    pub fn new(reader: Reader<'a>, level: Level<T, R>) -> Rehearsal<'a, T, R>
        ensures { Starting reader.entry level result }
    {
        Rehearsal {
            reader,
            level,
            ticks: 0,
        }
    }

    // Runs one of the ticks of the line before.
    fn run_tick(&mut self) -> Row
        requires { 0 < self.old.ticks }
        ensures goes { TickRun (state T.Timetable R.SpareRule self.old) result (state T.Timetable R.SpareRule self.new) }
        ensures runs { RunsTick R.SpareRule (standing T.Timetable R.SpareRule self.old) result (standing T.Timetable R.SpareRule self.new) }
    {
        let row = play_tick(&mut self.level);
        self.ticks = match row {
            Row::Ran { .. } => self.ticks - 1,
            _ => 0,
        };
        row
    }

    // The line is malformed: nothing is read after it. That no tick of a line is left is asked here and of the next two (`advance` tests
    // it), and is no fact of the type.
    fn refuse(&mut self, line: u32) -> Row
        requires { self.old.ticks ≡ 0 }
        ensures goes { Refused (state T.Timetable R.SpareRule self.old) line result (state T.Timetable R.SpareRule self.new) }
        ensures runs { StopsAt R.SpareRule (standing T.Timetable R.SpareRule self.old) line (result ∷ []) (standing T.Timetable R.SpareRule self.new) }
    {
        self.reader.skip_all();
        Row::Malformed { line }
    }

    // Plays the command of a line; one that opens is malformed.
    fn play(&mut self, line: u32, command: Command) -> Option<Row>
        requires { self.old.ticks ≡ 0 }
        ensures goes { Follows (state T.Timetable R.SpareRule self.old) line command result (state T.Timetable R.SpareRule self.new) }
        ensures runs { LineGoes R.SpareRule (standing T.Timetable R.SpareRule self.old) line command (rows_in result) (standing T.Timetable R.SpareRule self.new) }
    {
        match command {
            Command::Open { .. } => Some(self.refuse(line)),
            Command::Wake { activity } => play_wake(&mut self.level, activity),
            Command::Block { activity } => play_block(&mut self.level, activity),
            Command::Tick { count } => {
                self.ticks = count;
                None
            }
            Command::Begin {
                seat,
                activity,
                start,
                deadline,
                estimate,
            } => Some(play_begin(&mut self.level, seat, activity, start, deadline, estimate)),
            Command::End { seat } => Some(play_end(&mut self.level, seat)),
        }
    }

    // Reads the next line, and tells its number with its command.
    fn read_line(&mut self) -> Result<(u32, Command), ScriptFault>
        ensures reads { ReadsNumbered self.old.reader.rest self.old.reader.line result self.new.reader.rest }
        ensures line { is_ok result ≡ true → self.new.reader.line ≡ next_line self.old.reader.line }
        ensures once { ReadOnce }
        ensures ticks { self.new.ticks ≡ self.old.ticks }
        ensures level { self.new.level ≡ self.old.level }
    {
        self.reader.numbered_command()
    }

    // Plays the next line.
    fn play_line(&mut self) -> Option<Row>
        requires { (self.old.ticks ≡ 0) × (self.old.reader.rest ≢ []) }
        ensures goes { NextLine (state T.Timetable R.SpareRule self.old) result (state T.Timetable R.SpareRule self.new) }
        ensures runs { RunsNext R.SpareRule (standing T.Timetable R.SpareRule self.old) result (standing T.Timetable R.SpareRule self.new) }
    {
        match self.read_line() {
            Ok((line, command)) => self.play(line, command),
            Err(ScriptFault::Malformed { line }) => Some(self.refuse(line)),
        }
    }

    /// Makes the next call that the script says: a tick still to be run of a line, or else what the next line says.
    pub fn advance(&mut self) -> Progress
        ensures goes { Goes (state T.Timetable R.SpareRule self.old) result (state T.Timetable R.SpareRule self.new) }
        ensures runs { RunsOn R.SpareRule (standing T.Timetable R.SpareRule self.old) result (standing T.Timetable R.SpareRule self.new) }
    {
        if self.ticks > 0 {
            return Progress::Told(self.run_tick());
        }
        if self.reader.at_end() {
            return Progress::Over;
        }
        self.play_line().map_or(Progress::Silent, Progress::Told)
    }
}
