// A rehearsal is played to its end.
ghost use Rattle.std.specs.Prelude.{ℕ};
ghost use Rattle.rehearsal.specs.Onwards.{standing};
ghost use Rattle.rehearsal.specs.Runs.{Runs};

use crate::rehearsal::{Progress, Rehearsal};
use row::buffer::RowBuffer;
use row::sink::Sink;
use spare::rule::SpareRule;
use timetable::table::Timetable;

impl<T: Timetable, R: SpareRule> Rehearsal<'_, T, R> {
    /// Plays all that is left, and hands the rows to the sink. Where the sink refuses, nothing more is played.
    pub fn run<S: Sink>(&mut self, sink: &mut S) -> Result<(), S::Fault>
        ensures { Runs R.SpareRule S.Sink.hands (standing T.Timetable R.SpareRule self.old) sink.old result (standing T.Timetable R.SpareRule self.new) sink.new }
    {
        let mut rows = RowBuffer::new();
        loop {
            match self.advance() {
                Progress::Told(row) => rows.put(&row, sink)?,
                Progress::Silent => {}
                Progress::Over => return rows.flush(sink),
            }
        }
    }
}
