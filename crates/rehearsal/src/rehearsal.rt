// A rehearsal: a reader of the script, a level, and the ticks that are still to be run of a line.
use command::reader::Reader;
use level::level::Level;
use row::row::Row;
use spare::rule::SpareRule;
use timetable::table::Timetable;

/// A script that is played on a level. It is asked for one call after another, and allocates nothing.
// No model, as `Level` has none: `state` and `standing` in specs/ say where it stands.
#[derive(Drop)]
pub struct Rehearsal<'a, T: Timetable, R: SpareRule> {
    pub(crate) reader: Reader<'a>,
    pub(crate) level: Level<T, R>,
    pub(crate) ticks: u16,
}

/// What comes of one call of a rehearsal.
// Three ways: an `Option<Option<Row>>` would not say which of its two ends is the end.
#[derive(Clone, Copy)]
pub enum Progress {
    /// This row.
    Told(Row),
    /// No row, and the rehearsal goes on.
    Silent,
    /// No row: all is played.
    Over,
}
