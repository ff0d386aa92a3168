// A level, and its opening.
ghost use Rattle.std.specs.Prelude.{◌≡◌, ℕ, ℤ};
ghost use Rattle.level.specs.Levels.{meaning, opening, timetable_of, rule_of, Opened};

use crate::inner::Inner;
use spare::rule::SpareRule;
use timetable::table::Timetable;

/// Sixteen activities and sixteen seats that share one clock, over a timetable and a spare rule. No call of it allocates.
// No model: what a level means (`meaning` in specs/) has functions in it, and a model's value is data.
#[derive(Drop)]
pub struct Level<T: Timetable, R: SpareRule> {
    pub(crate) timetable: T,
    pub(crate) rule: R,
    pub(crate) inner: Inner,
}

impl<T: Timetable, R: SpareRule> Level<T, R> {
    /// Opens a level: all activities are blocked, and all seats unused. It never refuses.
    pub fn open(number: u32, clock: i32, timetable: T, rule: R) -> Level<T, R>
        ensures opened { Opened number (opening T.Timetable R.SpareRule clock timetable rule) (meaning T.Timetable R.SpareRule result) }
        ensures timetable { timetable_of result ≡ timetable }
        ensures rule { rule_of result ≡ rule }
    {
        Level {
            timetable,
            rule,
            inner: Inner::fresh(number, clock),
        }
    }
}
