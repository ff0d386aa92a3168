// Several levels, over different timetables and rules, that tick side by side.
ghost use Rattle.std.specs.Prelude.{ℕ, ℤ, pos};
ghost use Rattle.level.specs.Levels.{meaning, opening, wake_event, tick_event};
ghost use Rattle.level.specs.Meaning.{Rule};
ghost use Rattle.level.specs.Together.{Opening};
ghost use Rattle.scripts.specs.Stories.{TicksBoth, Story};

use level::level::Level;
use level::refusal::Refusal;
use level::ticked::Ticked;
use spare::rule::SpareRule;
use timetable::table::Timetable;

/// Runs a tick of each. Whatever levels there are besides, and whatever was done to all of them before: all promises hold of the history
/// that these two calls go on with.
pub fn tick_both<T: Timetable, R: SpareRule, U: Timetable, S: SpareRule>(
    left: &mut Level<T, R>,
    right: &mut Level<U, S>,
) -> (Result<Ticked, Refusal>, Result<Ticked, Refusal>)
    ensures { TicksBoth (meaning T.Timetable R.SpareRule left.old) (tick_event result.0) (meaning T.Timetable R.SpareRule left.new) (meaning U.Timetable S.SpareRule right.old) (tick_event result.1) (meaning U.Timetable S.SpareRule right.new) }
{
    let first = left.tick();
    let second = right.tick();
    (first, second)
}

/// Two levels, and the answers of the calls that were made on them.
#[derive(Drop)]
pub struct Played<T: Timetable, R: SpareRule, U: Timetable, S: SpareRule> {
    pub left: Level<T, R>,
    pub right: Level<U, S>,
    pub woken: Result<(), Refusal>,
    pub first: Result<Ticked, Refusal>,
    pub second: Result<Ticked, Refusal>,
}

/// Opens two levels under the numbers 0 and 1, wakes an activity of the first, and runs a tick of each. The contract has the list of
/// these five entries, and that every promise holds of it.
pub fn play<T: Timetable, R: SpareRule, U: Timetable, S: SpareRule>(
    timetable: T,
    rule: R,
    other: U,
    another: S,
    activity: u16,
) -> Played<T, R, U, S>
    ensures { Story (opening T.Timetable R.SpareRule (pos 0) timetable rule) (opening U.Timetable S.SpareRule (pos 0) other another) (wake_event activity result.woken) (tick_event result.first) (tick_event result.second) (meaning T.Timetable R.SpareRule result.left) (meaning U.Timetable S.SpareRule result.right) }
{
    let mut left = Level::open(0, 0, timetable, rule);
    let mut right = Level::open(1, 0, other, another);
    let woken = left.wake(activity);
    let (first, second) = tick_both(&mut left, &mut right);
    Played {
        left,
        right,
        woken,
        first,
        second,
    }
}
