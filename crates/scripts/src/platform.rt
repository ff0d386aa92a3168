// A platform, which begins its way back before its way out is over.
ghost use Rattle.std.specs.Prelude.{ℕ, ℤ};
ghost use Rattle.level.specs.Levels.{meaning};
ghost use Rattle.scripts.specs.Outcomes.{Shuttled};
ghost use Rattle.scripts.specs.Plays.{LevelPlays};

use crate::outcome::{Failure, finish};
use level::level::Level;
use spare::rule::SpareRule;
use timetable::table::Timetable;

/// Goes out and back, at the seats `out` and `back`, with `needed` of `length` ticks each. The second constraint begins before the first
/// one ends. Returns what became of both.
pub fn shuttle<T: Timetable, R: SpareRule>(
    level: &mut Level<T, R>,
    out: u16,
    back: u16,
    platform: u16,
    needed: u16,
    length: u16,
) -> (Result<u32, Failure>, Result<u32, Failure>)
    ensures done { Shuttled (meaning T.Timetable R.SpareRule level.old) out back platform needed result.0 result.1 (meaning T.Timetable R.SpareRule level.new) }
    ensures plays { LevelPlays T.Timetable R.SpareRule level.old level.new }
{
    let start = level.clock();
    let turn = start.saturating_add(i32::from(length));
    let home = turn.saturating_add(i32::from(length));
    // By match: `?` would need one result, and this has two.
    let first = match level.begin(out, platform, start, needed, turn) {
        Ok(first) => first,
        Err(refusal) => return (Err(refusal.into()), Err(refusal.into())),
    };
    match level.begin(back, platform, turn, needed, home) {
        Ok(second) => (finish(level, first), finish(level, second)),
        Err(refusal) => (finish(level, first), Err(refusal.into())),
    }
}
