// Any number of levels that tick in turn.
ghost use Rattle.std.specs.Prelude.{◌≡◌, ℕ, ◌<◌, map, length, ℤ, slice_index_or};
ghost use Rattle.level.specs.Levels.{meaning};
ghost use Rattle.scripts.specs.Rows.{TickedOnce, RowPlays};

use level::level::Level;
use spare::rule::SpareRule;
use timetable::table::Timetable;

/// Runs a tick of each. If they have different numbers, then whatever levels there are besides and whatever was done before, all promises
/// hold of all levels afterwards.
pub fn tick_all<T: Timetable, R: SpareRule>(levels: &mut [Level<T, R>])
    ensures each { (k : ℕ) (d : Level T R) → k < length levels.old → TickedOnce (meaning T.Timetable R.SpareRule (slice_index_or levels.old k d)) (meaning T.Timetable R.SpareRule (slice_index_or levels.new k d)) }
    ensures size { length levels.new ≡ length levels.old }
    ensures plays { RowPlays (map (meaning T.Timetable R.SpareRule) levels.old) (map (meaning T.Timetable R.SpareRule) levels.new) }
{
    for level in levels.iter_mut() {
        let _ = level.tick();
    }
}
