// Activities become ready, and are blocked.
ghost use Rattle.std.specs.Prelude.{ℕ, ℤ};
ghost use Rattle.level.specs.Levels.{Calls, wake_event, block_event};

use crate::activity::known;
use crate::level::Level;
use crate::refusal::Refusal;
use spare::rule::SpareRule;
use timetable::table::Timetable;

// Two calls of two lines: a function of both would take the one word that differs, a method of the set, and be no shorter.
impl<T: Timetable, R: SpareRule> Level<T, R> {
    /// The activity is ready from now on. Waking one that is ready already is allowed.
    pub fn wake(&mut self, activity: u16) -> Result<(), Refusal>
        ensures { Calls T.Timetable R.SpareRule self.old (wake_event activity result) self.new }
    {
        let activity = known(activity)?;
        self.inner.ready = self.inner.ready.with(activity);
        Ok(())
    }

    /// The activity is blocked from now on. Blocking one that is blocked already is allowed.
    pub fn block(&mut self, activity: u16) -> Result<(), Refusal>
        ensures { Calls T.Timetable R.SpareRule self.old (block_event activity result) self.new }
    {
        let activity = known(activity)?;
        self.inner.ready = self.inner.ready.without(activity);
        Ok(())
    }
}
