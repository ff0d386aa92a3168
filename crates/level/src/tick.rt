// Ticks are run.
ghost use Rattle.std.specs.Prelude.{◌≡◌, ℕ, ℤ};
ghost use Rattle.level.specs.Levels.{meaning, timetable_of, Called, tick_event, AsksOnce};

use crate::level::Level;
use crate::refusal::Refusal;
use crate::ticked::Ticked;
use spare::rule::SpareRule;
use timetable::table::Timetable;

impl<T: Timetable, R: SpareRule> Level<T, R> {
    /// Runs the tick at the clock, and moves the clock on by one. A marked tick is run by its seat's activity, if that is ready, and an
    /// unmarked one by its owner, if that is; else the spare rule is asked, once, who of all that are ready runs it.
    pub fn tick(&mut self) -> Result<Ticked, Refusal>
        ensures called { Called (meaning T.Timetable R.SpareRule self.old) (tick_event result) (meaning T.Timetable R.SpareRule self.new) }
        ensures asks { AsksOnce R.SpareRule self.old result self.new }
        ensures timetable { timetable_of self.new ≡ timetable_of self.old }
    {
        if self.inner.at_end() {
            return Err(Refusal::ClockAtEnd);
        }
        let ticked = self.give_tick();
        self.inner.advance(ticked);
        Ok(ticked)
    }
}
