// What can be asked of a level. No question changes it.
ghost use Rattle.std.specs.Prelude.{◌≡◌, ℕ, ℤ};
ghost use Rattle.level.specs.Levels.{meaning, timetable_of, rule_of, Calls, used_event};

use crate::activity::known;
use crate::constraint::Constraint;
use crate::level::Level;
use crate::refusal::Refusal;
use spare::rule::SpareRule;
use timetable::table::Timetable;

impl<T: Timetable, R: SpareRule> Level<T, R> {
    /// How many ticks the activity has run.
    pub fn used(&self, activity: u16) -> Result<u32, Refusal>
        ensures { Calls T.Timetable R.SpareRule self.now (used_event activity result) self.now }
    {
        let activity = known(activity)?;
        Ok(self.inner.used[usize::from(activity)])
    }

    /// The number that the level was opened under.
    pub fn number(&self) -> u32
        ensures { result ≡ (meaning T.Timetable R.SpareRule self.now).number }
    {
        self.inner.number
    }

    /// The next tick to run.
    pub fn clock(&self) -> i32
        ensures { result ≡ (meaning T.Timetable R.SpareRule self.now).clock }
    {
        self.inner.clock
    }

    /// Whether the activity is ready; one above 15 never is.
    pub fn is_ready(&self, activity: u16) -> bool
        ensures { result ≡ (meaning T.Timetable R.SpareRule self.now).ready activity }
    {
        known(activity).is_ok_and(|activity| self.inner.ready.has(activity))
    }

    /// What the seat holds, if it is in use; one above 15 never is.
    pub fn seat(&self, seat: u16) -> Option<Constraint>
        ensures { result ≡ (meaning T.Timetable R.SpareRule self.now).seats seat }
    {
        self.inner.held(seat)
    }

    /// The seat that the tick is marked for, if the mark is still to come.
    pub fn marked_for(&self, t: i32) -> Option<u8>
        ensures { result ≡ (meaning T.Timetable R.SpareRule self.now).marks t }
    {
        let ahead = i64::from(t) - i64::from(self.clock());
        // By two tests: with `(0..1024).contains(&ahead)` (tried) the proof did not close.
        if ahead < 0 || ahead >= 1024 {
            return None;
        }
        self.inner.board.holder_at(t)
    }

    /// The timetable that the level was opened with.
    pub fn timetable(&self) -> &T
        ensures { result.now ≡ timetable_of self.now }
    {
        &self.timetable
    }

    /// The spare rule, as it stands now.
    pub fn rule(&self) -> &R
        ensures { result.now ≡ rule_of self.now }
    {
        &self.rule
    }
}
