// Whom the tick at the clock goes to.
ghost use Rattle.std.specs.Prelude.{◌≡◌, ℕ, ℤ};
ghost use Rattle.spare.specs.Asking.{CallOf};
ghost use Rattle.spare.specs.Sets.{is_ready};
ghost use Rattle.level.specs.Levels.{meaning, Asked};
ghost use Rattle.level.specs.Parts.{RunnerOf, DueIn, SpareIn, GivenTo, Small};

use crate::inner::Inner;
use crate::level::Level;
use crate::ticked::{Letter, Ticked};
use spare::rule::SpareRule;
use timetable::table::Timetable;

impl Inner {
    // The activity of a seat in use, if it is ready.
    fn runner_of(&self, seat: u8) -> Option<u8>
        ensures { RunnerOf self.now seat result }
    {
        let held = self.held(u16::from(seat))?;
        self.ready.has(held.activity).then_some(held.activity)
    }
}

impl<T: Timetable, R: SpareRule> Level<T, R> {
    // Whom the tick at the clock goes to before the spare rule is asked, and by which letter.
    fn due(&self) -> Option<(u8, Letter)>
        ensures { DueIn (meaning T.Timetable R.SpareRule self.now) result }
    {
        let t = self.inner.clock;
        match self.inner.board.holder_at(t) {
            Some(seat) => {
                let activity = self.inner.runner_of(seat)?;
                Some((activity, Letter::Constrained { seat }))
            }
            None => {
                let activity = self.timetable.owner_at(t)?;
                self.inner
                    .ready
                    .has(activity)
                    .then_some((activity, Letter::Reserved))
            }
        }
    }

    // Asks the rule, if anybody is ready. That runner and seat are below 16 is said here and where the tick is counted (`Small`), and is
    // no fact of `Ticked`, whose fields are public.
    fn ask(&mut self) -> Ticked
        ensures tick { result.tick ≡ self.old.inner.clock }
        ensures given { SpareIn (meaning T.Timetable R.SpareRule self.old) result.letter result.runner (meaning T.Timetable R.SpareRule self.new) }
        ensures asked { Asked (CallOf R.SpareRule) (is_ready self.old.inner.ready) self.old.rule result.letter result.runner self.new.rule }
        ensures timetable { self.new.timetable ≡ self.old.timetable }
        ensures inner { self.new.inner ≡ self.old.inner }
        ensures small { Small result.runner result.letter }
    {
        let tick = self.inner.clock;
        if self.inner.ready.is_empty() {
            return Ticked {
                tick,
                runner: None,
                letter: Letter::Idle,
            };
        }
        Ticked {
            tick,
            runner: self.rule.choose(self.inner.ready),
            letter: Letter::Spare,
        }
    }

    // Gives the tick at the clock to somebody, or to nobody.
    pub(crate) fn give_tick(&mut self) -> Ticked
        ensures tick { result.tick ≡ self.old.inner.clock }
        ensures given { GivenTo (meaning T.Timetable R.SpareRule self.old) result.letter result.runner (meaning T.Timetable R.SpareRule self.new) }
        ensures asked { Asked (CallOf R.SpareRule) (is_ready self.old.inner.ready) self.old.rule result.letter result.runner self.new.rule }
        ensures timetable { self.new.timetable ≡ self.old.timetable }
        ensures inner { self.new.inner ≡ self.old.inner }
        ensures small { Small result.runner result.letter }
    {
        match self.due() {
            Some((activity, letter)) => Ticked {
                tick: self.inner.clock,
                runner: Some(activity),
                letter,
            },
            None => self.ask(),
        }
    }
}
