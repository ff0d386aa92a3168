// A tick is counted, and the clock moves on.
ghost use Rattle.std.specs.Prelude.{◌≡◌, ℕ, ◌+◌, ◌<◌, ℤ, pos, if◌then◌else◌, MatchBool, ◌≢◌, slice_index};
ghost use Rattle.level.specs.Seats.{seat_at, one_more};
ghost use Rattle.level.specs.Ticks.{one, is};
ghost use Rattle.level.specs.Promises.{is_for};
ghost use Rattle.level.specs.Parts.{Advanced, Small, SmallLetter, SmallRunner, RanRoom, UsedRoom};

use crate::constraint::Constraint;
use crate::inner::Inner;
use crate::ticked::{Letter, Ticked};

// One tick more for the seat of a letter.
fn tally_seat(seats: &mut [Option<Constraint>; 16], letter: Letter)
    requires { (SmallLetter letter) × (RanRoom seats.old) }
    ensures { (s : ℕ) → seat_at seats.new s ≡ (if is_for s letter then one_more (seat_at seats.old s) else seat_at seats.old s) }
{
    if let Letter::Constrained { seat } = letter {
        if let Some(held) = &mut seats[usize::from(seat)] {
            held.ran += 1;
        }
    }
}

// One tick more for a runner.
fn credit(used: &mut [u32; 16], runner: Option<u8>)
    requires { (SmallRunner runner) × (UsedRoom used.old) }
    ensures { (a : ℕ) → slice_index used.new a ≡ one (is a runner) + slice_index used.old a }
{
    if let Some(activity) = runner {
        used[usize::from(activity)] += 1;
    }
}

impl Inner {
    // Whether the clock stands at its last value.
    pub(crate) fn at_end(&self) -> bool
        ensures { MatchBool result (self.now.clock ≡ pos 2147483647) (self.now.clock ≢ pos 2147483647) }
    {
        self.clock == i32::MAX
    }

    // The tick at the clock is over.
    pub(crate) fn advance(&mut self, ticked: Ticked)
        requires { (Small ticked.runner ticked.letter) × ((self.old.clock ≢ pos 2147483647)) }
        ensures { Advanced self.old ticked self.new }
    {
        let t = self.clock;
        tally_seat(&mut self.seats, ticked.letter);
        credit(&mut self.used, ticked.runner);
        self.board.clear(t);
        self.clock = t + 1;
    }
}
