// Any timetable, moved along the clock.
ghost use Rattle.std.specs.Prelude.{◌≡◌, ℕ, ℤ, ◌-ℤ◌};
ghost use Rattle.std.proofs.Common.{ap, ◌∙◌, arith, rules};
ghost use Rattle.clock.specs.Floor.{floor_mod};
ghost use Rattle.timetable.specs.Moved.{timetable_of, ticks_of};
ghost use Rattle.timetable.specs.Owners.{shifted};
ghost use Rattle.std.proofs.lemmas.Int.{ints};

use crate::table::Timetable;
use clock::Cycle;

/// The timetable `below`, moved `by` ticks later; a negative `by` moves it earlier.
// It has no `impl Model`: a `Copy` struct of a caller's own would then not be copied with it (`plan_tests` has one).
#[derive(Clone, Copy, PartialEq, Eq, Debug, Drop)]
pub struct Shift<T> {
    below: T,
    by: i32,
}

impl<T> Shift<T> {
    /// `below` moved `by` ticks later.
    pub fn new(below: T, by: i32) -> Shift<T>
        ensures { (timetable_of result ≡ below) × (ticks_of result ≡ by) }
    {
        Shift { below, by }
    }
}

impl<T: Timetable> Shift<T> {
    // The tick of the first cycle below whose owner `t` has: the law that owners repeat makes it as good as t - by.
    fn tick_below(&self, t: i32) -> u16
        ensures { result ≡ floor_mod (t -ℤ self.now.by) (T.Timetable.cycle self.now.below) }
    {
        self.below.cycle().phase(t, self.by)
    }
}

impl<T: Timetable> Timetable for Shift<T> {
    ghost owner = { λ s. shifted (T.Timetable.owner (timetable_of s)) (ticks_of s) };

    ghost cycle = { λ s. T.Timetable.cycle (timetable_of s) };

    ghost least = { Prim.search rules };

    ghost most = { Prim.search rules };

    ghost repeats = { λ x t. ap (T.Timetable.owner x.below) (omega (arith, ints)) ∙ T.Timetable.repeats x.below (t -ℤ x.by) };

    ghost known = { Prim.search rules };

    fn owner_at(&self, t: i32) -> Option<u8> {
        self.below.owner_at(i32::from(self.tick_below(t)))
    }

    fn cycle(&self) -> Cycle {
        let Shift { below, .. } = self;
        below.cycle()
    }
}
