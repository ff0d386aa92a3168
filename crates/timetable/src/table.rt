// The interface of timetables.
ghost use Rattle.std.specs.Prelude.{◌≡◌, ℕ, ◌≤◌, ℤ, pos, ◌+ℤ◌, Option};
ghost use Rattle.timetable.specs.Owners.{Known};

use clock::Cycle;

/// An owner for every whole number, an activity (0 to 15) or nobody, that repeats after a cycle.
pub trait Timetable {
    /// The owner of each tick, also of those that a 32-bit clock never shows; `None` is a free tick.
    ghost owner: { Self → ℤ → Option ℕ };

    /// The length of the cycle.
    ghost cycle: { Self → ℕ };

    /// The owner of the tick `t`.
    fn owner_at(&self, t: i32) -> Option<u8>
        ensures { result ≡ owner self.now t };

    /// The cycle.
    fn cycle(&self) -> Cycle
        ensures { result.ticks ≡ cycle self.now };

    ghost least: { (x : Self) → 1 ≤ cycle x };

    ghost most: { (x : Self) → cycle x ≤ 2048 };

    ghost repeats: { (x : Self) (t : ℤ) → owner x (t +ℤ pos (cycle x)) ≡ owner x t };

    ghost known: { (x : Self) (t : ℤ) → Known (owner x t) };
}
