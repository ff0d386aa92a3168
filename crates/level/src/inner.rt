// The plain part of a level: all that does not depend on which timetable and which rule it has.
ghost use Rattle.std.specs.Prelude.{◌≡◌, ℕ, false, ℤ, None, slice_index};
ghost use Rattle.spare.specs.Sets.{is_ready};
ghost use Rattle.level.specs.Board.{holder};
ghost use Rattle.level.specs.Bounds.{RanBound, UsedBound};
ghost use Rattle.level.specs.Seats.{seat_at};

use crate::board::Board;
use crate::constraint::Constraint;
use spare::ready::ReadySet;

// No count exceeds the ticks since the least clock, so that none can run over.
#[derive(Drop)]
pub(crate) struct Inner {
    pub(crate) number: u32,
    pub(crate) clock: i32,
    // No one table with `used`: the rule is given this set as it is.
    pub(crate) ready: ReadySet,
    pub(crate) board: Board,
    pub(crate) seats: [Option<Constraint>; 16],
    pub(crate) used: [u32; 16],
    ghost few: { RanBound clock seats },
    ghost little: { UsedBound clock used },
}

impl Inner {
    // Nobody ready, no seat in use, no mark, nothing counted.
    pub(crate) fn fresh(number: u32, clock: i32) -> Inner
        ensures number { result.number ≡ number }
        ensures clock { result.clock ≡ clock }
        ensures blocked { (a : ℕ) → is_ready result.ready a ≡ false }
        ensures unmarked { (t : ℤ) → holder result.board t ≡ None }
        ensures unused { (s : ℕ) → seat_at result.seats s ≡ None }
        ensures idle { (a : ℕ) → slice_index result.used a ≡ 0 }
    {
        Inner {
            number,
            clock,
            ready: ReadySet::empty(),
            board: Board::blank(),
            seats: [None; 16],
            used: [0; 16],
        }
    }
}
