// Depths of plans and entries: how often the frames are dealt out to two paths.
ghost use Rattle.std.specs.Prelude.{◌≡◌, ◌%◌, ◌^◌, ◌≤◌, MatchOption};
ghost use Rattle.clock.specs.Floor.{floor_mod};

use crate::fill::MOST_DEPTH;
use clock::Cycle;

// A depth, 0 to 5.
#[derive(Clone, Copy)]
pub(crate) struct Depth {
    pub(crate) levels: u8,
    ghost range: { levels ≤ 5 },
}

impl Depth {
    // The depth of that many levels, or nothing above 5.
    pub(crate) fn new(levels: u8) -> Option<Depth>
        ensures { MatchOption result (levels ≤ 5 → ⊥) (λ d. d.levels ≡ levels) }
    {
        // A guard: `then_some` would make the depth first, which is none out of range.
        if levels > MOST_DEPTH {
            return None;
        }
        Some(Depth { levels })
    }

    // How many paths there are at this depth. Each frame is on one of them.
    pub(crate) fn paths(self) -> u16
        ensures { result ≡ 2 ^ self.levels }
    {
        1u16 << self.levels
    }

    // What is left of a frame or a path at this depth.
    pub(crate) fn residue(self, n: u16) -> u16
        ensures { result ≡ n % 2 ^ self.levels }
    {
        n & (self.paths() - 1)
    }

    // The path that a frame of the clock is on.
    pub(crate) fn path_of(self, frame: i32) -> u16
        ensures { result ≡ floor_mod frame (2 ^ self.levels) }
    {
        Cycle {
            ticks: self.paths(),
        }
        .phase(frame, 0)
    }
}
