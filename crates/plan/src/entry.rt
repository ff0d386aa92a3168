// One entry of a plan.
ghost use Rattle.std.specs.Prelude.{◌≡◌, ◌%◌, ◌^◌, ◌≤◌, Decides};
ghost use Rattle.plan.specs.Entries.{InRange, Clashing, covers};

use crate::depth::Depth;
use clock::BasePeriod;

/// The activity that owns `length` ticks from `offset` on, in every frame that is `path` modulo 2 to the `depth`.
#[derive(Clone, Copy, PartialEq, Eq, Default, Debug)]
pub struct Entry {
    pub activity: u8,
    pub depth: u8,
    pub path: u16,
    pub offset: u16,
    pub length: u16,
}

// What is left of a path at any depth: from 16 on, all of it. The search at each tick masks by `Depth::residue`, which tests nothing.
fn shortened(path: u16, depth: u8) -> u16
    ensures { result ≡ path % 2 ^ depth }
{
    match 1u16.checked_shl(u32::from(depth)) {
        Some(paths) => path & (paths - 1),
        None => path,
    }
}

impl Entry {
    // Whether every field is in range, in a plan of this base period and depth.
    pub(crate) fn is_in_range(&self, base: BasePeriod, depth: Depth) -> bool
        ensures { Decides result (InRange base.ticks depth.levels self.now) }
    {
        self.activity <= 15
            && self.depth <= depth.levels
            && self.path < (Depth { levels: self.depth }).paths()
            && 1 <= self.length
            && self.offset <= base.ticks
            && self.length <= base.ticks - self.offset
    }

    // Whether the entry owns the tick at this offset of a frame, by the frame's residue at a depth no smaller than its own.
    pub(crate) fn covers(&self, frame: u16, offset: u16) -> bool
        requires { self.now.depth ≤ 5 }
        ensures { result ≡ covers self.now frame offset }
    {
        self.offset <= offset
            && offset - self.offset < self.length
            && (Depth { levels: self.depth }).residue(frame) == self.path
    }

    // Whether the two own a tick in common.
    pub(crate) fn clashes(&self, other: &Entry) -> bool
        ensures { Decides result (Clashing self.now other.now) }
    {
        let shallower = self.depth.min(other.depth);
        shortened(self.path, shallower) == shortened(other.path, shallower)
            && u32::from(self.offset) < u32::from(other.offset) + u32::from(other.length)
            && u32::from(other.offset) < u32::from(self.offset) + u32::from(self.length)
    }
}
