// What a plan was filled with, to be read.
ghost use Rattle.std.specs.Prelude.{◌≡◌, []};

use crate::entry::Entry;
use crate::plan::Plan;
use clock::BasePeriod;

impl Plan {
    /// The base period.
    pub fn base(&self) -> BasePeriod
        ensures { result.ticks ≡ self.now.base }
    {
        self.base
    }

    /// The depth.
    pub fn depth(&self) -> u8
        ensures { result ≡ self.now.depth }
    {
        self.depth.levels
    }

    /// The entries, in the order in which they were given.
    pub fn entries(&self) -> &[Entry]
        ensures { result.now ≡ self.now.entries }
    {
        self.entries.as_slice()
    }

    /// The plan that owns nothing, as `empty` makes it, with the memory of this one to be filled from.
    pub fn fresh(&self) -> Plan
        ensures base { result.base ≡ 1 }
        ensures depth { result.depth ≡ 0 }
        ensures entries { result.entries ≡ [] }
    {
        Plan::empty(*self.entries.allocator())
    }
}
