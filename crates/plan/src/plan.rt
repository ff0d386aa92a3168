// A plan, and who it says owns each tick.
ghost use Rattle.std.specs.Prelude.{◌≡◌, ℕ, ◌*◌, ◌^◌, ◌≤◌, [], All, find, Option};
ghost use Rattle.std.specs.Option.{option_map};
ghost use Rattle.plan.specs.Entries.{covers};
ghost use Rattle.plan.specs.Owners.{OwnedBy, owner_in};
ghost use Rattle.plan.specs.Told.{Sound};
ghost use Rattle.plan.specs.Laws.{cycle_least, cycle_most, owner_repeats, owner_stays_known};

use crate::depth::Depth;
use crate::entry::Entry;
use clock::{BasePeriod, Cycle};
use std::alloc::Global;
use std::marker::Model;
use timetable::table::Timetable;

/// A base period, a depth and the entries, of which no two clash.
#[derive(Drop)]
pub struct Plan {
    pub(crate) base: BasePeriod,
    pub(crate) depth: Depth,
    pub(crate) entries: Vec<Entry>,
    ghost sound: { Sound base.ticks depth.levels entries.items },
}

impl Model for Plan {
    ghost use Rattle.std.specs.Prelude.{refl};
    ghost use Rattle.plan.specs.Value.{PlanValue};

    ghost Value = { PlanValue };

    ghost view = { λ p. record { base = p.base.ticks; depth = p.depth.levels; entries = p.entries.items; stored = p.entries; holds = refl; sound = p.sound } };
}

// The activity of the first entry that covers this offset of a frame.
fn first_cover(entries: &[Entry], frame: u16, offset: u16) -> Option<u8>
    requires { All (λ e. e.depth ≤ 5) entries.now }
    ensures { result ≡ option_map (λ e. e.activity) (find (λ e. covers e frame offset) entries.now) }
{
    entries
        .iter()
        .find(|entry| entry.covers(frame, offset))
        .map(|entry| entry.activity)
}

impl Plan {
    /// The plan that owns nothing, of base period 1 and depth 0.
    pub fn empty(heap: Global) -> Plan
        ensures base { result.base ≡ 1 }
        ensures depth { result.depth ≡ 0 }
        ensures entries { result.entries ≡ [] }
    {
        Plan {
            base: BasePeriod { ticks: 1 },
            depth: Depth { levels: 0 },
            entries: Vec::new(heap),
        }
    }

    // The number of ticks in a cycle.
    fn cycle_ticks(&self) -> u16
        ensures { result ≡ self.now.base * 2 ^ self.now.depth }
    {
        self.base.ticks * self.depth.paths()
    }

    // The activity of the first entry that owns the tick.
    fn find_owner(&self, t: i32) -> Option<u8>
        ensures { result ≡ owner_in self.now.base self.now.entries t }
    {
        let place = self.base.place(t);
        let frame = self.depth.path_of(place.frame);
        first_cover(self.entries.as_slice(), frame, place.offset)
    }
}

impl Timetable for Plan {
    ghost owner = { λ p. owner_in p.base p.entries };

    ghost cycle = { λ p. p.base * 2 ^ p.depth };

    ghost least = { λ p. cycle_least p.base p.depth p.sound.shaped.0 };

    ghost most = { λ p. cycle_most p.base p.depth p.sound.shaped.1 p.sound.shaped.2 };

    ghost repeats = { λ p t. owner_repeats t p.base p.depth p.entries p.sound.shaped.0 p.sound.ranged };

    ghost known = { λ p t. owner_stays_known t p.base p.depth p.entries p.sound.ranged };

    fn owner_at(&self, t: i32) -> Option<u8>
        ensures value { result ≡ owner_in self.now.base self.now.entries t }
        ensures owned { OwnedBy self.now.base self.now.entries t result }
        ensures only { (o : Option ℕ) → OwnedBy self.now.base self.now.entries t o → o ≡ result }
    {
        self.find_owner(t)
    }

    fn cycle(&self) -> Cycle {
        Cycle {
            ticks: self.cycle_ticks(),
        }
    }
}
