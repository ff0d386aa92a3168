// A timetable that is always free. It is lawful, and the check refuses every reservation for it.
ghost use Rattle.std.specs.Prelude.{None};
ghost use Rattle.std.proofs.Common.{rules};

use clock::Cycle;
use timetable::table::Timetable;

/// A timetable in which every tick is free.
#[derive(Clone, Copy, Debug)]
pub struct Free;

impl Timetable for Free {
    ghost owner = { λ _ _. None };

    ghost cycle = { λ _. 1 };

    ghost least = { Prim.search rules };

    ghost most = { Prim.search rules };

    ghost repeats = { Prim.search rules };

    ghost known = { Prim.search rules };

    fn owner_at(&self, _t: i32) -> Option<u8> {
        None
    }

    fn cycle(&self) -> Cycle {
        Cycle { ticks: 1 }
    }
}
