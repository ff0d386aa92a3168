// A rule as a studio would bring it: it gives the distances and shows the interface's clause, and nothing more.
ghost use Rattle.std.specs.Prelude.{◌≡◌, ℕ, ◌<◌, MatchOption};
ghost use Rattle.spare.specs.Sets.{is_ready};
ghost use Rattle.spare_tests.specs.Turns.{between, NoneFrom, FirstFrom};
ghost use Rattle.std.proofs.Common.{arith};

use spare::ready::ReadySet;
use spare::rule::SpareRule;
use std::marker::Model;
use std::ops::Range;

/// Names the next ready activity after the last, in the order of the numbers, going round.
#[derive(Drop)]
pub struct RoundRobin {
    last: u8,
    ghost known: { last < 16 },
}

// The value carries the fact `known`, so that every caller has it.
impl Model for RoundRobin {
    ghost use Rattle.spare_tests.specs.Turns.{LastNamed};

    ghost Value = { LastNamed };

    ghost view = { λ r. record { last = r.last; known = r.known } };
}

impl RoundRobin {
    /// The rule that asks 0 first.
    pub fn new() -> RoundRobin
        ensures { result.last ≡ 15 }
    {
        RoundRobin { last: 15 }
    }
}

// The first ready activity of these.
fn first_ready(mut activities: Range<u8>, ready: ReadySet) -> Option<u8>
    ensures { MatchOption result (NoneFrom (is_ready ready) activities.start activities.end) (FirstFrom (is_ready ready) activities.start activities.end) }
{
    activities.find(|&activity| ready.has(activity))
}

impl SpareRule for RoundRobin {
    ghost distance = { λ r. between r.last };

    ghost patience = { λ _. 15 };

    ghost bounded = { Prim.grind arith };

    fn choose(&mut self, ready: ReadySet) -> Option<u8> {
        let after = self.last + 1;
        let next = first_ready(after..16, ready).or_else(|| first_ready(0..after, ready))?;
        self.last = next;
        Some(next)
    }
}
