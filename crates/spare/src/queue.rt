// The queue: the first ready one goes to the end.
ghost use Rattle.std.specs.Prelude.{◌≡◌, ℕ, ◌<◌};
ghost use Rattle.spare.specs.Orders.{EachOnce, QueueStep, place_of, times, in_order};
ghost use Rattle.std.proofs.Common.{arith};
ghost use Rattle.spare.specs.OrdersLemmas.{has_place};

use crate::ready::{IN_ORDER, ReadySet};
use crate::rule::SpareRule;
use crate::search::first_ready;
use std::marker::Model;

/// A rule that names the first ready activity of its order and moves it to the end.
#[derive(Drop)]
pub struct Queue {
    order: [u8; 16],
    ghost each_once: { EachOnce order },
}

// The value carries the fact `each_once`, since the law `bounded` of a rule is asked of every value.
impl Model for Queue {
    ghost use Rattle.spare.specs.Orders.{Turns};

    ghost Value = { Turns };

    ghost view = { λ q. record { order = q.order; each_once = q.each_once } };
}

impl Queue {
    /// The queue with the order 0 to 15.
    pub fn new() -> Queue
        ensures { result.order ≡ in_order }
    {
        Queue { order: IN_ORDER }
    }

    /// The order: every activity once, the one that is asked first in front.
    pub fn order(&self) -> &[u8; 16]
        ensures order { result.now ≡ self.now.order }
        ensures once { (a : ℕ) → a < 16 → times a result.now ≡ 1 }
    {
        &self.order
    }
}

impl SpareRule for Queue {
    ghost distance = { λ q a. place_of a q.order };

    ghost patience = { λ _. 15 };

    ghost step = { λ q ready r q'. QueueStep q.order ready r q'.order };

    ghost bounded = { λ x a h. omega (arith, has_place a x.order (omega (arith, x.each_once.once a h)), x.each_once.long) };

    fn choose(&mut self, ready: ReadySet) -> Option<u8> {
        let first = first_ready(&self.order, ready)?;
        let named = self.order[first];
        self.order[first..].rotate_left(1);
        Some(named)
    }
}
