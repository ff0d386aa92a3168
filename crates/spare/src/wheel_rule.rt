// How a wheel chooses.
ghost use Rattle.std.specs.Prelude.{ℕ, ◌-◌, length, MatchOption};
ghost use Rattle.spare.specs.Orders.{place_of};
ghost use Rattle.spare.specs.Search.{NoneIn, NextAt};
ghost use Rattle.spare.specs.Sets.{is_ready};
ghost use Rattle.spare.specs.Wheels.{WheelStep, after_mark};
ghost use Rattle.std.proofs.Common.{arith};
ghost use Rattle.spare.specs.Rounds.{comes_round};

use crate::ready::ReadySet;
use crate::rule::SpareRule;
use crate::search::first_ready;
use crate::wheel::Wheel;

impl Wheel {
    // The first place after the mark, going round, at which a ready activity stands.
    fn next_ready(&self, ready: ReadySet) -> Option<usize>
        ensures { MatchOption result (NoneIn (is_ready ready) (after_mark self.now.places self.now.mark)) (NextAt (is_ready ready) self.now.places self.now.mark) }
    {
        let (front, back) = self.places.split_at(self.mark + 1);
        first_ready(back, ready)
            .map(|place| front.len() + place)
            .or_else(|| first_ready(front, ready))
    }
}

impl SpareRule for Wheel {
    ghost distance = { λ w a. place_of a (after_mark w.places w.mark) };

    ghost patience = { λ w. length w.places - 1 };

    ghost step = { λ w ready r w'. WheelStep w.places w.mark ready r w'.places w'.mark };

    ghost bounded = { λ x a h. omega (arith, comes_round x.places a x.mark x.marked (x.table.all a h)) };

    fn choose(&mut self, ready: ReadySet) -> Option<u8> {
        let place = self.next_ready(ready)?;
        self.mark = place;
        Some(self.places[place])
    }
}
