// The wheel, a table of places and a mark that goes round: the struct, and what can be asked of it. How it chooses stands in
// `wheel_rule`, and how it is filled in `fill`.
ghost use Rattle.std.specs.Prelude.{◌≡◌, ℕ, ◌<◌, length, IfOk};
ghost use Rattle.spare.specs.Orders.{in_order};
ghost use Rattle.spare.specs.Wheels.{Table};

use crate::ready::IN_ORDER;
use std::alloc::{AllocError, Global};
use std::marker::Model;

/// A rule that names the first ready activity after its mark, going round its places, and moves the mark there. An activity may
/// have several places.
#[derive(Drop)]
pub struct Wheel {
    pub(crate) places: Vec<u8>,
    pub(crate) mark: usize,
    ghost table: { Table places.items },
    ghost marked: { mark < length places.items },
}

// The value carries the facts `table` and `marked`, since the law `bounded` of a rule is asked of every value, and the vector,
// since a refused `fill` leaves its memory as it was.
impl Model for Wheel {
    ghost use Rattle.std.specs.Prelude.{refl};
    ghost use Rattle.spare.specs.Wheels.{MarkedTable};

    ghost Value = { MarkedTable };

    ghost view = { λ w. record { places = w.places.items; stored = w.places; holds = refl; mark = w.mark; table = w.table; marked = w.marked } };
}

impl Wheel {
    /// The wheel with the places 0 to 15 and the mark on the last. It fails only for want of memory.
    pub fn new(heap: Global) -> Result<Wheel, AllocError>
        ensures { IfOk result (λ w. (w.places ≡ in_order) × (w.mark ≡ 15)) }
    {
        let places = Vec::from_slice(heap, &IN_ORDER)?;
        Ok(Wheel { places, mark: 15 })
    }

    /// The activity at each place.
    pub fn places(&self) -> &[u8]
        ensures { result.now ≡ self.now.places }
    {
        self.places.as_slice()
    }

    /// The place that the wheel named last, counted from 0.
    pub fn mark(&self) -> usize
        ensures mark { result ≡ self.now.mark }
        ensures within { result < length self.now.places }
    {
        self.mark
    }
}
