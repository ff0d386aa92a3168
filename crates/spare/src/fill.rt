// Filling a wheel: the places are examined before anything changes.
ghost use Rattle.std.specs.Prelude.{◌≡◌, ℕ, ◌<◌, ◌≤◌, length, Decides, slice_index};
ghost use Rattle.spare.specs.Filled.{Filled};
ghost use Rattle.spare.specs.Orders.{times};
ghost use Rattle.spare.specs.Told.{Told, Only};
ghost use Rattle.spare.specs.Wheels.{Table};

use crate::fault::WheelFault;
use crate::ready::ACTIVITIES;
use crate::wheel::Wheel;

/// The fewest places that a wheel can have.
pub const FEWEST_PLACES: usize = 16;

/// The most places that a wheel can have.
pub const MOST_PLACES: usize = 64;

// Whether an activity stands at every place.
fn are_known(places: &[u8]) -> bool
    ensures { Decides result ((k : ℕ) → k < length places.now → slice_index places.now k < 16) }
{
    places.iter().all(|&place| place < ACTIVITIES)
}

// Whether the activity stands at some place.
fn stands(activity: u8, places: &[u8]) -> bool
    ensures { Decides result (1 ≤ times activity places.now) }
{
    places.contains(&activity)
}

// Whether every activity stands at some place.
fn has_all(places: &[u8]) -> bool
    ensures { Decides result ((a : ℕ) → a < 16 → 1 ≤ times a places.now) }
{
    (0..ACTIVITIES).all(|activity| stands(activity, places))
}

// Whether a wheel can have these places.
fn is_table(places: &[u8]) -> bool
    ensures { Decides result (Table places.now) }
{
    (FEWEST_PLACES..=MOST_PLACES).contains(&places.len()) && are_known(places) && has_all(places)
}

impl Wheel {
    /// Gives the wheel these places and puts the mark on the last of them, or refuses and leaves the wheel as it was.
    pub fn fill(&mut self, places: &[u8]) -> Result<(), WheelFault>
        ensures told { Told places.now result }
        ensures only { Only places.now result }
        ensures after { Filled places.now self.old self.new result }
    {
        if !is_table(places) {
            return Err(WheelFault::Places);
        }
        self.places = Vec::from_slice(*self.places.allocator(), places)?;
        self.mark = places.len() - 1;
        Ok(())
    }
}
