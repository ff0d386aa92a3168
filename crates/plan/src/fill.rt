// Filling a plan: every test is made, in the order of the refusals' numbers, before anything changes.
ghost use Rattle.std.specs.Prelude.{◌≡◌, length, IfOk, MatchOption};
ghost use Rattle.plan.specs.Entries.{NoClash};
ghost use Rattle.plan.specs.Filled.{Filled, Shared};
ghost use Rattle.plan.specs.Told.{Told, Only, Ranged, FirstOutside, FirstClash};

use crate::depth::Depth;
use crate::entry::Entry;
use crate::fault::PlanFault;
use crate::plan::Plan;
use clock::BasePeriod;

/// The most entries that a plan can have.
pub const MOST_ENTRIES: usize = 120;

/// The greatest depth of a plan.
pub const MOST_DEPTH: u8 = 5;

// The index of the first entry with a field outside its range.
fn first_outside(base: BasePeriod, depth: Depth, entries: &[Entry]) -> Option<usize>
    ensures { MatchOption result (Ranged base.ticks depth.levels entries.now (length entries.now)) (FirstOutside base.ticks depth.levels entries.now) }
{
    entries
        .iter()
        .position(|entry| !entry.is_in_range(base, depth))
}

// The first pair of entries that clash: the smallest later index, and with it the smallest earlier one.
// Nested loops, left by a label at the first clash with its pair: the project's form for this search.
fn first_clash(entries: &[Entry]) -> Option<(usize, usize)>
    ensures { MatchOption result (NoClash entries.now (length entries.now)) (λ p. FirstClash entries.now p.0 p.1) }
{
    'pairs: {
        for later in 0..entries.len() {
            for earlier in 0..later {
                if entries[earlier].clashes(&entries[later]) {
                    break 'pairs Some((later, earlier));
                }
            }
        }
        None
    }
}

// The base period and the depth, where these and the entries make a plan.
fn examine(base: u16, depth: u8, entries: &[Entry]) -> Result<(BasePeriod, Depth), PlanFault>
    ensures told { Told base depth entries.now result }
    ensures made { IfOk result (λ p. (p.0.ticks ≡ base) × (p.1.levels ≡ depth)) }
{
    let base = BasePeriod::new(base).ok_or(PlanFault::Dimensions)?;
    let depth = Depth::new(depth).ok_or(PlanFault::Dimensions)?;
    if entries.len() > MOST_ENTRIES {
        return Err(PlanFault::TooManyEntries);
    }
    if let Some(index) = first_outside(base, depth, entries) {
        return Err(PlanFault::OutOfRange { index });
    }
    if let Some((later, earlier)) = first_clash(entries) {
        return Err(PlanFault::Clash { later, earlier });
    }
    Ok((base, depth))
}

impl Plan {
    /// Makes this the plan of this base period and depth and these entries, or refuses and leaves it as it was.
    pub fn fill(&mut self, base: u16, depth: u8, entries: &[Entry]) -> Result<(), PlanFault>
        ensures told { Told base depth entries.now result }
        ensures only { Only base depth entries.now result }
        ensures after { Filled base depth entries.now self.old self.new result }
        ensures shared { Shared base entries.now result }
    {
        let (base, depth) = examine(base, depth, entries)?;
        let copy = Vec::from_slice(*self.entries.allocator(), entries)?;
        self.base = base;
        self.depth = depth;
        self.entries = copy;
        Ok(())
    }
}
