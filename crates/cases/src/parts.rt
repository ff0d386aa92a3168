// Entries and reservations in a line each, as many entries as a plan can have, and whether a plan is the example plan.
// The tests of several crates are written with them.
ghost use Rattle.std.specs.Prelude.{◌≡◌, map, Decides, IfOk};
ghost use Rattle.std.specs.List.{range_with_len};
ghost use Rattle.cases.specs.Examples.{entry, reserve, deep_entry, IsExample};

use crate::{EXAMPLE_BASE, EXAMPLE_DEPTH, EXAMPLE_ENTRIES};
use plan::entry::Entry;
use plan::plan::Plan;
use reservation::reservation::Reservation;
use std::alloc::{AllocError, Global};

/// An entry by its fields, in their order.
pub fn entry(activity: u8, depth: u8, path: u16, offset: u16, length: u16) -> Entry
    ensures { result ≡ entry activity depth path offset length }
{
    Entry {
        activity,
        depth,
        path,
        offset,
        length,
    }
}

/// A reservation by its fields, in their order.
pub fn reserve(activity: u8, ticks: u16, period: u16) -> Reservation
    ensures { result ≡ reserve activity ticks period }
{
    Reservation {
        activity,
        ticks,
        period,
    }
}

// An entry of depth 5 and length 16, by its place in a row of which the first 128 do not clash.
fn deep_entry(i: u16) -> Entry
    ensures { result ≡ deep_entry i }
{
    entry((i % 16) as u8, 5, i % 32, i / 32 % 4 * 16, 16)
}

/// So many entries of depth 5 and length 16; of the first 128 no two clash.
pub fn deep_entries(heap: Global, count: u16) -> Result<Vec<Entry>, AllocError>
    ensures { IfOk result (λ es. es.items ≡ map deep_entry (range_with_len 0 count)) }
{
    (0..count).map(deep_entry).collect(heap)
}

/// Whether a plan is the example plan.
pub fn is_example(plan: &Plan) -> bool
    ensures { Decides result (IsExample plan.now) }
{
    plan.base().ticks == EXAMPLE_BASE
        && plan.depth() == EXAMPLE_DEPTH
        && plan.entries() == EXAMPLE_ENTRIES.as_slice()
}
