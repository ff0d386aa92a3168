// Worked examples: a plan that a person can follow on paper, and what the definitions say of it.
// It uses every layer of which it has an example: `clock`, `timetable`, `plan`, `reservation`, `spare` and `level`.
#![tactic(auto)]

ghost use Rattle.std.specs.Prelude.{◌≡◌, length, IfOk, None};
ghost use Rattle.std.specs.List.{AllByRecursion};
ghost use Rattle.plan.specs.Told.{refusal};
ghost use Rattle.cases.specs.Examples.{IsExample, Holds, examples};

pub mod free;
pub mod parts;

use plan::entry::Entry;
use plan::fault::PlanFault;
use plan::plan::Plan;
use std::alloc::Global;

/// The base period of the example plan.
pub const EXAMPLE_BASE: u16 = 10;

/// Its depth.
pub const EXAMPLE_DEPTH: u8 = 2;

/// Its entries.
pub const EXAMPLE_ENTRIES: [Entry; 6] = [
    Entry {
        activity: 1,
        depth: 0,
        path: 0,
        offset: 0,
        length: 3,
    },
    Entry {
        activity: 4,
        depth: 0,
        path: 0,
        offset: 3,
        length: 1,
    },
    Entry {
        activity: 0,
        depth: 1,
        path: 0,
        offset: 4,
        length: 4,
    },
    Entry {
        activity: 3,
        depth: 1,
        path: 1,
        offset: 4,
        length: 1,
    },
    Entry {
        activity: 2,
        depth: 2,
        path: 1,
        offset: 5,
        length: 2,
    },
    Entry {
        activity: 5,
        depth: 2,
        path: 3,
        offset: 5,
        length: 5,
    },
];

/// The example plan. Only want of memory can keep it from being made.
pub fn example_plan(heap: Global) -> Result<Plan, PlanFault>
    ensures plan { IfOk result IsExample }
    ensures admitted { refusal result ≡ None }
{
    let mut plan = Plan::empty(heap);
    plan.fill(EXAMPLE_BASE, EXAMPLE_DEPTH, &EXAMPLE_ENTRIES)?;
    Ok(plan)
}

fn example_count() -> usize
    ensures { result ≡ length examples }
{
    25
}

/// How many worked examples there are. That each of them holds is the theorem on its contract.
pub fn worked_examples() -> usize
    ensures count { result ≡ length examples }
    ensures hold { AllByRecursion Holds examples }
{
    example_count()
}
