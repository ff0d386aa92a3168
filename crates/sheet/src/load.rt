// Loading a sheet: everything is read and tested before anything changes.
ghost use Rattle.std.specs.Prelude.{◌≡◌, ℕ, length, MatchResult};
ghost use Rattle.sheet.specs.Loaded.{Loaded};
ghost use Rattle.sheet.specs.Read.{SheetRead, Judged};
ghost use Rattle.sheet.specs.Told.{Told, Only, Refused, Within, Never};

use crate::blocks::Blocks;
use crate::entries::{first_broken, read_entries};
use crate::fault::SheetFault;
use crate::heading::{HeadingFields, read_heading};
use arrayvec::ArrayVec;
use plan::entry::Entry;
use plan::fill::MOST_ENTRIES;
use plan::plan::Plan;
use reservation::check::{MOST_RESERVATIONS, check};
use reservation::reservation::Reservation;

// What a sheet says.
#[derive(Drop)]
struct Contents {
    heading: HeadingFields,
    entries: ArrayVec<Entry, MOST_ENTRIES>,
}

// What the bytes say, where they are a sheet. The tests come in the order of the refusals' numbers.
fn read(sheet: &[u8]) -> Result<Contents, SheetFault>
    ensures { MatchResult result (SheetRead sheet.now) (Refused sheet.now) }
{
    let blocks = Blocks::new(sheet).ok_or(SheetFault::Size)?;
    if let Some(block) = blocks.first_unchecked() {
        return Err(SheetFault::BlockCheck { block });
    }
    let heading = read_heading(&blocks).ok_or(SheetFault::Heading)?;
    if let Some(block) = first_broken(&blocks, heading.entries) {
        return Err(SheetFault::EntryBlock { block });
    }
    let entries = read_entries(&blocks, heading.entries);
    Ok(Contents { heading, entries })
}

// What a sheet says, once all of it has passed.
#[derive(Drop)]
struct Passed {
    plan: Plan,
    reservations: ArrayVec<Reservation, MOST_RESERVATIONS>,
}

// What the bytes say, where they are a sheet whose reservations pass on its plan. The plan is filled from a fresh one.
fn examine(sheet: &[u8], fresh: Plan) -> Result<Passed, SheetFault>
    ensures { Judged sheet.now result }
{
    let mut plan = fresh;
    let Contents { heading, entries } = read(sheet)?;
    plan.fill(heading.base, heading.depth, entries.as_slice())?;
    check(&plan, heading.reservations.as_slice())?;
    Ok(Passed {
        plan,
        reservations: heading.reservations,
    })
}

/// Makes plan and list those that the sheet says, and returns how many reservations there are; the list's other places
/// become 0. Where the sheet is refused, or its reservations do not pass on its plan, both stay as they were.
pub fn load(
    sheet: &[u8],
    plan: &mut Plan,
    list: &mut [Reservation; 16],
) -> Result<usize, SheetFault>
    ensures told { Told sheet.now result }
    ensures only { Only sheet.now result }
    ensures within { Within sheet.now result }
    ensures never { Never result }
    ensures after { Loaded sheet.now plan.old plan.new list.old list.new result }
{
    // A list of 16 places with a count beside it is the form that callers ask for.
    let passed = examine(sheet, plan.fresh())?;
    let count = passed.reservations.len();
    *plan = passed.plan;
    *list = [Reservation::default(); 16];
    list[..count].copy_from_slice(passed.reservations.as_slice());
    Ok(count)
}
