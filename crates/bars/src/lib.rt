// Timetables drawn for a person: a line of bars for an owner, one character for each tick.
// It uses `clock` and `timetable`, and draws any timetable.
#![tactic(auto)]

ghost use Rattle.std.specs.Prelude.{◌≡◌, ℕ, ◌+◌, ◌*◌, ◌<◌, ◌≤◌, length, ℤ, IfOk, string_bytes, Decides, MatchOption};
ghost use Rattle.bars.specs.Lines.{mark, Shows, Column, Line};

use std::alloc::{AllocError, Global};
use timetable::table::Timetable;

// A tick that `who` owns is drawn full, any other as a dot.
fn bar(owner: Option<u8>, who: Option<u8>) -> char
    ensures value { result ≡ mark owner who }
    ensures ascii { result < 128 }
{
    if owner == who { '#' } else { '.' }
}

// The tick that a column shows; the column of the stroke shows none.
fn tick_in(column: u16, cycle: u16) -> Option<i32>
    ensures { MatchOption result (column ≡ cycle) (Shows cycle column) }
{
    if column < cycle {
        return Some(i32::from(column) - i32::from(cycle));
    }
    if column == cycle {
        return None;
    }
    Some(i32::from(column - cycle - 1))
}

// The character in a column of the line.
fn character<T: Timetable>(timetable: &T, who: Option<u8>, column: u16) -> char
    ensures column { Column (T.Timetable.owner timetable.now) (T.Timetable.cycle timetable.now) who column result }
    ensures ascii { result < 128 }
{
    match tick_in(column, timetable.cycle().ticks) {
        Some(t) => bar(timetable.owner_at(t), who),
        None => '|',
    }
}

/// The line of an activity, or of the free ticks: the cycle left of zero, a stroke, and the cycle right of it.
pub fn line<T: Timetable>(
    heap: Global,
    timetable: &T,
    who: Option<u8>,
) -> Result<String, AllocError>
    ensures { IfOk result (λ s. Line (T.Timetable.owner timetable.now) (T.Timetable.cycle timetable.now) who (string_bytes s)) }
{
    let columns = 2 * timetable.cycle().ticks + 1;
    let mut text = String::with_capacity(heap, usize::from(columns))?;
    // A loop: with `collect` (tried) the proof does not know which character stands where.
    for column in 0..columns {
        text.push(character(timetable, who, column))?;
    }
    Ok(text)
}

/// Whether any tick of the unending clock is this activity's, or free.
pub fn owns_any<T: Timetable>(timetable: &T, who: Option<u8>) -> bool
    ensures { Decides result ((t : ℤ) × (T.Timetable.owner timetable.now t ≡ who)) }
{
    (0..timetable.cycle().ticks).any(|t| timetable.owner_at(i32::from(t)) == who)
}
