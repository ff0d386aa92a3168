// The check of a list of reservations against a timetable.
ghost use Rattle.std.specs.Prelude.{◌≡◌, ℕ, ◌<◌, ◌≤◌, length, All, ℤ, Option, Err, MatchResult, MatchBool, sum_by, MatchOption, ◌≢◌};
ghost use Rattle.reservation.specs.declared.fault.CheckFault.TheVariants.{Overbooked};
ghost use Rattle.reservation.specs.Reservations.{InRange, Ranged, Distinct, AllServed, at, share};
ghost use Rattle.reservation.specs.Told.{FirstOutside, FirstTwice, FirstUnserved, Told, Only};

use crate::fault::CheckFault;
use crate::reservation::Reservation;
use crate::window::{Window, first_short};
use timetable::table::Timetable;

/// The most reservations that a list can have.
pub const MOST_RESERVATIONS: usize = 16;

// The index of the first reservation with a field outside its range.
fn first_outside(list: &[Reservation]) -> Option<usize>
    ensures { MatchOption result (Ranged list.now (length list.now)) (FirstOutside list.now) }
{
    list.iter()
        .position(|reservation| !reservation.is_in_range())
}

// Whether one of the first `count` reservations is for the activity. By a count: over `&list[..index]` (tried) the search for the
// first such index did not prove.
fn is_among(list: &[Reservation], count: usize, activity: u8) -> bool
    ensures { MatchBool result ((k : ℕ) × (k < count) × (k < length list.now) × ((at list.now k).activity ≡ activity)) ((k : ℕ) → k < count → k < length list.now → (at list.now k).activity ≢ activity) }
{
    list.iter()
        .take(count)
        .any(|earlier| earlier.activity == activity)
}

// A list of few enough reservations, each of them in range.
#[derive(Clone, Copy)]
struct Listed<'a> {
    list: &'a [Reservation],
    ghost few: { length list.now ≤ 16 },
    ghost ranged: { All InRange list.now },
}

impl<'a> Listed<'a> {
    // The list as such a list, or its first refusal.
    fn new(list: &'a [Reservation]) -> Result<Listed<'a>, CheckFault>
        ensures { MatchResult result (λ l. l.list.now ≡ list.now) (λ f. (owner : ℤ → Option ℕ) (cycle : ℕ) → Told owner cycle list.now (Err f)) }
    {
        if list.len() > MOST_RESERVATIONS {
            return Err(CheckFault::TooMany);
        }
        if let Some(index) = first_outside(list) {
            return Err(CheckFault::OutOfRange { index });
        }
        Ok(Listed { list })
    }

    // The index of the first reservation for an activity that has one already.
    fn first_twice(&self) -> Option<usize>
        ensures { MatchOption result (Distinct self.now.list.now (length self.now.list.now)) (FirstTwice self.now.list.now) }
    {
        let list = self.list;
        list.iter().enumerate().position(|(index, reservation)| is_among(
            list,
            index,
            reservation.activity,
        ))
    }

    // The index of the first reservation that is not served, with its first short window.
    fn first_unserved<T: Timetable>(&self, timetable: &T) -> Option<(usize, Window)>
        ensures { MatchOption result (AllServed (T.Timetable.owner timetable.now) self.now.list.now (length self.now.list.now)) (λ p. FirstUnserved (T.Timetable.owner timetable.now) (T.Timetable.cycle timetable.now) self.now.list.now p.0 p.1.start p.1.found) }
    {
        self.list.iter().enumerate().find_map(|(index, reservation)| {
            let window = first_short(timetable, reservation)?;
            Some((index, window))
        })
    }

    // The millionths of all ticks that are reserved, each reservation's rounded down.
    fn shares(&self) -> u32
        ensures { result ≡ sum_by share self.now.list.now }
    {
        self.list
            .iter()
            .map(|reservation| reservation.share())
            .sum()
    }
}

// Each test over the whole list before the next, in the order of the refusals' numbers.
fn examine<T: Timetable>(timetable: &T, list: &[Reservation]) -> Result<(), CheckFault>
    ensures { Told (T.Timetable.owner timetable.now) (T.Timetable.cycle timetable.now) list.now result }
{
    let listed = Listed::new(list)?;
    if let Some(index) = listed.first_twice() {
        return Err(CheckFault::Twice { index });
    }
    if let Some((index, window)) = listed.first_unserved(timetable) {
        return Err(CheckFault::Short {
            index,
            start: window.start,
            found: window.found,
        });
    }
    if listed.shares() > 1_000_000 {
        return Err(CheckFault::Overbooked);
    }
    Ok(())
}

/// Whether every reservation of the list is served in every window of the timetable, and if not, the first thing wrong.
/// What is served is never overbooked, so that refusal does not come up.
pub fn check<T: Timetable>(timetable: &T, list: &[Reservation]) -> Result<(), CheckFault>
    ensures told { Told (T.Timetable.owner timetable.now) (T.Timetable.cycle timetable.now) list.now result }
    ensures only { Only (T.Timetable.owner timetable.now) (T.Timetable.cycle timetable.now) list.now result }
    ensures never { result ≢ Err Overbooked }
{
    examine(timetable, list)
}
