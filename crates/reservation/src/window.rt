// The windows of a timetable, one after the other. Each is counted from the one before it,
// so that a reservation costs about two questions for each tick of the cycle and one for each tick of its period.
ghost use Rattle.std.specs.Prelude.{◌≡◌, ℕ, ◌≤◌, ℤ, pos, MatchOption};
ghost use Rattle.reservation.specs.Windows.{owned_at, owned};
ghost use Rattle.reservation.specs.Reservations.{InRange, IsServed};
ghost use Rattle.reservation.specs.Told.{FirstShort};

use crate::reservation::Reservation;
use timetable::table::Timetable;

// A window that begins at `start`, and how many of its ticks the activity owns.
#[derive(Clone, Copy)]
pub(crate) struct Window {
    pub(crate) start: u16,
    pub(crate) found: u16,
}

// 1 where the activity owns the tick, and 0 elsewhere.
fn owned_at<T: Timetable>(timetable: &T, activity: u8, t: u16) -> u16
    ensures value { result ≡ owned_at (T.Timetable.owner timetable.now) activity (pos t) }
    ensures most { result ≤ 1 }
{
    u16::from(timetable.owner_at(i32::from(t)) == Some(activity))
}

// How many of the first `len` ticks from 0 the activity owns.
fn count_first<T: Timetable>(timetable: &T, activity: u8, len: u16) -> u16
    ensures { result ≡ owned (T.Timetable.owner timetable.now) activity (pos 0) len }
{
    (0..len).map(|t| owned_at(timetable, activity, t)).sum()
}

// The first window, at 0 or later, that is too short for the reservation.
// One cycle of them is enough: each window in the past and the future has the same owners as one that begins there.
pub(crate) fn first_short<T: Timetable>(timetable: &T, reservation: &Reservation) -> Option<Window>
    requires { InRange reservation.now }
    ensures { MatchOption result (IsServed (T.Timetable.owner timetable.now) reservation.now) (λ w. FirstShort (T.Timetable.owner timetable.now) (T.Timetable.cycle timetable.now) reservation.now w.start w.found) }
{
    let activity = reservation.activity;
    let mut found = count_first(timetable, activity, reservation.period);
    // A loop, since each count is made from the one before it.
    for start in 0..timetable.cycle().ticks {
        if found < reservation.ticks {
            return Some(Window { start, found });
        }
        let entering = owned_at(timetable, activity, start + reservation.period);
        let leaving = owned_at(timetable, activity, start);
        found = found + entering - leaving;
    }
    None
}
