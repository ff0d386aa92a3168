// A seat above the last one.
ghost use Rattle.std.specs.Prelude.{◌≡◌, ◌<◌, ℕ, ℤ, None};
ghost use Rattle.level.specs.Levels.{meaning};

use level::constraint::Constraint;
use level::level::Level;
use spare::rule::SpareRule;
use timetable::table::Timetable;

/// What the seat holds. That one above 15 holds nothing is concluded from the contract of `Level::seat` alone.
pub fn seat_beyond<T: Timetable, R: SpareRule>(level: &Level<T, R>, seat: u16) -> Option<Constraint>
    ensures value { result ≡ (meaning T.Timetable R.SpareRule level.now).seats seat }
    ensures none { 15 < seat → result ≡ None }
{
    level.seat(seat)
}
