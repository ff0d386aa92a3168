// A ticket that is taken to another level first.
ghost use Rattle.std.specs.Prelude.{◌≡◌};

use level::level::Level;
use level::refusal::Refusal;
use spare::rule::SpareRule;
use timetable::table::Timetable;

/// Begins a constraint at home, tries to end it elsewhere, and then ends it at home, where the ticket is never refused.
/// Returns why the other level refused it, or nothing where it did not, and the ticks run; or why the constraint was not begun.
pub fn end_elsewhere_first<T: Timetable, R: SpareRule, U: Timetable, S: SpareRule>(
    home: &mut Level<T, R>,
    other: &mut Level<U, S>,
    seat: u16,
    activity: u16,
    deadline: i32,
) -> Result<(Option<Refusal>, u32), Refusal> {
    let start = home.clock();
    let ticket = home.begin(seat, activity, start, 1, deadline)?;
    match other.end(ticket) {
        Ok(ran) => Ok((None, ran)),
        Err((refusal, ticket)) => Ok((Some(refusal), home.end(ticket).unwrap())),
    }
}
