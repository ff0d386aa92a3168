// Constraints begin.
ghost use Rattle.std.specs.Prelude.{ℕ, ℤ};
ghost use Rattle.level.specs.Levels.{meaning, Calls, begin_event};
ghost use Rattle.level.specs.Parts.{Admits};

use crate::activity::known;
use crate::constraint::Constraint;
use crate::level::Level;
use crate::marking::give;
use crate::refusal::Refusal;
use crate::ticket::Ticket;
use spare::rule::SpareRule;
use timetable::table::Timetable;

impl<T: Timetable, R: SpareRule> Level<T, R> {
    // The constraint that a begin asks for, with its seat, unless something is wrong with it before its ticks are counted.
    fn admit(
        &self,
        seat: u16,
        activity: u16,
        start: i32,
        estimate: u16,
        deadline: i32,
    ) -> Result<(u8, Constraint), Refusal>
        ensures { Admits (meaning T.Timetable R.SpareRule self.now) seat activity start estimate deadline result }
    {
        let activity = known(activity)?;
        if estimate == 0 {
            return Err(Refusal::ZeroEstimate);
        }
        if start < self.inner.clock {
            return Err(Refusal::EarlyStart);
        }
        if deadline <= start {
            return Err(Refusal::BadDeadline);
        }
        let ahead = i64::from(deadline) - i64::from(self.inner.clock);
        if ahead > 1024 {
            return Err(Refusal::BadDeadline);
        }
        if seat > 15 || self.inner.held(seat).is_some() {
            return Err(Refusal::SeatUnavailable);
        }
        let constraint = Constraint {
            activity,
            start,
            deadline,
            estimate,
            ran: 0,
            out: true,
        };
        // It fits, as was just tested: `try_from` would bring an error that can't come.
        Ok((seat as u8, constraint))
    }

    /// Begins a constraint: of the ticks from `start` to before `deadline`, `estimate` are marked for the seat, the activity's own ones
    /// first and then free ones, each earliest first. Returns the ticket with which it is ended.
    pub fn begin(
        &mut self,
        seat: u16,
        activity: u16,
        start: i32,
        estimate: u16,
        deadline: i32,
    ) -> Result<Ticket, Refusal>
        ensures { Calls T.Timetable R.SpareRule self.old (begin_event seat activity start estimate deadline result) self.new }
    {
        let (seat, constraint) = self.admit(seat, activity, start, estimate, deadline)?;
        give(&mut self.inner.board, &self.timetable, seat, &constraint)?;
        self.inner.take_seat(seat, constraint);
        Ok(Ticket {
            level: self.inner.number,
            seat,
        })
    }
}
