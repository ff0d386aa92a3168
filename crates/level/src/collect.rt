// Tickets that were left are collected.
ghost use Rattle.std.specs.Prelude.{ℕ, ℤ};
ghost use Rattle.level.specs.Levels.{Calls, collect_event};

use crate::level::Level;
use crate::refusal::Refusal;
use crate::ticket::Ticket;
use spare::rule::SpareRule;
use timetable::table::Timetable;

impl<T: Timetable, R: SpareRule> Level<T, R> {
    /// Gives back the ticket that was left at the seat.
    pub fn collect(&mut self, seat: u16) -> Result<Ticket, Refusal>
        ensures { Calls T.Timetable R.SpareRule self.old (collect_event seat result) self.new }
    {
        if !self.inner.has_left(seat) {
            return Err(Refusal::NoTicketLeft);
        }
        // It fits, since only a seat below 16 has a ticket left.
        let seat = seat as u8;
        self.inner.hand_ticket(seat, true);
        Ok(Ticket {
            level: self.inner.number,
            seat,
        })
    }
}
