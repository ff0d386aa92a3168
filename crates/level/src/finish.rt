// Tickets are spent: a constraint ends, or its ticket is left with the level.
ghost use Rattle.std.specs.Prelude.{◌≡◌, ℕ, ℤ};
ghost use Rattle.level.specs.Levels.{Calls, end_event, leave_event, TicketBack};

use crate::level::Level;
use crate::refusal::Refusal;
use crate::ticket::Ticket;
use spare::rule::SpareRule;
use timetable::table::Timetable;

impl<T: Timetable, R: SpareRule> Level<T, R> {
    /// Ends the constraint: its marks still to come go, its seat is free again, and the ticks that it has run are returned.
    /// A refusal hands the ticket back.
    pub fn end(&mut self, ticket: Ticket) -> Result<u32, (Refusal, Ticket)>
        ensures called { Calls T.Timetable R.SpareRule self.old (end_event ticket result) self.new }
        ensures back { TicketBack ticket result }
    {
        let seat = self.inner.redeem(ticket)?;
        Ok(self.inner.free_seat(seat))
    }

    /// Leaves the ticket with the level; the constraint goes on, and `collect` gives the ticket back. A refusal hands it back at once.
    pub fn leave(&mut self, ticket: Ticket) -> Result<(), (Refusal, Ticket)>
        ensures called { Calls T.Timetable R.SpareRule self.old (leave_event ticket result) self.new }
        ensures back { TicketBack ticket result }
    {
        let seat = self.inner.redeem(ticket)?;
        self.inner.hand_ticket(seat, false);
        Ok(())
    }
}
