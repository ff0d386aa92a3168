// How the seats of a level change: one of them is lent and changed, and the other fifteen stay.
ghost use Rattle.std.specs.Prelude.{◌≡◌, ℕ, ◌<◌, true, false, ℤ, MatchBool, MatchResult, Some};
ghost use Rattle.level.specs.Seats.{seat_at, handed};
ghost use Rattle.level.specs.Parts.{Reseat, Freed, TicketIsOut, TicketIsInvalid, Redeemed, Rejected, TicketIsLeft, NoTicketIsLeft};

use crate::constraint::Constraint;
use crate::inner::Inner;
use crate::refusal::Refusal;
use crate::ticket::Ticket;

// That a seat is below 16 is asked of who calls: a `Ticket` has no such fact, since the promises speak of any level and seat.
impl Inner {
    // What the seat holds; one above 15 holds nothing.
    pub(crate) fn held(&self, seat: u16) -> Option<Constraint>
        ensures { result ≡ seat_at self.now.seats seat }
    {
        *self.seats.get(usize::from(seat))?
    }

    // A constraint that has not run yet takes the seat.
    pub(crate) fn take_seat(&mut self, seat: u8, constraint: Constraint)
        requires { (seat < 16) × (constraint.ran ≡ 0) }
        ensures { Reseat self.old seat (Some constraint) self.new }
    {
        let place = &mut self.seats[usize::from(seat)];
        *place = Some(constraint);
    }

    // The seat's ticket goes out, or is left.
    pub(crate) fn hand_ticket(&mut self, seat: u8, out: bool)
        requires { seat < 16 }
        ensures { Reseat self.old seat (handed out (seat_at self.old.seats seat)) self.new }
    {
        if let Some(held) = &mut self.seats[usize::from(seat)] {
            held.out = out;
        }
    }

    // The seat's constraint is over: its marks go, and the ticks that it has run are returned.
    pub(crate) fn free_seat(&mut self, seat: u8) -> u32
        requires { seat < 16 }
        ensures { Freed self.old seat result self.new }
    {
        let place = &mut self.seats[usize::from(seat)];
        let ran = place.take().map_or(0, |held| held.ran);
        self.board.release(seat);
        ran
    }

    // Whether the ticket is of this level, and its seat's ticket is out.
    pub(crate) fn accepts(&self, ticket: &Ticket) -> bool
        ensures { MatchBool result (TicketIsOut self.now ticket.now) (TicketIsInvalid self.now ticket.now) }
    {
        ticket.level == self.number
            && self
                .held(u16::from(ticket.seat))
                .is_some_and(|held| held.out)
    }

    // The ticket is spent, if it is accepted, and tells its seat; else it comes back.
    pub(crate) fn redeem(&self, ticket: Ticket) -> Result<u8, (Refusal, Ticket)>
        ensures { MatchResult result (Redeemed self.now ticket) (Rejected self.now ticket) }
    {
        if !self.accepts(&ticket) {
            return Err((Refusal::InvalidTicket, ticket));
        }
        let Ticket { level: _, seat } = ticket;
        Ok(seat)
    }

    // Whether the seat's ticket was left.
    pub(crate) fn has_left(&self, seat: u16) -> bool
        ensures { MatchBool result (TicketIsLeft self.now seat) (NoTicketIsLeft self.now seat) }
    {
        self.held(seat).is_some_and(|held| !held.out)
    }
}
