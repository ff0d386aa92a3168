// Why a call of a level is refused.
ghost use Rattle.std.specs.Prelude.{◌≡◌, ℕ};
ghost use Rattle.level.specs.Numbers.{number_of};

use thiserror::Error;

/// A refusal of a call, with what it tells besides its number. A refused call leaves the level as it was.
#[derive(Clone, Copy, PartialEq, Eq, Debug, Error)]
pub enum Refusal {
    /// 1: the clock stands at its last value, so that no tick can be run.
    #[error("1: the clock stands at its last value")]
    ClockAtEnd,
    /// 2: the activity is above 15.
    #[error("2: the activity is above 15")]
    UnknownActivity,
    /// 3: the estimate is 0.
    #[error("3: the estimate is 0")]
    ZeroEstimate,
    /// 4: the start lies before the clock.
    #[error("4: the start lies before the clock")]
    EarlyStart,
    /// 5: the deadline does not come after the start, or lies over 1,024 ticks past the clock.
    #[error("5: the deadline does not come after the start, or lies over 1,024 ticks past the clock")]
    BadDeadline,
    /// 6: the seat is above 15, or in use.
    #[error("6: the seat is above 15, or in use")]
    SeatUnavailable,
    /// 7: fewer ticks are available than the estimate asks for; this many are.
    #[error("7: only {available} ticks are available")]
    TooFew { available: u16 },
    /// 8: the ticket is of another level, or its seat is unused, or that seat's ticket was left with the level.
    #[error("8: the ticket is of another level, or no ticket of its seat is out")]
    InvalidTicket,
    /// 9: the seat is above 15, or no ticket was left there.
    #[error("9: no ticket was left at the seat")]
    NoTicketLeft,
}

impl Refusal {
    /// The number of the refusal.
    pub fn number(&self) -> u8
        ensures { result ≡ number_of self.now }
    {
        match self {
            Refusal::ClockAtEnd => 1,
            Refusal::UnknownActivity => 2,
            Refusal::ZeroEstimate => 3,
            Refusal::EarlyStart => 4,
            Refusal::BadDeadline => 5,
            Refusal::SeatUnavailable => 6,
            Refusal::TooFew { .. } => 7,
            Refusal::InvalidTicket => 8,
            Refusal::NoTicketLeft => 9,
        }
    }
}
