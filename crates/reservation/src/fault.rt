// Why a list of reservations is refused.
ghost use Rattle.std.specs.Prelude.{◌≡◌, ℕ};
ghost use Rattle.reservation.specs.Numbers.{number_of};

use thiserror::Error;

/// A refusal of a list of reservations, with what it tells besides its number. Indices count from 0.
#[derive(Clone, Copy, PartialEq, Eq, Debug, Error)]
pub enum CheckFault {
    /// 11: there are over 16 reservations.
    #[error("11: over 16 reservations")]
    TooMany,
    /// 12: a field of this reservation, the first such one, is outside its range.
    #[error("12: a field of reservation {index} is outside its range")]
    OutOfRange {
        index: usize,
    },
    /// 13: an earlier reservation is for the same activity; this is the first one of which that is so.
    #[error("13: reservation {index} is for an activity that has one already")]
    Twice {
        index: usize,
    },
    /// 14: this reservation, the first such one, is not served. Of its windows that begin at 0 or later,
    /// the first that is short begins at `start`, and its activity owns `found` ticks there.
    #[error("14: reservation {index} is short: it has {found} ticks in its window from tick {start} on")]
    Short {
        index: usize,
        start: u16,
        found: u16,
    },
    /// 15: all together ask for more ticks than there are.
    #[error("15: all together ask for more ticks than there are")]
    Overbooked,
}

impl CheckFault {
    /// The number of the refusal.
    pub fn number(&self) -> u8
        ensures { result ≡ number_of self.now }
    {
        match self {
            CheckFault::TooMany => 11,
            CheckFault::OutOfRange { .. } => 12,
            CheckFault::Twice { .. } => 13,
            CheckFault::Short { .. } => 14,
            CheckFault::Overbooked => 15,
        }
    }
}
