// Why a plan is refused.
ghost use Rattle.std.specs.Prelude.{◌≡◌, ℕ};
ghost use Rattle.plan.specs.Numbers.{number_of};
ghost use Rattle.plan.specs.declared.fault.PlanFault.TheVariants.{Memory};

use std::alloc::AllocError;
use thiserror::Error;

/// A refusal of a plan, with what it tells besides its number. Indices count from 0.
#[derive(Clone, Copy, PartialEq, Eq, Debug, Error)]
pub enum PlanFault {
    /// 21: the base period or the depth is outside its range.
    #[error("21: the base period is outside 1 to 64, or the depth above 5")]
    Dimensions,
    /// 22: there are over 120 entries.
    #[error("22: over 120 entries")]
    TooManyEntries,
    /// 23: a field of this entry, the first such one, is outside its range.
    #[error("23: a field of entry {index} is outside its range")]
    OutOfRange { index: usize },
    /// 24: these two entries clash. No pair with a smaller later index does, nor one with this later and a smaller earlier one.
    #[error("24: entry {later} clashes with entry {earlier}")]
    Clash { later: usize, earlier: usize },
    /// There was no memory for the entries. It has no number, since the plan itself is sound.
    #[error("no memory for the plan")]
    Memory,
}

impl PlanFault {
    /// The number of the refusal.
    pub fn number(&self) -> Option<u8>
        ensures { result ≡ number_of self.now }
    {
        match self {
            PlanFault::Dimensions => Some(21),
            PlanFault::TooManyEntries => Some(22),
            PlanFault::OutOfRange { .. } => Some(23),
            PlanFault::Clash { .. } => Some(24),
            PlanFault::Memory => None,
        }
    }
}

// By hand, since what `#[from]` writes has no contract, and `fill` needs this one's.
impl From<AllocError> for PlanFault {
    ghost from_gives = { λ _ r. r ≡ Memory };

    fn from(_: AllocError) -> PlanFault {
        PlanFault::Memory
    }
}
