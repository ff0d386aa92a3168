// Why a wheel is refused.
ghost use Rattle.std.specs.Prelude.{◌≡◌, ℕ};
ghost use Rattle.spare.specs.Told.{number_of};
ghost use Rattle.spare.specs.declared.fault.WheelFault.TheVariants.{Memory};

use std::alloc::AllocError;
use thiserror::Error;

/// A refusal of the places of a wheel.
#[derive(Clone, Copy, PartialEq, Eq, Debug, Error)]
pub enum WheelFault {
    /// 25: there are under 16 or over 64 places, one of them is over 15, or an activity has none.
    #[error("25: not 16 to 64 places, each an activity, with every activity among them")]
    Places,
    /// There was no memory for the places. It has no number, since the places themselves are sound.
    #[error("no memory for the wheel")]
    Memory,
}

impl WheelFault {
    /// The number of the refusal.
    pub fn number(&self) -> Option<u8>
        ensures { result ≡ number_of self.now }
    {
        match self {
            WheelFault::Places => Some(25),
            WheelFault::Memory => None,
        }
    }
}

// By hand, since what `#[from]` writes has no contract, and `fill` needs this one's.
impl From<AllocError> for WheelFault {
    ghost from_gives = { λ _ r. r ≡ Memory };

    fn from(_: AllocError) -> WheelFault {
        Self::Memory
    }
}
