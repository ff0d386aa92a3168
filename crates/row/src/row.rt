// The rows of a rehearsal.
ghost use Rattle.std.specs.Prelude.{◌≡◌, ℕ};
ghost use Rattle.row.specs.Rows.{row_number};

use level::ticked::Letter;
use thiserror::Error;

/// A row: what one call of a rehearsal answered. A refusal stands in it by its number: `Refusal` would be narrower for who writes rows.
#[derive(Clone, Copy, PartialEq, Eq, Debug)]
pub enum Row {
    /// `TICK ACTIVITY LETTER`, with `-` for nobody.
    Ran {
        tick: i32,
        runner: Option<u8>,
        letter: Letter,
    },
    /// `c SEAT ok`
    Began {
        seat: u16,
    },
    /// `e SEAT TAKEN`
    Ended {
        seat: u16,
        taken: u32,
    },
    /// `c SEAT no N`
    BeginRefused {
        seat: u16,
        number: u8,
    },
    /// `e SEAT no N`
    EndRefused {
        seat: u16,
        number: u8,
    },
    /// `w A no N`
    WakeRefused {
        activity: u16,
        number: u8,
    },
    /// `b A no N`
    BlockRefused {
        activity: u16,
        number: u8,
    },
    /// `t no N`
    TickRefused {
        number: u8,
    },
    /// `? LINE`
    Malformed {
        line: u32,
    },
}

/// Why a row is not written.
#[derive(Clone, Copy, PartialEq, Eq, Debug, Error)]
pub enum RowFault {
    /// 36: the row and its byte 10 are longer than the buffer.
    #[error("36: the row and its byte 10 are longer than the buffer")]
    Full,
}

impl RowFault {
    /// The number of the refusal.
    pub fn number(&self) -> u8
        ensures { result ≡ row_number self.now }
    {
        match self {
            RowFault::Full => 36,
        }
    }
}
