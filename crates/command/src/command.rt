// The commands of a script.
ghost use Rattle.std.specs.Prelude.{◌≡◌, ℕ};
ghost use Rattle.command.specs.Grammar.{script_number, fault_line};

use thiserror::Error;

/// What one line of a script says.
#[derive(Clone, Copy, PartialEq, Eq, Debug)]
pub enum Command {
    /// `o CLOCK R`: a level is opened, its spare rule a queue under a hold of R.
    Open {
        clock: i32,
        repeats: u8,
    },
    /// `w A`
    Wake {
        activity: u16,
    },
    /// `b A`
    Block {
        activity: u16,
    },
    /// `t N`: so many ticks, 1 to 9,999.
    Tick {
        count: u16,
    },
    /// `c SEAT A START DEADLINE E`
    Begin {
        seat: u16,
        activity: u16,
        start: i32,
        deadline: i32,
        estimate: u16,
    },
    /// `e SEAT`
    End {
        seat: u16,
    },
}

/// Why a script is not read on.
#[derive(Clone, Copy, PartialEq, Eq, Debug, Error)]
pub enum ScriptFault {
    /// 35: this line, counted from 1, is malformed.
    #[error("35: line {line} is malformed")]
    Malformed { line: u32 },
}

impl ScriptFault {
    /// The number of the refusal.
    pub fn number(&self) -> u8
        ensures { result ≡ script_number self.now }
    {
        match self {
            ScriptFault::Malformed { .. } => 35,
        }
    }

    /// The line, counted from 1.
    pub fn line(&self) -> u32
        ensures { result ≡ fault_line self.now }
    {
        match *self {
            ScriptFault::Malformed { line } => line,
        }
    }
}
