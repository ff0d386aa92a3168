// The first line of a script.
ghost use Rattle.std.specs.Prelude.{ℕ};
ghost use Rattle.command.specs.Openings.{OpeningRead};

use crate::command::{Command, ScriptFault};
use crate::reader::Reader;

/// The most bytes of a script.
pub const MOST_BYTES: usize = 16384;

/// What the first line of a script says, and the reader behind it.
#[derive(Drop)]
pub struct Opening<'a> {
    pub clock: i32,
    pub repeats: u8,
    pub reader: Reader<'a>,
}

/// Reads the first line of a script. A script that is too long, or whose first line does not open, is malformed at line 1.
pub fn read_opening(script: &[u8]) -> Result<Opening<'_>, ScriptFault>
    ensures { OpeningRead script.now result }
{
    if script.len() > MOST_BYTES {
        return Err(ScriptFault::Malformed { line: 1 });
    }
    let mut reader = Reader::new(script);
    match reader.command()? {
        Command::Open { clock, repeats } => Ok(Opening {
            clock,
            repeats,
            reader,
        }),
        _ => Err(ScriptFault::Malformed { line: 1 }),
    }
}
