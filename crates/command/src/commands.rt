// Lines read as commands.
ghost use Rattle.std.specs.Prelude.{◌≡◌, ℕ, true, false, is_ok, is_some, if◌then◌else◌};
ghost use Rattle.command.specs.Reading.{GoesOn, open_in, open_rest, tick_in, begin_in, begin_rest, field_rest, fields_in, fields_rest, line_in, line_rest, next_line};
ghost use Rattle.command.specs.Grammar.{Reads, ReadsNumbered, ReadOnce};

use crate::command::{Command, ScriptFault};
use crate::reader::Reader;

impl Reader<'_> {
    // ` CLOCK R`
    #[tactic(auto, unfolding(crate::specs::Reading::open_in, crate::specs::Reading::open_rest))]
    fn open_fields(&mut self) -> Option<Command>
        ensures value { result ≡ open_in self.old.rest }
        ensures after { GoesOn result self.old (open_rest self.old.rest) self.new }
    {
        let clock = self.signed_field()?;
        let repeats = u8::try_from(self.field(255)?).ok()?;
        Some(Command::Open { clock, repeats })
    }

    // ` N`
    #[tactic(auto, unfolding(crate::specs::Reading::tick_in))]
    fn tick_fields(&mut self) -> Option<Command>
        ensures value { result ≡ tick_in self.old.rest }
        ensures after { GoesOn result self.old (field_rest self.old.rest) self.new }
    {
        let count = self.field(9999)?;
        (count != 0).then_some(Command::Tick { count })
    }

    // ` SEAT A START DEADLINE E`
    #[tactic(auto, unfolding(crate::specs::Reading::begin_in, crate::specs::Reading::begin_rest))]
    fn begin_fields(&mut self) -> Option<Command>
        ensures value { result ≡ begin_in self.old.rest }
        ensures after { GoesOn result self.old (begin_rest self.old.rest) self.new }
    {
        Some(Command::Begin {
            seat: self.field(u16::MAX)?,
            activity: self.field(u16::MAX)?,
            start: self.signed_field()?,
            deadline: self.signed_field()?,
            estimate: self.field(u16::MAX)?,
        })
    }

    // The fields behind a letter, and the command that they make.
    #[tactic(auto, unfolding(crate::specs::Reading::fields_in, crate::specs::Reading::fields_rest, crate::specs::Reading::wake_in, crate::specs::Reading::block_in, crate::specs::Reading::end_in))]
    fn fields(&mut self, letter: u8) -> Option<Command>
        ensures value { result ≡ fields_in letter self.old.rest }
        ensures after { GoesOn result self.old (fields_rest letter self.old.rest) self.new }
    {
        // Letters as characters: the project's form for commands.
        match letter as char {
            'o' => self.open_fields(),
            'w' => Some(Command::Wake {
                activity: self.field(u16::MAX)?,
            }),
            'b' => Some(Command::Block {
                activity: self.field(u16::MAX)?,
            }),
            't' => self.tick_fields(),
            'c' => self.begin_fields(),
            'e' => Some(Command::End {
                seat: self.field(u16::MAX)?,
            }),
            _ => None,
        }
    }

    // A whole line: a letter, its fields and byte 10.
    #[tactic(auto, unfolding(crate::specs::Reading::line_in, crate::specs::Reading::line_rest))]
    fn read_line(&mut self) -> Option<Command>
        ensures value { result ≡ line_in self.old.rest }
        ensures after { is_some result ≡ true → self.new.rest ≡ line_rest self.old.rest }
        ensures line { self.new.line ≡ (if is_some result then next_line self.old.line else self.old.line) }
    {
        let letter = self.next_byte()?;
        let command = self.fields(letter)?;
        self.line_end()?;
        Some(command)
    }

    /// The command that the next line says; the reader stands behind the line's byte 10 then. Where the text goes on with no line of a
    /// command, the line is malformed.
    pub fn command(&mut self) -> Result<Command, ScriptFault>
        ensures reads { Reads self.old.rest self.old.line result self.new.rest }
        ensures line { self.new.line ≡ (if is_ok result then next_line self.old.line else self.old.line) }
        ensures once { ReadOnce }
    {
        let line = self.line();
        self.read_line().ok_or(ScriptFault::Malformed { line })
    }

    /// The same, with the line's number beside its command.
    pub fn numbered_command(&mut self) -> Result<(u32, Command), ScriptFault>
        ensures reads { ReadsNumbered self.old.rest self.old.line result self.new.rest }
        ensures line { is_ok result ≡ true → self.new.line ≡ next_line self.old.line }
        ensures stays { is_ok result ≡ false → self.new.line ≡ self.old.line }
        ensures once { ReadOnce }
    {
        let line = self.line();
        let command = self.command()?;
        Ok((line, command))
    }
}
