// How a script with a ticket ends.
ghost use Rattle.std.specs.Prelude.{◌≡◌, ℕ, ℤ};
ghost use Rattle.level.specs.Levels.{meaning};
ghost use Rattle.scripts.specs.declared.outcome.Failure.TheVariants.{Missing};
ghost use Rattle.scripts.specs.Outcomes.{Finished};
ghost use Rattle.scripts.specs.Plays.{LevelPlays};

use level::level::Level;
use level::refusal::Refusal;
use level::ticket::Ticket;
use spare::rule::SpareRule;
use timetable::table::Timetable;

/// Why a constraint was not ended.
// No `thiserror`: an error can be dropped, and a ticket cannot.
pub enum Failure {
    /// It was not begun, or its ticket was not there.
    Missing { refusal: Refusal },
    /// The ticket was refused, and is still here.
    Held { refusal: Refusal, ticket: Ticket },
}

// By hand, since a derived one has no contract, and `?` needs what this one gives.
impl From<Refusal> for Failure {
    ghost from_gives = { λ refusal r. r ≡ Missing refusal };

    fn from(refusal: Refusal) -> Failure {
        Failure::Missing { refusal }
    }
}

/// Ends the constraint of the ticket, and returns the ticks that it has run.
pub fn finish<T: Timetable, R: SpareRule>(
    level: &mut Level<T, R>,
    ticket: Ticket,
) -> Result<u32, Failure>
    ensures done { Finished (meaning T.Timetable R.SpareRule level.old) ticket result (meaning T.Timetable R.SpareRule level.new) }
    ensures plays { LevelPlays T.Timetable R.SpareRule level.old level.new }
{
    level
        .end(ticket)
        .map_err(|(refusal, ticket)| Failure::Held { refusal, ticket })
}
