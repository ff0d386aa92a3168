// The numbers of activities.
ghost use Rattle.std.specs.Prelude.{MatchResult};
ghost use Rattle.level.specs.Parts.{Known, Unknown};

use crate::refusal::Refusal;
use spare::ready::ACTIVITIES;

// The activity of this number, where there is one.
pub(crate) fn known(number: u16) -> Result<u8, Refusal>
    ensures { MatchResult result (Known number) (Unknown number) }
{
    match u8::try_from(number) {
        Ok(activity) if activity < ACTIVITIES => Ok(activity),
        _ => Err(Refusal::UnknownActivity),
    }
}
