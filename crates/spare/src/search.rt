// Finding the first ready activity of a list.
ghost use Rattle.std.specs.Prelude.{ℕ, MatchOption};
ghost use Rattle.spare.specs.Search.{FirstAt, NoneIn};
ghost use Rattle.spare.specs.Sets.{is_ready};

use crate::ready::ReadySet;

// The first place at which a ready activity stands.
pub(crate) fn first_ready(places: &[u8], ready: ReadySet) -> Option<usize>
    ensures { MatchOption result (NoneIn (is_ready ready) places.now) (FirstAt (is_ready ready) places.now) }
{
    places.iter().position(|&activity| ready.has(activity))
}
