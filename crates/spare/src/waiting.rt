// Asking a rule again and again, and what every rule promises to whoever stays ready.
ghost use Rattle.std.specs.Prelude.{◌≡◌, ℕ, min, length, take, drop};
ghost use Rattle.spare.specs.Calls.{NeverStarves, Ran, EachServed};
ghost use Rattle.spare.specs.Asking.{CallOf};

use crate::ready::ReadySet;
use crate::rule::SpareRule;

/// Asks the rule once for each set, in their order, writes down whom it names, and returns how many it asked for: all of the sets,
/// or as many as there is room for. Later names stay as they are.
///
/// Of any patience + 1 of these calls in a row at which an activity is ready, at least one names it; and so it will be in all
/// calls of the rule from now on, whatever it is asked.
pub fn name_each<R: SpareRule>(rule: &mut R, sets: &[ReadySet], names: &mut [Option<u8>]) -> usize
    ensures count { result ≡ min (length sets.now) (length names.old) }
    ensures ran { Ran (CallOf R.SpareRule) rule.old (take result sets.now) (take result names.new) rule.new }
    ensures rest { drop result names.new ≡ drop result names.old }
    ensures served { EachServed (R.SpareRule.patience rule.old) (take result sets.now) (take result names.new) }
    ensures always { NeverStarves R.SpareRule rule.new }
{
    let count = sets.len().min(names.len());
    // By place: over a `zip` with `iter_mut` (tried) the proof has the length of what was written, and not whom it names.
    for k in 0..count {
        names[k] = rule.choose(sets[k]);
    }
    count
}
