// How a hold chooses, and that it is a spare rule if the one below is.
ghost use Rattle.std.specs.Prelude.{◌≡◌, ℕ, ◌+◌, ◌*◌, ◌<◌, true, false, Some, MatchOption};
ghost use Rattle.spare.specs.Asking.{CallOf};
ghost use Rattle.spare.specs.Holds.{HoldStep, Held, repeating};
ghost use Rattle.spare.specs.Sets.{is_ready};
ghost use Rattle.spare.specs.Falls.{held_bound};

use crate::hold::Hold;
use crate::ready::ReadySet;
use crate::rule::SpareRule;

impl<R> Hold<R> {
    // The choice that is to be repeated now.
    fn held(&self, ready: ReadySet) -> Option<u8>
        ensures { MatchOption result (repeating (is_ready ready) self.now ≡ false) (λ a. Held (is_ready ready) self.now a) }
    {
        let activity = self.choice?;
        (self.left > 0 && ready.has(activity)).then_some(activity)
    }
}

impl<R: SpareRule> SpareRule for Hold<R> {
    ghost distance = { λ h a. (h.repeats + 1) * R.SpareRule.distance h.below a + h.left };

    ghost patience = { λ h. (h.repeats + 1) * R.SpareRule.patience h.below + h.repeats };

    ghost step = { HoldStep (CallOf R.SpareRule) };

    ghost bounded = { λ x a h. held_bound x.repeats _ _ x.left (R.SpareRule.bounded x.below a h) x.few };

    fn choose(&mut self, ready: ReadySet) -> Option<u8> {
        if let Some(activity) = self.held(ready) {
            self.left -= 1;
            return Some(activity);
        }
        let activity = self.below.choose(ready)?;
        self.choice = Some(activity);
        self.left = self.repeats;
        Some(activity)
    }
}
