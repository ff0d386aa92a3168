// The interface of spare rules.
ghost use Rattle.std.specs.Prelude.{◌≡◌, ℕ, ◌<◌, ◌≤◌, Bool, Option};
ghost use Rattle.spare.specs.Chosen.{Chosen};
ghost use Rattle.spare.specs.Sets.{is_ready};

use crate::ready::ReadySet;

/// A rule for who gets a spare tick. It starves nobody: each activity has a distance, which falls whenever the activity is ready
/// and another is named, so that one that stays ready is passed over at most as often as the rule's patience says.
pub trait SpareRule {
    /// At most how often an activity that stays ready is passed over from now on.
    ghost distance: { Self → ℕ → ℕ };

    /// What no distance ever exceeds.
    ghost patience: { Self → ℕ };

    /// What a call does beyond the interface's clause: the rule before, who is ready, the answer and the rule after.
    /// A rule that leaves it out says nothing more; one that gives it can be pinned under a rule that stands over it.
    ghost step: { Self → (ℕ → Bool) → Option ℕ → Self → Type 0 } = { λ _ _ _ _. Unit {0} };

    /// Names a ready activity, or nobody where nobody is ready. It never refuses.
    fn choose(&mut self, ready: ReadySet) -> Option<u8>
        ensures chosen { Chosen (is_ready ready) (distance self.old) (patience self.old) result (distance self.new) (patience self.new) }
        ensures exact { step self.old (is_ready ready) result self.new };

    ghost bounded: { (x : Self) (a : ℕ) → a < 16 → distance x a ≤ patience x };
}
