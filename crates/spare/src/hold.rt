// A hold over any spare rule: the struct, and what can be asked of it. How it chooses stands in `hold_rule`.
ghost use Rattle.std.specs.Prelude.{◌≡◌, ℕ, ◌≤◌, None};

use std::marker::Model;

/// The rule `below`, each of whose choices is repeated up to `repeats` more times while that activity is ready.
#[derive(Drop)]
pub struct Hold<R> {
    pub(crate) below: R,
    pub(crate) repeats: u8,
    pub(crate) choice: Option<u8>,
    pub(crate) left: u8,
    ghost few: { left ≤ repeats },
}

// The value carries the fact `few`, since the law `bounded` of a rule is asked of every value.
impl<R> Model for Hold<R> {
    ghost use Rattle.spare.specs.Holding.{Holding};

    ghost Value = { Holding R };

    ghost view = { λ h. record { below = h.below; repeats = h.repeats; choice = h.choice; left = h.left; few = h.few } };
}

impl<R> Hold<R> {
    /// A hold over `below` that has not chosen yet.
    pub fn new(below: R, repeats: u8) -> Hold<R>
        ensures below { result.below ≡ below }
        ensures repeats { result.repeats ≡ repeats }
        ensures choice { result.choice ≡ None }
        ensures left { result.left ≡ 0 }
    {
        Hold {
            below,
            repeats,
            choice: None,
            left: 0,
        }
    }

    /// The rule below.
    pub fn below(&self) -> &R
        ensures { result.now ≡ self.now.below }
    {
        &self.below
    }

    /// How many more times a choice is repeated at most.
    pub fn repeats(&self) -> u8
        ensures { result ≡ self.now.repeats }
    {
        self.repeats
    }

    /// The last choice, if there is one yet.
    pub fn choice(&self) -> Option<u8>
        ensures { result ≡ self.now.choice }
    {
        self.choice
    }

    /// How many more times the last choice may still be repeated.
    pub fn left(&self) -> u8
        ensures left { result ≡ self.now.left }
        ensures few { result ≤ self.now.repeats }
    {
        self.left
    }

    /// The rule below, with the hold taken away.
    pub fn into_below(self) -> R
        ensures { result ≡ self.below }
    {
        let Hold { below, .. } = self;
        below
    }
}
