// Sets of ready activities.
ghost use Rattle.std.specs.Prelude.{◌≡◌, ℕ, ◌<◌, ◌≤◌, true, false, Decides, ◌≢◌, nat_lt};
ghost use Rattle.spare.specs.Sets.{is_ready};

/// How many activities there are: 0 to 15.
pub const ACTIVITIES: u8 = 16;

/// The activities in the order of their numbers.
pub(crate) const IN_ORDER: [u8; 16] = [0, 1, 2, 3, 4, 5, 6, 7, 8, 9, 10, 11, 12, 13, 14, 15];

/// A set of activities. No number above 15 is ever in one.
// An array with a place for each, since the set is copied at each call and takes no memory from a heap.
#[derive(Clone, Copy, Debug)]
pub struct ReadySet {
    members: [bool; 16],
}

impl ReadySet {
    /// The set in which nobody is.
    pub fn empty() -> ReadySet
        ensures { (a : ℕ) → is_ready result a ≡ false }
    {
        ReadySet {
            members: [false; 16],
        }
    }

    /// The set of all sixteen.
    pub fn all() -> ReadySet
        ensures { (a : ℕ) → is_ready result a ≡ nat_lt a 16 }
    {
        ReadySet {
            members: [true; 16],
        }
    }

    /// Whether the activity is in the set.
    pub fn has(self, activity: u8) -> bool
        ensures { result ≡ is_ready self activity }
    {
        activity < ACTIVITIES && self.members[usize::from(activity)]
    }

    /// The set with this activity in it too; for a number above 15 the set as it is.
    pub fn with(self, activity: u8) -> ReadySet
        ensures member { activity < 16 → is_ready result activity ≡ true }
        ensures others { (b : ℕ) → (b ≢ activity) → is_ready result b ≡ is_ready self b }
        ensures unknown { 16 ≤ activity → result ≡ self }
    {
        self.having(activity, true)
    }

    /// The set without this activity; for a number above 15 the set as it is.
    pub fn without(self, activity: u8) -> ReadySet
        ensures member { is_ready result activity ≡ false }
        ensures others { (b : ℕ) → (b ≢ activity) → is_ready result b ≡ is_ready self b }
        ensures unknown { 16 ≤ activity → result ≡ self }
    {
        self.having(activity, false)
    }

    // The set in which this activity is, or is not, and all else is as it was.
    fn having(self, activity: u8, member: bool) -> ReadySet
        ensures member { activity < 16 → is_ready result activity ≡ member }
        ensures others { (b : ℕ) → (b ≢ activity) → is_ready result b ≡ is_ready self b }
        ensures unknown { 16 ≤ activity → result ≡ self }
    {
        let mut members = self.members;
        // By index: after `get_mut` (tried) a proof has the length of what was written, and not its elements.
        if activity < ACTIVITIES {
            members[usize::from(activity)] = member;
        }
        ReadySet { members }
    }

    /// Whether nobody is in the set.
    pub fn is_empty(self) -> bool
        ensures { Decides result ((a : ℕ) → is_ready self a ≡ false) }
    {
        !self.members.contains(&true)
    }
}
