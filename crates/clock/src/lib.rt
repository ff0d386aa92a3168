// Signed times, divided by rounding toward minus infinity, so that a table reads the same on both sides of zero.
// The lowest layer: it uses no other crate.
#![tactic(auto)]

ghost use Rattle.std.specs.Prelude.{◌≡◌, ℕ, ◌<◌, ◌≤◌, ℤ, ◌-ℤ◌, MatchOption};
ghost use Rattle.clock.specs.Floor.{floor_div, floor_mod, Lies};

/// A number of ticks, 1 to `MOST`.
#[derive(Clone, Copy, PartialEq, Eq, Debug)]
pub struct Span<const MOST: u16> {
    pub ticks: u16,
    ghost range: { (1 ≤ ticks) × (ticks ≤ MOST) },
}

/// The number of ticks in a frame, 1 to 64.
pub type BasePeriod = Span<64>;

/// The length after which something repeats, 1 to 2,048.
pub type Cycle = Span<2048>;

/// Where a tick lies: in which frame, and how many ticks after that frame's first one.
#[derive(Clone, Copy, PartialEq, Eq, Debug)]
pub struct Place {
    pub frame: i32,
    pub offset: u16,
}

impl<const MOST: u16> Span<MOST> {
    /// The span of that many ticks, or nothing outside 1 to `MOST`.
    pub fn new(ticks: u16) -> Option<Span<MOST>>
        ensures { MatchOption result ((1 ≤ ticks) × (ticks ≤ MOST) → ⊥) (λ s. s.ticks ≡ ticks) }
    {
        // A guard: `then_some` would make the span first, which is none out of range.
        if ticks < 1 || MOST < ticks {
            return None;
        }
        Some(Span { ticks })
    }
}

impl BasePeriod {
    // Both parts of a tick in 32 bits, where one division gives them: 7 ns. With `phase` below, which needs 64 bits, it is 10 (tried).
    fn frame(self, t: i32) -> i32
        ensures { result ≡ floor_div t self.ticks }
    {
        t.div_euclid(i32::from(self.ticks))
    }

    fn offset(self, t: i32) -> u16
        ensures { result ≡ floor_mod t self.ticks }
    {
        t.rem_euclid(i32::from(self.ticks)) as u16
    }

    /// The one place at which the tick `t` lies.
    pub fn place(self, t: i32) -> Place
        ensures lies { Lies t self.ticks result.frame result.offset }
        ensures only { (f : ℤ) (o : ℕ) → Lies t self.ticks f o → (f ≡ result.frame) × (o ≡ result.offset) }
    {
        Place {
            frame: self.frame(t),
            offset: self.offset(t),
        }
    }
}

impl Cycle {
    /// How far `t` lies into the cycle that begins at `origin`. Their difference may need 33 bits.
    pub fn phase(self, t: i32, origin: i32) -> u16
        ensures value { result ≡ floor_mod (t -ℤ origin) self.ticks }
        ensures within { result < self.ticks }
    {
        (i64::from(t) - i64::from(origin)).rem_euclid(i64::from(self.ticks)) as u16
    }
}
