// The answer of a tick.

/// By which rule a tick was given to its runner.
#[derive(Clone, Copy, PartialEq, Eq, Debug)]
pub enum Letter {
    /// c: the tick was marked for this seat, and the seat's activity ran.
    Constrained { seat: u8 },
    /// r: the tick had no mark, and its owner ran.
    Reserved,
    /// s: the spare rule named the runner.
    Spare,
    /// i: nobody was ready, and nobody ran.
    Idle,
}

/// A tick that was run: which one, who ran it, and by which rule.
#[derive(Clone, Copy, PartialEq, Eq, Debug)]
pub struct Ticked {
    pub tick: i32,
    pub runner: Option<u8>,
    pub letter: Letter,
}
