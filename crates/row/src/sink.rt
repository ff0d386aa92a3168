// Where rows go.
ghost use Rattle.std.specs.Prelude.{◌≡◌, ℕ, List, ◌++◌, is_ok, if◌then◌else◌, vec_items, Result};

use std::alloc::AllocError;

/// What takes bytes, one part after another. No contract can say what an output stream does with bytes; what is said of a rehearsal
/// is which bytes it hands to its sink, whichever sink that is.
pub trait Sink {
    /// Why bytes are not taken.
    type Fault;

    /// What one call does: the sink before, the bytes, the answer, and the sink after.
    ghost hands: { Self → List ℕ → Result (Unit {0}) Self.Fault → Self → Type 0 };

    /// Takes the bytes.
    fn take(&mut self, bytes: &[u8]) -> Result<(), Self::Fault>
        ensures { hands self.old bytes.now result self.new };
}

/// Bytes are appended; where there is no memory the vector holds what it held.
impl Sink for Vec<u8> {
    type Fault = AllocError;

    ghost hands = { λ v bytes r v'. vec_items v' ≡ (if is_ok r then v.items ++ bytes else v.items) };

    fn take(&mut self, bytes: &[u8]) -> Result<(), AllocError> {
        self.extend_from_slice(bytes)
    }
}
