// A worked example of how rules stand over one another.
ghost use Rattle.std.specs.Prelude.{◌≡◌, ℕ, [], ◌∷◌, Some};
ghost use Rattle.spare.specs.Example.{HeldQueueExample};

use crate::hold::Hold;
use crate::queue::Queue;
use crate::ready::ReadySet;
use crate::waiting::name_each;

/// Whom a queue under a hold of one repeat names in five calls, while 0 and 1 are ready: each of the two twice, in turn.
pub fn held_queue() -> [Option<u8>; 5]
    ensures names { result ≡ (Some 0 ∷ Some 0 ∷ Some 1 ∷ Some 1 ∷ Some 0 ∷ []) }
    ensures always { HeldQueueExample }
{
    let ready = ReadySet::empty().with(0).with(1);
    let mut rule = Hold::new(Queue::new(), 1);
    let mut names = [None; 5];
    let _ = name_each(&mut rule, &[ready; 5], &mut names);
    names
}
