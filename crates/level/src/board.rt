// The marks of all seats, on one board. The cell of a tick is its residue, so a tick has at most one mark, and finding it is one read.
ghost use Rattle.std.specs.Prelude.{◌≡◌, ℕ, ◌<◌, ℤ, Some, None};
ghost use Rattle.level.specs.Board.{slot, holder, turned, without};

#[derive(Clone, Copy)]
pub(crate) struct Board {
    pub(crate) cells: [Option<u8>; 1024],
}

// The cell of a tick.
fn cell_of(t: i32) -> usize
    ensures value { result ≡ slot t }
    ensures within { result < 1024 }
{
    t.rem_euclid(1024) as usize
}

impl Board {
    pub(crate) fn blank() -> Board
        ensures { (t : ℤ) → holder result t ≡ None }
    {
        Board {
            cells: [None; 1024],
        }
    }

    // The seat that the tick is marked for.
    pub(crate) fn holder_at(&self, t: i32) -> Option<u8>
        ensures { result ≡ holder self.now t }
    {
        self.cells[cell_of(t)]
    }

    pub(crate) fn mark(&mut self, t: i32, seat: u8)
        ensures { (u : ℤ) → holder self.new u ≡ turned (holder self.old) t (Some seat) u }
    {
        self.cells[cell_of(t)] = Some(seat);
    }

    pub(crate) fn clear(&mut self, t: i32)
        ensures { (u : ℤ) → holder self.new u ≡ turned (holder self.old) t None u }
    {
        self.cells[cell_of(t)] = None;
    }

    // Takes all marks of a seat away.
    pub(crate) fn release(&mut self, seat: u8)
        ensures { (u : ℤ) → holder self.new u ≡ without seat (holder self.old u) }
    {
        for cell in self.cells.iter_mut() {
            *cell = cell.filter(|&holder| holder != seat);
        }
    }
}
