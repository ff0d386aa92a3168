// The blocks of a sheet: how many there are, and whether their checks are right.
ghost use Rattle.std.specs.Prelude.{◌≡◌, ℕ, ◌+◌, ◌*◌, ◌<◌, ◌≤◌, length, Decides, MatchBool, MatchOption, slice_index_or, []};
ghost use Rattle.std.specs.List.{concat};
ghost use Rattle.sheet.specs.Format.{Checked, Zero, block, weighted_sum};
ghost use Rattle.sheet.specs.Told.{HasBlocks, AllChecked, FirstUnchecked};

// How many bytes a block has.
pub(crate) const BLOCK_SIZE: usize = 512;

// How many bytes come before its check.
pub(crate) const CHECKED_SIZE: usize = 508;

// How many bytes come before its reservations or entries.
pub(crate) const HEAD_SIZE: usize = 8;

// How many blocks a sheet has at most.
const MOST_BLOCKS: usize = 3;

// The bytes of one block.
pub(crate) type Block = [u8; BLOCK_SIZE];

// One, two or three whole blocks.
#[derive(Clone, Copy)]
pub(crate) struct Blocks<'a> {
    pub(crate) blocks: &'a [Block],
    ghost sized: { HasBlocks (concat blocks.now) (length blocks.now) },
    ghost whole: { (k : ℕ) → k < length blocks.now → length (slice_index_or blocks.now k []) ≡ 512 },
}

// Whether all bytes are 0.
pub(crate) fn are_zero(bytes: &[u8]) -> bool
    ensures { MatchBool result (Zero bytes.now 0 (length bytes.now)) (Zero bytes.now 0 (length bytes.now) → ⊥) }
{
    bytes.iter().all(|byte| *byte == 0)
}

// The sum of the bytes before the check, each times its place counted from 1.
fn weighted_sum(bytes: &[u8]) -> u32
    requires { length bytes.now ≡ 508 }
    ensures { result ≡ weighted_sum bytes.now 508 }
{
    // A chain `zip(1u32..).map(..).sum()` was tried: its proof lacks that each place the zip gives is at most 508, by which the
    // product and the sum fit.
    let mut sum = 0;
    for (i, byte) in bytes.iter().enumerate() {
        sum += (i as u32 + 1) * u32::from(*byte);
    }
    sum
}

// Whether the block's check is right.
fn is_checked(block: &Block) -> bool
    ensures { Decides result (Checked block.now) }
{
    let (summed, told) = block.split_last_chunk::<4>().unwrap();
    u32::from_le_bytes(*told) == weighted_sum(summed)
}

impl<'a> Blocks<'a> {
    // The blocks of a sheet of these bytes.
    pub(crate) fn new(bytes: &'a [u8]) -> Option<Blocks<'a>>
        ensures { MatchOption result ((n : ℕ) → HasBlocks bytes.now n → ⊥) (λ b. concat b.blocks.now ≡ bytes.now) }
    {
        let (blocks, rest) = bytes.as_chunks::<BLOCK_SIZE>();
        if !rest.is_empty() || blocks.is_empty() || blocks.len() > MOST_BLOCKS {
            return None;
        }
        Some(Blocks { blocks })
    }

    // The first of them.
    pub(crate) fn first(&self) -> &'a Block
        ensures { result.now ≡ block (concat self.now.blocks.now) 0 }
    {
        &self.blocks[0]
    }

    // The number of the first block whose check is wrong.
    pub(crate) fn first_unchecked(&self) -> Option<usize>
        ensures { MatchOption result (AllChecked (concat self.now.blocks.now) (length self.now.blocks.now)) (FirstUnchecked (concat self.now.blocks.now) (length self.now.blocks.now)) }
    {
        self.blocks.iter().position(|block| !is_checked(block))
    }
}
