// The entry blocks of a sheet, and the entries in them.
ghost use Rattle.std.specs.Prelude.{◌≡◌, ℕ, ◌+◌, ◌*◌, ◌<◌, ◌≤◌, length, MatchBool, MatchOption};
ghost use Rattle.std.specs.List.{concat};
ghost use Rattle.sheet.specs.Format.{EntryAt, IsEntryBlock, blocks_for, in_block};
ghost use Rattle.sheet.specs.Read.{EntriesRead};
ghost use Rattle.sheet.specs.Told.{AllBlocks, FirstBroken};

use crate::blocks::{Block, Blocks, CHECKED_SIZE, HEAD_SIZE, are_zero};
use arrayvec::ArrayVec;
use plan::entry::Entry;
use plan::fill::MOST_ENTRIES;

// The kind of an entry block.
const ENTRY_BLOCK: u8 = 2;

// How many entries stand in a full block.
pub(crate) const BLOCK_ENTRIES: usize = 60;

// How many bytes an entry has.
pub(crate) const ENTRY_SIZE: usize = 8;

// How many of the entries stand in this block.
fn entries_in(entries: usize, number: usize) -> usize
    requires { (1 ≤ number) × (number ≤ 3) }
    ensures { result ≡ in_block entries number }
{
    entries
        .saturating_sub(BLOCK_ENTRIES * (number - 1))
        .min(BLOCK_ENTRIES)
}

// Whether this is the entry block of this number with so many entries.
fn is_entry_block(block: &Block, number: usize, count: usize) -> bool
    requires { count ≤ 60 }
    ensures { MatchBool result (IsEntryBlock block.now number count) (IsEntryBlock block.now number count → ⊥) }
{
    // A slice pattern with the first bytes named: the project's form for a block.
    let [kind, its_number, its_count, ..] = &block[..] else {
        return false;
    };
    if *kind != ENTRY_BLOCK
        || usize::from(*its_number) != number
        || usize::from(*its_count) != count
    {
        return false;
    }
    are_zero(&block[3..HEAD_SIZE]) && are_zero(&block[HEAD_SIZE + ENTRY_SIZE * count..CHECKED_SIZE])
}

// The number of the first entry block that is not as it should be.
pub(crate) fn first_broken(blocks: &Blocks, entries: usize) -> Option<usize>
    ensures { MatchOption result (AllBlocks (concat blocks.now.blocks.now) entries (length blocks.now.blocks.now)) (FirstBroken (concat blocks.now.blocks.now) entries (length blocks.now.blocks.now)) }
{
    for (number, entry_block) in blocks.blocks.iter().enumerate().skip(1) {
        if !is_entry_block(entry_block, number, entries_in(entries, number)) {
            return Some(number);
        }
    }
    None
}

// The entry in these bytes.
fn entry_in(bytes: &[u8; ENTRY_SIZE]) -> Entry
    ensures { EntryAt bytes.now 0 result }
{
    let [
        activity,
        depth,
        path_low,
        path_high,
        offset_low,
        offset_high,
        length_low,
        length_high,
    ] = *bytes;
    Entry {
        activity,
        depth,
        path: u16::from_le_bytes([path_low, path_high]),
        offset: u16::from_le_bytes([offset_low, offset_high]),
        length: u16::from_le_bytes([length_low, length_high]),
    }
}

// The entries of a sheet that has so many. This is no one function with the reader of reservations: an entry is never
// refused, and entries go on from block to block.
pub(crate) fn read_entries(blocks: &Blocks, count: usize) -> ArrayVec<Entry, MOST_ENTRIES>
    requires { length blocks.now.blocks.now ≡ blocks_for count }
    ensures { EntriesRead (concat blocks.now.blocks.now) count result.items }
{
    let mut entries = ArrayVec::new();
    // Loops, since `collect` takes an allocator, which `load` may not ask for.
    for (number, block) in blocks.blocks.iter().enumerate().skip(1) {
        // The first chunk is the block's head.
        let (chunks, _) = block.as_chunks::<ENTRY_SIZE>();
        for chunk in &chunks[1..1 + entries_in(count, number)] {
            entries.push(entry_in(chunk));
        }
    }
    entries
}
