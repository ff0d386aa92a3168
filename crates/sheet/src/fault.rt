// Why a sheet is refused.
ghost use Rattle.std.specs.Prelude.{◌≡◌, ℕ};
ghost use Rattle.sheet.specs.declared.fault.SheetFault.TheVariants.{Plan, Check};
ghost use Rattle.sheet.specs.Faults.{in_usize, layer_of, number_of, place_of, plan_place, check_place};
ghost use Rattle.sheet.specs.Format.{block_place, entry_place, reservation_place};

use crate::blocks::{BLOCK_SIZE, HEAD_SIZE};
use crate::entries::{BLOCK_ENTRIES, ENTRY_SIZE};
use crate::heading::RESERVATION_SIZE;
use plan::fault::PlanFault;
use reservation::fault::CheckFault;
use std::fmt;
use thiserror::Error;

/// Which layer refuses: the sheet's bytes, the plan in them, or the check of the reservations on that plan.
#[derive(Clone, Copy, PartialEq, Eq, Debug)]
pub enum Layer {
    Sheet,
    Plan,
    Check,
}

// By hand, since a layer is no error.
impl fmt::Display for Layer {
    fn fmt<W: fmt::Write>(&self, f: &mut fmt::Formatter<W>) -> fmt::Result {
        let word = match self {
            Layer::Sheet => "sheet",
            Layer::Plan => "plan",
            Layer::Check => "check",
        };
        f.write_str(word)
    }
}

/// A refusal of a sheet, with what it tells besides its number. Blocks count from 0.
#[derive(Clone, Copy, PartialEq, Eq, Debug, Error)]
pub enum SheetFault {
    /// 31: the sheet is not 512, 1,024 or 1,536 bytes.
    #[error("31: the sheet is not 512, 1,024 or 1,536 bytes")]
    Size,
    /// 32: the check of this block, the first such one, is wrong.
    #[error("32: the check of block {block} is wrong")]
    BlockCheck { block: usize },
    /// 33: the first block is no heading, or its entries do not fit the number of blocks.
    #[error("33: block 0 is no heading of such a sheet")]
    Heading,
    /// 34: this block, the first such one, is not the entry block that stands in its place.
    #[error("34: block {block} is not its entry block")]
    EntryBlock { block: usize },
    /// The sheet says a plan that is refused.
    #[error(transparent)]
    Plan(PlanFault),
    /// The sheet says reservations that do not pass on its plan.
    #[error(transparent)]
    Check(CheckFault),
}

// The byte where a block begins.
fn block_place(block: usize) -> usize
    ensures { result ≡ in_usize (block_place block) }
{
    block.saturating_mul(BLOCK_SIZE)
}

// The byte where an entry begins.
fn entry_place(index: usize) -> usize
    ensures { result ≡ in_usize (entry_place index) }
{
    block_place(1 + index / BLOCK_ENTRIES).saturating_add(
        HEAD_SIZE + ENTRY_SIZE * (index % BLOCK_ENTRIES),
    )
}

// The byte where a reservation begins.
fn reservation_place(index: usize) -> usize
    ensures { result ≡ in_usize (reservation_place index) }
{
    index
        .saturating_mul(RESERVATION_SIZE)
        .saturating_add(HEAD_SIZE)
}

fn plan_place(fault: &PlanFault) -> usize
    ensures { result ≡ in_usize (plan_place fault.now) }
{
    match fault {
        PlanFault::OutOfRange { index } => entry_place(*index),
        PlanFault::Clash { later, .. } => entry_place(*later),
        PlanFault::Dimensions | PlanFault::TooManyEntries | PlanFault::Memory => 0,
    }
}

fn check_place(fault: &CheckFault) -> usize
    ensures { result ≡ in_usize (check_place fault.now) }
{
    match fault {
        CheckFault::OutOfRange { index }
        | CheckFault::Twice { index }
        | CheckFault::Short { index, .. } => reservation_place(*index),
        CheckFault::TooMany | CheckFault::Overbooked => 0,
    }
}

impl SheetFault {
    /// The layer that refuses.
    pub fn layer(&self) -> Layer
        ensures { result ≡ layer_of self.now }
    {
        match self {
            SheetFault::Size
            | SheetFault::BlockCheck { .. }
            | SheetFault::Heading
            | SheetFault::EntryBlock { .. } => Layer::Sheet,
            SheetFault::Plan(_) => Layer::Plan,
            SheetFault::Check(_) => Layer::Check,
        }
    }

    /// The number of the refusal; none for want of memory.
    pub fn number(&self) -> Option<u8>
        ensures { result ≡ number_of self.now }
    {
        match self {
            SheetFault::Size => Some(31),
            SheetFault::BlockCheck { .. } => Some(32),
            SheetFault::Heading => Some(33),
            SheetFault::EntryBlock { .. } => Some(34),
            SheetFault::Plan(fault) => fault.number(),
            SheetFault::Check(fault) => Some(fault.number()),
        }
    }

    /// The byte of the sheet where the block, entry or reservation begins that the fault tells of;
    /// of a clash it is the later entry. It is 0 where the fault tells of none of them.
    /// No index in a fault of `load` is so large that the greatest `usize` stands in for the byte.
    pub fn place(&self) -> usize
        ensures { result ≡ in_usize (place_of self.now) }
    {
        match self {
            SheetFault::Size | SheetFault::Heading => 0,
            SheetFault::BlockCheck { block } | SheetFault::EntryBlock { block } => block_place(
                *block,
            ),
            SheetFault::Plan(fault) => plan_place(fault),
            SheetFault::Check(fault) => check_place(fault),
        }
    }
}

// These two by hand: what `?` gives has to be known where a sheet is loaded, and a derived `From` says nothing of it.
impl From<PlanFault> for SheetFault {
    ghost from_gives = { λ f r. r ≡ Plan f };

    fn from(fault: PlanFault) -> SheetFault {
        SheetFault::Plan(fault)
    }
}

impl From<CheckFault> for SheetFault {
    ghost from_gives = { λ f r. r ≡ Check f };

    fn from(fault: CheckFault) -> SheetFault {
        SheetFault::Check(fault)
    }
}
