// Sheets to be loaded, written byte by byte.
use cases::parts::reserve;
use plan::entry::Entry;
use reservation::reservation::Reservation;
use std::alloc::{AllocError, Global};

fn add_two(bytes: &mut Vec<u8>, number: u16) -> Result<(), AllocError> {
    bytes.extend_from_slice(&number.to_le_bytes())
}

fn pad(bytes: &mut Vec<u8>, size: usize) -> Result<(), AllocError> {
    bytes.resize(size.max(bytes.len()), 0)
}

fn add_reservations(bytes: &mut Vec<u8>, list: &[Reservation]) -> Result<(), AllocError> {
    for reservation in list {
        bytes.extend_from_slice(&[reservation.activity, 0])?;
        add_two(bytes, reservation.ticks)?;
        add_two(bytes, reservation.period)?;
    }
    Ok(())
}

fn add_entries(bytes: &mut Vec<u8>, entries: &[Entry]) -> Result<(), AllocError> {
    for entry in entries {
        bytes.extend_from_slice(&[entry.activity, entry.depth])?;
        add_two(bytes, entry.path)?;
        add_two(bytes, entry.offset)?;
        add_two(bytes, entry.length)?;
    }
    Ok(())
}

fn add_block(bytes: &mut Vec<u8>, number: u8, entries: &[Entry]) -> Result<(), AllocError> {
    let count = (entries.len() % 256) as u8;
    bytes.extend_from_slice(&[2, number, count, 0, 0, 0, 0, 0])?;
    add_entries(bytes, entries)
}

// The sum of the bytes, each times its place counted from 1.
fn weighted_sum(bytes: &[u8]) -> u32 {
    bytes.iter().zip(1..=508u32).fold(
        0u32,
        |sum, (byte, weight)| sum.wrapping_add(u32::from(*byte).wrapping_mul(weight)),
    )
}

// The same bytes with the right check in every whole block.
pub fn mended(heap: Global, bytes: &[u8]) -> Result<Vec<u8>, AllocError> {
    let (blocks, rest) = bytes.as_chunks::<512>();
    let mut out = Vec::new(heap);
    for block in blocks {
        let summed = &block[..508];
        out.extend_from_slice(summed)?;
        out.extend_from_slice(&weighted_sum(summed).to_le_bytes())?;
    }
    out.extend_from_slice(rest)?;
    Ok(out)
}

// The sheet with one byte changed, and its checks mended.
pub fn changed(heap: Global, bytes: &[u8], at: usize, value: u8) -> Result<Vec<u8>, AllocError> {
    let mut out = bytes.to_vec(heap)?;
    if let Some(byte) = out.get_mut(at) {
        *byte = value;
    }
    mended(heap, out.as_slice())
}

// The sheet of this base period and depth, these entries and these reservations.
pub fn sheet(
    heap: Global,
    base: u16,
    depth: u8,
    entries: &[Entry],
    list: &[Reservation],
) -> Result<Vec<u8>, AllocError> {
    let mut bytes = Vec::new(heap);
    bytes.extend_from_slice(&[1, 0])?;
    add_two(&mut bytes, base)?;
    let (reserved, entered) = ((list.len() % 256) as u8, (entries.len() % 256) as u8);
    bytes.extend_from_slice(&[depth, reserved, entered, 0])?;
    add_reservations(&mut bytes, list)?;
    pad(&mut bytes, 512)?;
    add_blocks(&mut bytes, entries)?;
    mended(heap, bytes.as_slice())
}

fn add_blocks(bytes: &mut Vec<u8>, entries: &[Entry]) -> Result<(), AllocError> {
    for (number, block) in (1..=2u8).zip(entries.chunks(60)) {
        add_block(bytes, number, block)?;
        pad(bytes, 512 * (usize::from(number) + 1))?;
    }
    Ok(())
}

// A reservation for every activity, which 120 deep entries serve.
pub fn all_reservations(heap: Global) -> Result<Vec<Reservation>, AllocError> {
    (0..16u8)
        .map(|activity| reserve(activity, 16, 2048))
        .collect(heap)
}
