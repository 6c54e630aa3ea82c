// Tables as they are handed in, entry by entry.
use crate::bytes::joined;

// Identifiers as an entry spells them: user 5; the highest; one above it; the highest that marks no free entry; a free entry.
pub const FIVE: [u8; 4] = [0, 0, 0, 5];

pub const HIGHEST: [u8; 4] = [0x0F, 0xFF, 0xFF, 0xFF];

pub const ABOVE: [u8; 4] = [0x10, 0, 0, 0];

pub const NOBODY: [u8; 4] = [0xFF, 0xFF, 0xFF, 0xFE];

pub const FREE: [u8; 4] = [0xFF, 0xFF, 0xFF, 0xFF];

pub fn entry(id: [u8; 4], b: [u8; 8]) -> [u8; 12] {
    joined(&id, &b)
}

pub fn two(a: [u8; 12], b: [u8; 12]) -> [u8; 24] {
    joined(&a, &b)
}

// Over the last whole entry of the table, where there is one.
pub fn put_last(table: &mut [u8], entry: [u8; 12]) {
    if let Some(last) = table.as_chunks_mut::<12>().0.last_mut() {
        *last = entry;
    }
}

// Entry k of the table, counted from 0; zeros where there is none.
pub fn entry_at(table: &[u8], k: usize) -> [u8; 12] {
    match table.as_chunks::<12>().0.get(k) {
        Some(entry) => *entry,
        None => [0; 12],
    }
}
