//! Guarded access to lists, and rows of one bit for each box.

/// The entry at an index, and `past` past the end.
#[inline]
pub(crate) fn entry<T: Copy>(list: &[T], index: usize, past: T) -> T {
    if index < list.len() {
        list[index]
    } else {
        past
    }
}

/// Writes the entry at an index, and nothing past the end.
#[inline]
pub(crate) fn write<T: Copy>(list: &mut [T], index: usize, value: T) {
    if index < list.len() {
        list[index] = value;
    }
}

/// The block of `count` entries at index `block * count`, and no entry if the list ends before it
/// does.
#[inline]
pub(crate) fn block_of<T>(list: &[T], block: usize, count: usize) -> &[T] {
    let start = block.saturating_mul(count);
    let end = start.saturating_add(count);
    if start <= end && end <= list.len() {
        &list[start..end]
    } else {
        &list[..0]
    }
}

/// The bit of a box in a row of 128 bits.
#[inline]
pub(crate) fn bit(v: u32) -> u128 {
    1u128 << (v % 128)
}
