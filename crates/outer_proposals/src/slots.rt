//! Guarded access to rows of bits and to sums.

/// The entry at an index, and 0 past the end.
#[inline]
pub(crate) fn entry(list: &[u128], index: usize) -> u128 {
    if index < list.len() { list[index] } else { 0 }
}

/// Writes the entry at an index, and nothing past the end.
#[inline]
pub(crate) fn write(list: &mut [u128], index: usize, number: u128) {
    if index < list.len() {
        list[index] = number;
    }
}

/// The bit of a box in a row of 128 bits.
#[inline]
pub(crate) fn bit(v: u32) -> u128 {
    1u128 << (v % 128)
}
