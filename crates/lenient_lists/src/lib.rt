//! Lists that are read and written without a promise of their lengths, and those that grow.
//!
//! A search of which nothing is proved but that it is safe has no invariants. So a place past the
//! end of its lists reads as 0 and takes no entry, in one test.
#![tactic(auto)]

ghost use Rattle.std.specs.Prelude.{◌≡◌, ◌<◌, ◌≤◌, ◌++◌, ◌∷◌, ℕ, [], length, slice_index, IfOk, IfErr};

use box_instances::NoMemory;
use std::alloc::Global;

/// The entry at an index, and 0 past the end.
#[inline]
pub fn at(list: &[u32], index: usize) -> u32
    ensures there { index < length list.now → result ≡ slice_index list.now index }
    ensures past { length list.now ≤ index → result ≡ 0 }
{
    if index < list.len() { list[index] } else { 0 }
}

/// Writes the entry at an index, and nothing past the end.
#[inline]
pub fn put(list: &mut [u32], index: usize, entry: u32)
    ensures length { length list.new ≡ length list.old }
    ensures there { index < length list.old → slice_index list.new index ≡ entry }
    ensures others { (k : ℕ) → ¬ (k ≡ index) → slice_index list.new k ≡ slice_index list.old k }
{
    if index < list.len() {
        list[index] = entry;
    }
}

/// `count` zeros.
pub fn zeros(alloc: Global, count: usize) -> Result<Vec<u32>, NoMemory>
    ensures length { IfOk result (λ list. length list.items ≡ count) }
    ensures zeros { IfOk result (λ list. (k : ℕ) → k < count → slice_index list.items k ≡ 0) }
{
    let Ok(list) = vec![in alloc; 0u32; count] else {
        return Err(NoMemory);
    };
    Ok(list)
}

/// Adds an entry, or leaves the list as it was where there is no memory.
#[inline]
pub fn pushed<T: Copy>(list: &mut Vec<T>, entry: T) -> Result<(), NoMemory>
    ensures added { IfOk result (λ done. list.new.items ≡ list.old.items ++ entry ∷ []) }
    ensures same { IfErr result (λ fault. list.new.items ≡ list.old.items) }
{
    match list.push(entry) {
        Ok(()) => Ok(()),
        Err(_) => Err(NoMemory),
    }
}
