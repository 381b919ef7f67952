//! Working sides, each in its place, so that they are read at once.
ghost use Rattle.std.specs.Prelude.{◌≡◌, ◌<◌, ◌≤◌, ◌+◌, ◌^◌, ℕ, [], map, length, slice_index, slice_index_or};
ghost use Rattle.packing_terms.specs.Packing.{no_box};
ghost use Rattle.packing_terms.specs.Limits.{max_boxes, IsBox};
ghost use Rattle.box_instances.specs.Plain.{plain_box};

use crate::{BoxItem, MAX_BOXES};

/// The working sides of a box or of a container: the written ones with the kerfs.
pub(crate) fn working_row(kerf: &[u32], sides: &[u32]) -> [u32; 4]
    requires few { length kerf.now ≤ 4 }
    requires same { length sides.now ≡ length kerf.now }
    requires small { (i : ℕ) → i < length kerf.now
        → slice_index sides.now i + slice_index kerf.now i < 2 ^ 32 }
    ensures { (i : ℕ) → i < length kerf.now
        → slice_index result i ≡ slice_index sides.now i + slice_index kerf.now i }
{
    let mut row = [0; 4];
    for i in 0..kerf.len() {
        row[i] = sides[i] + kerf[i];
    }
    row
}

/// The same of each box.
pub(crate) fn working_sides(kerf: &[u32], boxes: &[BoxItem]) -> [[u32; 4]; MAX_BOXES]
    requires few { length kerf.now ≤ 4 }
    requires count { length boxes.now ≤ max_boxes }
    requires each { (v : ℕ) → v < length boxes.now → IsBox (length kerf.now) kerf.now
        (slice_index_or (map plain_box boxes.now) v no_box) }
    ensures count { length result ≡ max_boxes }
    ensures each { (v i : ℕ) → v < length boxes.now → i < length kerf.now
        → slice_index (slice_index_or result v []) i
        ≡ slice_index (slice_index_or (map plain_box boxes.now) v no_box).sides i
        + slice_index kerf.now i }
{
    let mut rows = [[0; 4]; MAX_BOXES];
    for v in 0..boxes.len() {
        rows[v] = working_row(kerf, boxes[v].sides.as_slice());
    }
    rows
}

/// The greater side of two boxes in each dimension.
pub(crate) fn greater_sides(first: &[u32; 4], second: &[u32; 4]) -> [u32; 4]
    ensures first { (i : ℕ) → i < 4 → slice_index first.now i ≤ slice_index result i }
    ensures second { (i : ℕ) → i < 4 → slice_index second.now i ≤ slice_index result i }
{
    let mut row = *first;
    for i in 0..4 {
        row[i] = first[i].max(second[i]);
    }
    row
}

/// The greatest side of the first rows in each dimension.
pub(crate) fn longest_sides(rows: &[[u32; 4]; MAX_BOXES], count: usize) -> [u32; 4]
    requires { count ≤ max_boxes }
    ensures { (v i : ℕ) → v < count → i < 4
        → slice_index (slice_index_or rows.now v []) i ≤ slice_index result i }
{
    let mut longest = [0; 4];
    for v in 0..count {
        longest = greater_sides(&longest, &rows[v]);
    }
    longest
}
