//! The rows of a state of which nothing is excluded, written in place for the boxes that there are.
ghost use Rattle.std.specs.Prelude.{◌≡◌, ◌<◌, ◌≤◌, ◌+◌, ◌*◌, ◌/◌, ◌%◌, [], true, suc, ℕ, nat_lt, slice_index_or, length};
ghost use Rattle.packing_terms.specs.Limits.{IsBoxCount};
ghost use Rattle.edge_state.specs.BitRows.{row_has};
ghost use Rattle.edge_state.specs.Edges.{is_other_box};

use crate::BitRow;
use crate::row_table::RowTable;

// The row of all boxes.
fn row_of_all(boxes: u32) -> BitRow<2>
    requires { IsBoxCount boxes }
    ensures { (x : ℕ) → row_has result x ≡ nat_lt x boxes }
{
    let mut all = BitRow::empty();
    for v in 0..boxes {
        all = all.with(v);
    }
    all
}

// The box after this one, and behind the last one the first.
#[inline]
fn next_box(boxes: u32, u: u32) -> u32
    requires { u < boxes }
    ensures below { result < boxes }
    ensures value { result ≡ suc u % boxes }
{
    if u + 1 == boxes { 0 } else { u + 1 }
}

// Makes the rows of a box for its three relations this one.
fn write_box(rows: &mut RowTable, place: usize, row: BitRow<2>)
    requires there { place * 3 + 2 < length rows.old.rows }
    requires kept { (x : ℕ) → 64 ≤ x → row_has row x ≡ true
        → (x < 128) × (rows.old.seconds ≡ length rows.old.rows) }
    ensures length { length rows.new.rows ≡ length rows.old.rows }
    ensures seconds { rows.new.seconds ≡ rows.old.seconds }
    ensures before { (k : ℕ) → k < place * 3
        → slice_index_or rows.new.rows k [] ≡ slice_index_or rows.old.rows k [] }
    ensures made { (k : ℕ) → place * 3 ≤ k → k < place * 3 + 3 → (x : ℕ)
        → row_has (slice_index_or rows.new.rows k []) x ≡ row_has row x }
{
    // For the proof alone: states that the number of rows is a number of the machine.
    let _count = rows.len();
    let at = place * 3;
    rows.write(at, row);
    rows.write(at + 1, row);
    rows.write(at + 2, row);
}

// Writes the rows of `places` boxes, three each, so that nothing is excluded: a row has all other
// boxes.
// The boxes come one after another, in each dimension from the first on.
pub(crate) fn fill_others(places: usize, boxes: u32, rows: &mut RowTable)
    requires count { IsBoxCount boxes }
    requires room { places * 3 ≤ length rows.old.rows }
    requires kept { 64 < boxes → rows.old.seconds ≡ length rows.old.rows }
    ensures length { length rows.new.rows ≡ length rows.old.rows }
    ensures seconds { rows.new.seconds ≡ rows.old.seconds }
    ensures each { (at : ℕ) → at < places * 3 → (x : ℕ)
        → row_has (slice_index_or rows.new.rows at []) x ≡ is_other_box boxes (at / 3 % boxes) x }
{
    let all = row_of_all(boxes);
    let mut u = 0;
    for place in 0..places {
        write_box(rows, place, all.without(u));
        u = next_box(boxes, u);
    }
}
