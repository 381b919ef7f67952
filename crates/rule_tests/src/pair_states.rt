//! Tests of states: masks and their mirrors, undoing, and rows of one word and of two.
ghost use Rattle.std.specs.Prelude.{◌≡◌, true};
ghost use Rattle.packing_terms.specs.Exclusions.{IsEdgeAmong};

use edge_state::{BitRow, EdgeState, Excluded, Rel};
use std::alloc::Global;
use std::test::Fail;

// A dimension and two boxes.
type Edge = (u32, u32, u32);

// What is asked of a state, and what is answered: whether a relation is excluded, what is left of a
// pair, whether it is surely before or joined; and of the row of a box and a relation how many
// there are, the first one, and whether one is there.
#[derive(Clone, Copy)]
enum Step {
    Excludes(Edge, Rel, Excluded),
    Leaves(Edge, u8),
    IsBefore(Edge, bool),
    IsJoined(Edge, bool),
    Counts(u32, u32, Rel, u32),
    Begins(u32, u32, Rel, u32),
    Has(u32, u32, Rel, u32, bool),
}

use Step::{Begins, Counts, Excludes, Has, IsBefore, IsJoined, Leaves};

// Whether there are such a dimension and two such boxes.
fn is_edge(state: &EdgeState, edge: Edge) -> bool
    ensures { result ≡ true → IsEdgeAmong state.now.dims state.now.boxes edge.0 edge.1 edge.2 }
{
    let (dim, u, v) = edge;
    dim < state.dims() && u < state.boxes() && v < state.boxes() && u != v
}

// What a pair answers.
fn pair_answers(state: &mut EdgeState, step: Step, edge: Edge) -> bool {
    let (dim, u, v) = edge;
    if !is_edge(state, edge) {
        return false;
    }
    match step {
        Excludes(_, rel, answer) => state.exclude(dim, u, v, rel) == answer,
        Leaves(_, bits) => state.mask(dim, u, v).bits() == bits,
        IsBefore(_, answer) => state.sure_before(dim, u, v) == answer,
        IsJoined(_, answer) => state.joined(dim, u, v) == answer,
        _ => false,
    }
}

// The row of a box, where there are such a dimension and such a box.
fn row_of(state: &EdgeState, dim: u32, u: u32, rel: Rel) -> Option<BitRow<2>> {
    if dim >= state.dims() || u >= state.boxes() {
        return None;
    }
    Some(state.row(dim, u, rel))
}

// What a row answers.
fn row_answers(row: BitRow<2>, step: Step) -> bool {
    match step {
        Counts(_, _, _, count) => row.count() == count,
        Begins(_, _, _, first) => row.first() == Some(first),
        Has(_, _, _, number, answer) => number < 128 && row.has(number) == answer,
        _ => false,
    }
}

fn answers(state: &mut EdgeState, step: Step) -> bool {
    match step {
        Excludes(edge, _, _) | Leaves(edge, _) | IsBefore(edge, _) | IsJoined(edge, _) => {
            pair_answers(state, step, edge)
        }
        Counts(dim, u, rel, _) | Begins(dim, u, rel, _) | Has(dim, u, rel, _, _) => {
            match row_of(state, dim, u, rel) {
                Some(row) => row_answers(row, step),
                None => false,
            }
        }
    }
}

// The first step that is answered otherwise by a state of `boxes` boxes in two dimensions.
fn first_wrong(alloc: Global, boxes: u32, steps: &[Step]) -> Result<Option<usize>, Fail> {
    if boxes == 0 || boxes > 128 {
        return Ok(Some(0));
    }
    let mut state = EdgeState::new(alloc, 2, boxes)?;
    for k in 0..steps.len() {
        if !answers(&mut state, steps[k]) {
            return Ok(Some(k));
        }
    }
    Ok(None)
}

// Exclusions are reported, and mirrored.
const PAIRS: [Step; 9] = [
    Excludes((0, 0, 1), Rel::Overlap, Excluded::New),
    Excludes((0, 0, 1), Rel::Overlap, Excluded::Already),
    Leaves((0, 1, 0), 6),
    Excludes((0, 0, 1), Rel::Before, Excluded::New),
    Leaves((0, 1, 0), 2),
    Excludes((0, 1, 0), Rel::Before, Excluded::Empty),
    Excludes((0, 1, 0), Rel::Before, Excluded::Empty),
    Leaves((1, 0, 1), 7),
    Leaves((0, 0, 2), 7),
];

// Pairs become surely before, or joined.
const SURE: [Step; 10] = [
    Excludes((0, 0, 1), Rel::Overlap, Excluded::New),
    IsBefore((0, 0, 1), false),
    Excludes((0, 0, 1), Rel::After, Excluded::New),
    IsBefore((0, 0, 1), true),
    IsBefore((0, 1, 0), false),
    Excludes((1, 0, 1), Rel::Before, Excluded::New),
    IsJoined((1, 0, 1), false),
    Excludes((1, 0, 1), Rel::After, Excluded::New),
    IsJoined((1, 1, 0), true),
    IsJoined((0, 0, 1), false),
];

// A row has the boxes that are left.
const ROW: [Step; 5] = [
    Counts(0, 1, Rel::Before, 2),
    Excludes((0, 1, 2), Rel::Before, Excluded::New),
    Counts(0, 1, Rel::Before, 1),
    Begins(0, 2, Rel::After, 0),
    Counts(0, 2, Rel::After, 1),
];

// Rows of 64 boxes end with their word.
const ONE_WORD: [Step; 7] = [
    Counts(1, 63, Rel::Overlap, 63),
    Has(1, 0, Rel::Overlap, 63, true),
    Has(1, 0, Rel::Overlap, 64, false),
    Excludes((1, 63, 0), Rel::Before, Excluded::New),
    Begins(1, 63, Rel::Before, 1),
    Has(1, 0, Rel::After, 63, false),
    Leaves((1, 0, 63), 3),
];

// Rows of 65 boxes go on in a second word.
const TWO_WORDS: [Step; 8] = [
    Counts(1, 64, Rel::Before, 64),
    Has(1, 63, Rel::Before, 64, true),
    Excludes((1, 63, 64), Rel::Before, Excluded::New),
    Excludes((1, 63, 64), Rel::Before, Excluded::Already),
    Has(1, 63, Rel::Before, 64, false),
    Has(1, 64, Rel::After, 63, false),
    Leaves((1, 63, 64), 5),
    Leaves((1, 64, 63), 3),
];

#[test]
fn states_answer_the_steps_of_the_rows(rt: HostRuntime) -> Result<(), Fail> {
    assert!(rt; first_wrong(rt.alloc(), 3, &PAIRS)? == None);
    assert!(rt; first_wrong(rt.alloc(), 2, &SURE)? == None);
    assert!(rt; first_wrong(rt.alloc(), 3, &ROW)? == None);
    assert!(rt; first_wrong(rt.alloc(), 64, &ONE_WORD)? == None);
    assert!(rt; first_wrong(rt.alloc(), 65, &TWO_WORDS)? == None);
    Ok(())
}

#[test]
fn undo_gives_the_masks_at_the_mark(rt: HostRuntime) -> Result<(), Fail> {
    let mut state = EdgeState::new(rt.alloc(), 3, 3)?;
    state.exclude(2, 0, 1, Rel::After);
    let mark = state.mark();
    state.exclude(2, 1, 0, Rel::Overlap);
    state.exclude(1, 1, 2, Rel::Before);
    state.exclude(1, 1, 2, Rel::Before);
    assert!(rt; state.mask(2, 0, 1).bits() == 2);
    assert!(rt; state.mask(1, 2, 1).bits() == 3);
    state.undo(mark);
    assert!(rt; state.mask(2, 0, 1).bits() == 3);
    assert!(rt; state.mask(2, 1, 0).bits() == 5);
    assert!(rt; state.mask(1, 1, 2).bits() == 7);
    assert!(rt; state.mark() == mark);
    state.reset();
    assert!(rt; state.mask(2, 0, 1).bits() == 7);
    Ok(())
}

// What is left of a pair behind an exclusion that is undone.
fn left_behind(state: &mut EdgeState, edge: Edge, rel: Rel) -> Option<u8> {
    let (dim, u, v) = edge;
    if !is_edge(state, edge) {
        return None;
    }
    let mark = state.mark();
    state.exclude(dim, u, v, rel);
    state.undo(mark);
    Some(state.mask(dim, v, u).bits())
}

#[test]
fn a_second_word_is_given_back(rt: HostRuntime) -> Result<(), Fail> {
    let mut state = EdgeState::new(rt.alloc(), 2, 65)?;
    assert!(rt; left_behind(&mut state, (1, 63, 64), Rel::Before) == Some(7));
    Ok(())
}

#[test]
fn rows_are_sets(rt: HostRuntime) -> Result<(), Fail> {
    let row: BitRow<2> = BitRow::empty().with(3).with(64).with(127);
    assert!(rt; row.has(3) && row.has(64) && row.has(127));
    assert!(rt; !row.has(2) && !row.has(63));
    assert!(rt; row.count() == 3);
    assert!(rt; row.first() == Some(3));
    assert!(rt; row.without(3).first() == Some(64));
    let other: BitRow<2> = BitRow::empty().with(64);
    assert!(rt; row.and(other).count() == 1);
    assert!(rt; row.minus(other).count() == 2);
    assert!(rt; row.minus(other).or(other).count() == 3);
    assert!(rt; other.minus(row).first() == None);
    Ok(())
}

// How many boxes the row of the first of 64 has, read as one word and as three.
fn counted(state: &EdgeState, rel: Rel) -> Option<(u32, u32)> {
    if state.dims() != 2 || state.boxes() != 64 {
        return None;
    }
    let one: BitRow<1> = state.row_in(1, 0, rel);
    let three: BitRow<3> = state.row_in(1, 0, rel);
    Some((one.count(), three.count()))
}

#[test]
fn rows_are_read_in_as_many_words_as_are_asked_for(rt: HostRuntime) -> Result<(), Fail> {
    let mut state = EdgeState::new(rt.alloc(), 2, 64)?;
    let edge = Excludes((1, 63, 0), Rel::Before, Excluded::New);
    assert!(rt; answers(&mut state, edge));
    assert!(rt; counted(&state, Rel::Before) == Some((63, 63)));
    assert!(rt; counted(&state, Rel::After) == Some((62, 62)));
    Ok(())
}

// Excludes that the last of 128 boxes and one of the first 64 overlap.
fn without_the_first_word(state: &mut EdgeState) -> bool {
    for v in 0..64 {
        if !answers(state, Excludes((0, 127, v), Rel::Overlap, Excluded::New)) {
            return false;
        }
    }
    true
}

const SECOND_WORD: [Step; 7] = [
    Begins(0, 127, Rel::Overlap, 64),
    Counts(0, 127, Rel::Overlap, 63),
    Has(0, 127, Rel::Overlap, 63, false),
    Has(0, 127, Rel::Overlap, 126, true),
    Has(0, 127, Rel::Overlap, 127, false),
    Has(0, 63, Rel::Overlap, 127, false),
    Has(0, 63, Rel::Overlap, 126, true),
];

#[test]
fn a_row_may_have_the_second_word_alone(rt: HostRuntime) -> Result<(), Fail> {
    let mut state = EdgeState::new(rt.alloc(), 2, 128)?;
    assert!(rt; without_the_first_word(&mut state));
    for step in SECOND_WORD {
        assert!(rt; answers(&mut state, step));
    }
    state.reset();
    assert!(rt; answers(&mut state, Counts(0, 127, Rel::Overlap, 127)));
    Ok(())
}
