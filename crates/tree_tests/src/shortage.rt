//! A worker that is short of memory, at each moment of a run.
use crate::board_rows::{FOUR, instance_of};
use crate::runner::{Met, drive};
use box_instances::{Instance, NoMemory};
use class_search::ClassTree;
use std::alloc::Global;
use std::test::Fail;
use work_share::{Board, Event, Take};

// Takes and splits, and at the end finishes what is out.
const NUMBERS: [u32; 16] = [0, 3, 0, 0, 3, 0, 0, 2, 7, 0, 0, 2, 2, 6, 2, 2];

// Whether a board is over from the note of a shortage on, whatever its tasks do later, and keeps
// one note of it.
fn stays_short(alloc: Global, tree: &ClassTree<'_>, moment: usize) -> Result<bool, NoMemory> {
    let (before, after) = NUMBERS.split_at(moment.min(NUMBERS.len()));
    let mut met = Met::new(alloc);
    let mut board = Board::start(alloc, tree, 1000)?;
    drive(alloc, tree, 1000, &mut board, &mut met, before)?;
    let was_short = board.is_short();
    board.short();
    board.short();
    let is_noted = board.is_short() && matches!(board.take(), Take::Over);
    drive(alloc, tree, 1000, &mut board, &mut met, after)?;
    let notes = board
        .history()
        .iter()
        .filter(|e| matches!(e, Event::Short))
        .count();
    Ok(!was_short && is_noted && board.is_short() && board.is_over() && notes == 1)
}

// Whether that is so at each moment.
fn stays_short_at_each(alloc: Global, tree: &ClassTree<'_>) -> Result<bool, NoMemory> {
    for moment in 0..=NUMBERS.len() {
        if !stays_short(alloc, tree, moment)? {
            return Ok(false);
        }
    }
    Ok(true)
}

// The same of the tree of an instance.
fn its_tree_stays_short(alloc: Global, instance: &Instance) -> Result<bool, NoMemory> {
    stays_short_at_each(alloc, &ClassTree::new(alloc, instance, false)?)
}

#[test]
fn a_shortage_ends_the_search_at_each_moment(rt: HostRuntime) -> Result<(), Fail> {
    let instance = instance_of(rt.alloc(), &FOUR)?;
    assert!(rt; its_tree_stays_short(rt.alloc(), &instance)?);
    Ok(())
}
