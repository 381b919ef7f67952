//! The instances of the worked rows whose class trees have branchings.
use box_instances::{BoxItem, Instance, Sides};
use std::alloc::Global;
use std::test::Fail;

/// An instance in two dimensions, whether its tree has scales, and its budgets: spent, just enough,
/// and ample.
#[derive(Drop)]
pub struct Row {
    pub container: [u32; 2],
    pub boxes: &'static [[u32; 2]],
    pub scales: bool,
    pub budgets: [u64; 4],
}

/// Two boxes that stand on one another, the pinwheel, four boxes in a row where three have room, a
/// layer of a pallet, a row of three boxes, and six boxes of which only three have room in a row.
pub(crate) const ROWS: [Row; 6] = [
    Row {
        container: [10, 10],
        boxes: &[[6, 4], [6, 6]],
        scales: true,
        budgets: [0, 1, 2, 1000],
    },
    Row {
        container: [3, 3],
        boxes: &[[2, 1], [1, 2], [2, 1], [1, 2], [1, 1]],
        scales: true,
        budgets: [1, 3, 4, 1000],
    },
    FOUR,
    Row {
        container: [1200, 800],
        boxes: &[[600, 400], [600, 400], [600, 400], [600, 400]],
        scales: true,
        budgets: [2, 6, 7, 1000],
    },
    Row {
        container: [9, 10],
        boxes: &[[3, 6], [3, 6], [3, 6]],
        scales: false,
        budgets: [1, 2, 3, 1000],
    },
    Row {
        container: [11, 10],
        boxes: &[[3, 6], [3, 6], [3, 7], [3, 8]],
        scales: false,
        budgets: [2, 4, 5, 1000],
    },
];

/// Four boxes that must stand in a row, where only three have room.
pub(crate) const FOUR: Row = Row {
    container: [10, 10],
    boxes: &[[3, 6], [3, 6], [3, 6], [3, 6]],
    scales: false,
    budgets: [2, 4, 5, 1000],
};

/// Eight boxes that must stand in a row, where only seven have room: there are 5,039 branchings,
/// more than the first cap.
pub(crate) const EIGHT: Row = Row {
    container: [23, 10],
    boxes: &[
        [3, 6],
        [3, 6],
        [3, 6],
        [3, 6],
        [3, 6],
        [3, 6],
        [3, 6],
        [3, 6],
    ],
    scales: false,
    budgets: [0, 1024, 5038, 5039],
};

/// Two boxes that must stand on one another, and six beside them: before that is tried, all eight
/// are tried in a row, where they have no room. There are 5,062 branchings.
pub(crate) const LATE: Row = Row {
    container: [23, 10],
    boxes: &[
        [4, 5],
        [4, 5],
        [3, 6],
        [3, 6],
        [3, 6],
        [3, 6],
        [3, 6],
        [3, 6],
    ],
    scales: false,
    budgets: [0, 1024, 5061, 5062],
};

/// The instance of a row.
pub(crate) fn instance_of(alloc: Global, row: &Row) -> Result<Instance, Fail> {
    let mut boxes = Vec::new(alloc);
    for sides in row.boxes {
        boxes.push(BoxItem {
            sides: Sides::from_slice(alloc, sides.as_slice())?,
            value: 0,
        })?;
    }
    Ok(Instance::new(Sides::from_slice(alloc, row.container.as_slice())?, boxes)?)
}
