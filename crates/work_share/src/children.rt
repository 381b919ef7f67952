//! The children of a split, as they come onto a board.
ghost use Rattle.std.specs.Prelude.{◌≡◌, ◌<◌, ◌+◌, ◌-◌, ◌≤◌, ◌^◌, ◌++◌, ◌∷◌, [], length, reverse, take, drop, IfOk, vec_len, vec_capacity};
ghost use Rattle.work_share.specs.Board.{children_from};
ghost use Rattle.work_share.specs.Slots.{entries_from, with_slot};
ghost use Rattle.work_share.specs.Links.{link_to, links_from, links_of, with_link};
ghost use Rattle.work_share.specs.Boards.{waiting_tasks};

use crate::link::{link_to, put_link};
use crate::slot::{Slot, SlotState, put_state};
use crate::stack::insert_all;
use crate::task::Task;
use std::alloc::{AllocError, Global};

// The children of one split: their entries from left to right, their tasks from right to left, and
// the link of the split.
#[derive(Drop)]
pub(crate) struct Children {
    pub slots: Vec<Slot>,
    pub tasks: Vec<Task>,
    pub link: Option<usize>,
}

// The path of a child.
fn child_path(alloc: Global, path: &[u32], child: u32) -> Result<Vec<u32>, AllocError>
    ensures { IfOk result (λ p. p.items ≡ path.now ++ child ∷ []) }
{
    let mut longer = Vec::with_capacity(alloc, path.len() + 1)?;
    longer.extend_from_slice(path)?;
    longer.push(child)?;
    Ok(longer)
}

// The `children` children of a split of the node at this path, numbered from `first` on, in front
// of the entry of the number `behind`, if there is one.
pub(crate) fn children_of(
    alloc: Global,
    path: &[u32],
    children: u32,
    first: usize,
    behind: Option<usize>,
) -> Result<Children, AllocError>
    requires deep { length path.now + 1 < 2 ^ 32 }
    requires fits { first + children < 2 ^ 64 }
    ensures slots { IfOk result
        (λ c. entries_from first c.slots.items ≡ children_from path.now 0 children first) }
    ensures links { IfOk result (λ c. links_of c.slots.items ≡ links_from first children behind) }
    ensures link { IfOk result (λ c. c.link ≡ link_to first children behind) }
    ensures tasks { IfOk result
        (λ c. c.tasks.items ≡ reverse (waiting_tasks (children_from path.now 0 children first))) }
{
    let mut slots = Vec::with_capacity(alloc, children as usize)?;
    let mut tasks = Vec::with_capacity(alloc, children as usize)?;
    for k in 0..children {
        let number = first + k as usize;
        slots.push(Slot {
            path: child_path(alloc, path, k)?,
            state: SlotState::Waits,
            behind: link_to(number + 1, (children - k - 1) as usize, behind),
        })?;
        tasks.push(Task::new(child_path(alloc, path, k)?, number as u64))?;
    }
    tasks.reverse();
    Ok(Children {
        slots,
        tasks,
        link: link_to(first, children as usize, behind),
    })
}

// Puts a split, which is this state, and its children in the place of its task. Of the tasks that
// wait, `left` stand left of it. There is room for all.
pub(crate) fn put_children(
    slots: &mut Vec<Slot>,
    waiting: &mut Vec<Task>,
    number: usize,
    left: usize,
    state: SlotState,
    made: Children,
)
    requires inside { number < vec_len slots.old }
    requires enough { left ≤ vec_len waiting.old }
    requires slots_room { vec_len slots.old + vec_len made.slots ≤ vec_capacity slots.old }
    requires waiting_room { vec_len waiting.old + vec_len made.tasks ≤ vec_capacity waiting.old }
    ensures slots { slots.new.items
        ≡ with_slot (with_link slots.old.items number made.link) number state ++ made.slots.items }
    ensures waiting { waiting.new.items ≡ take (vec_len waiting.old - left) waiting.old.items
        ++ (made.tasks.items ++ drop (vec_len waiting.old - left) waiting.old.items) }
{
    put_link(slots, number, made.link);
    put_state(slots, number, state);
    let count = slots.len();
    insert_all(slots, count, made.slots);
    // What is moved is what stands left of the split, which is few, as it is taken first.
    let behind = waiting.len() - left;
    insert_all(waiting, behind, made.tasks);
}
