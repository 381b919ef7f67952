//! The stack of the tasks that wait, the leftmost on top.
ghost use Rattle.std.specs.Prelude.{◌≡◌, ◌≤◌, ◌+◌, ◌++◌, length, reverse, take, drop, vec_len, vec_capacity};
ghost use Rattle.work_share.specs.Kept.{leads_left};
ghost use Rattle.work_share.specs.Stacks.{count_left};

use crate::task::Task;

// Whether a path leads to the left of another: where they part, it takes a child before the
// other's.
fn leads_left(path: &[u32], other: &[u32]) -> bool
    ensures { result ≡ leads_left path.now other.now }
{
    let len = path.len().min(other.len());
    for k in 0..len {
        if path[k] != other[k] {
            return path[k] < other[k];
        }
    }
    false
}

// How many tasks on the stack, from its top on, stand left of a path. They are the children of
// splits left of it that came since its task was on top, and wait to be taken before all others:
// few, and what a split at this path moves. So looking for them costs no more than moving them.
pub(crate) fn count_left(stack: &[Task], path: &[u32]) -> usize
    ensures count { result ≡ count_left path.now (reverse stack.now) }
    ensures few { result ≤ length stack.now }
{
    let len = stack.len();
    for count in 0..len {
        let below = len - count - 1;
        if !leads_left(stack[below].path(), path) {
            return count;
        }
    }
    len
}

// Puts the items of one list into another, which has room for them, before the one at this
// position.
pub(crate) fn insert_all<T: Drop>(list: &mut Vec<T>, position: usize, mut items: Vec<T>)
    requires inside { position ≤ vec_len list.old }
    requires room { vec_len list.old + vec_len items ≤ vec_capacity list.old }
    ensures { list.new.items ≡ take position list.old.items
        ++ (items.items ++ drop position list.old.items) }
{
    let behind = list.len() - position;
    let Ok(()) = list.append(&mut items) else {
        unreachable!()
    };
    list[position..].rotate_left(behind);
}
