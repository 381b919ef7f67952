//! Lists of lists of numbers.
ghost use Rattle.std.specs.Prelude.{◌≡◌, IfOk, OnOk};
ghost use Rattle.tree_terms.specs.OuterTrees.{with_answer};
ghost use Rattle.bin_search.specs.Lists.{lists_of, list_before, restored};

use box_instances::NoMemory;
use std::mem;

// Replaces one of the lists, and gives what stood there; or puts one more behind them.
pub(crate) fn replace_list(
    lists: &mut Vec<Vec<u32>>,
    at: usize,
    list: Vec<u32>,
) -> Result<Option<Vec<u32>>, NoMemory>
    ensures lists { OnOk result (lists_of lists.new.items
        ≡ with_answer (lists_of lists.old.items) at list.items) }
    ensures back { IfOk result (λ before. restored (lists_of lists.new.items) at
        (list_before before) ≡ lists_of lists.old.items) }
{
    if at < lists.len() {
        return Ok(Some(mem::replace(&mut lists[at], list)));
    }
    let Ok(()) = lists.push(list) else {
        return Err(NoMemory);
    };
    Ok(None)
}

// Undoes a replacement: puts back what stood there, or takes away the list that was put behind
// the others.
pub(crate) fn restore_list(lists: &mut Vec<Vec<u32>>, at: usize, before: Option<Vec<u32>>)
    ensures { lists_of lists.new.items
        ≡ restored (lists_of lists.old.items) at (list_before before) }
{
    match before {
        Some(list) => {
            if at < lists.len() {
                lists[at] = list;
            }
        }
        None => {
            let _last = lists.pop();
        }
    }
}
