//! The numbers of an answer.
ghost use Rattle.std.specs.Prelude.{◌≡◌, ◌+◌, ◌==◌, IfOk};
ghost use Rattle.std.specs.List.{position_or_len};
ghost use Rattle.packing_terms.specs.OuterRefutation.{has_box};
ghost use Rattle.tree_terms.specs.OuterTrees.{bin_numbers};
ghost use Rattle.bin_search.specs.Lists.{lists_of};
ghost use Rattle.bin_search.specs.Paths.{HasAnswers};

use box_instances::{Instance, NoMemory};
use set_search::push_coordinates;
use std::alloc::Global;

// Whether a box is in a set.
fn has_box(keep: &[u32], v: u32) -> bool
    ensures { result ≡ has_box v keep.now }
{
    keep.iter().any(|u| *u == v)
}

// The index of a box in a set, and its length where it isn't there.
fn position_of(keep: &[u32], v: u32) -> usize
    ensures { result ≡ position_or_len (λ u. u == v) keep.now }
{
    keep.iter().position(|u| *u == v).unwrap_or(keep.len())
}

// The first bin that has a box, and the number of bins where none has it.
fn bin_of(bins: &[Vec<u32>], v: u32) -> usize
    ensures { result ≡ position_or_len (has_box v) (lists_of bins.now) }
{
    bins.iter()
        .position(|bin| has_box(bin.as_slice(), v))
        .unwrap_or(bins.len())
}

// The answer of the bin tree: of each box its bin and its coordinates.
pub(crate) fn bin_numbers(
    alloc: Global,
    instance: &Instance,
    bins: &[Vec<u32>],
    answers: &[Vec<u32>],
) -> Result<Vec<u32>, NoMemory>
    requires { HasAnswers instance.now (lists_of bins.now) (lists_of answers.now) }
    ensures { IfOk result (λ all. all.items
        ≡ bin_numbers instance.now (lists_of bins.now) (lists_of answers.now)) }
{
    let mut all = Vec::new(alloc);
    for v in 0..instance.len() {
        let b = bin_of(bins, v);
        let Ok(()) = all.push(b as u32) else {
            return Err(NoMemory);
        };
        push_coordinates(
            instance,
            position_of(bins[b].as_slice(), v),
            answers[b].as_slice(),
            &mut all,
        )?;
    }
    Ok(all)
}
