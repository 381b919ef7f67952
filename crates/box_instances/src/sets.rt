//! Sets of the boxes of an instance, as instances of their own.
ghost use Rattle.std.specs.Prelude.{◌≡◌, ◌<◌, ◌≤◌, ◌-◌, IfOk, length, map, slice_index_or, slice_set, vec_capacity};
ghost use Rattle.std.specs.List.{range_with_len};
ghost use Rattle.packing_terms.specs.Packing.{dims, box_count, no_box};
ghost use Rattle.packing_terms.specs.Goals.{subset, IsBoxSet};
ghost use Rattle.packing_terms.specs.Limits.{IsInternalInstance};
ghost use Rattle.box_instances.specs.Plain.{plain_box};
ghost use Rattle.box_instances.specs.Sets.{all_boxes, AreFirstSets};

use crate::working::greater_sides;
use crate::{Instance, NoMemory};
use std::alloc::Global;
use std::marker::Model;

impl Instance {
    // Makes one box equal to one of another instance with the same kerfs, without taking memory.
    fn set_box(&mut self, at: u32, from: &Instance, box_no: u32)
        requires at { at < box_count self.old }
        requires box_no { box_no < box_count from.now }
        requires dims { dims self.old ≡ dims from.now }
        requires kerfs { self.old.kerfs ≡ from.now.kerfs }
        ensures { self.new ≡ record self.old {
          boxes = slice_set self.old.boxes at (slice_index_or from.now.boxes box_no no_box);
        } }
    {
        let item = &from.boxes[box_no as usize];
        let own = &mut self.boxes[at as usize];
        own.sides
            .as_mut_slice()
            .copy_from_slice(item.sides.as_slice());
        own.value = item.value;
        self.working[at as usize] = from.working[box_no as usize];
        self.longest = greater_sides(&self.longest, &from.working[box_no as usize]);
    }
}

/// A set of the boxes of an instance, as an instance of its own that can be set to other boxes
/// without taking memory.
///
/// It is seen as the instance and the numbers of the boxes, which rise and of which there is at
/// least one. It holds one instance for each number of boxes: n (n + 1) / 2 boxes where the
/// instance has n.
#[derive(Drop)]
pub struct BoxSet<'a> {
    whole: &'a Instance,
    keep: Vec<u32>,
    sets: Vec<Instance>,
}

impl<'a> Model for BoxSet<'a> {
    ghost use Rattle.std.specs.Prelude.{vec_capacity};
    ghost use Rattle.box_instances.specs.Sets.{PlainBoxSet, IsHeldSet};

    ghost Value = { PlainBoxSet };

    ghost view = { λ s. record { whole = s.whole.now; keep = s.keep.items } };

    ghost invariant = { λ s. IsHeldSet s.whole.now s.keep.items s.sets.items
        (vec_capacity s.keep) };
}

// The numbers 0 to n - 1.
fn numbers_below(alloc: Global, count: u32) -> Result<Vec<u32>, NoMemory>
    ensures { IfOk result (λ list. (list.items ≡ range_with_len 0 count)
        × (count ≤ vec_capacity list)) }
{
    let Ok(mut list) = Vec::with_capacity(alloc, count as usize) else {
        return Err(NoMemory);
    };
    for v in 0..count {
        list.push_reserved(v);
    }
    Ok(list)
}

// For each number of boxes the instance of the first ones.
fn first_sets(alloc: Global, whole: &Instance, all: &[u32]) -> Result<Vec<Instance>, NoMemory>
    requires { all.now ≡ all_boxes whole.now }
    ensures { IfOk result (λ sets. AreFirstSets whole.now (box_count whole.now) sets.items) }
{
    let mut sets = Vec::new(alloc);
    for last in 0..all.len() {
        let set = whole.subset(alloc, &all[..last + 1])?;
        if sets.push(set).is_err() {
            return Err(NoMemory);
        }
    }
    Ok(sets)
}

// Makes a list another one, without taking memory.
fn refill(list: &mut Vec<u32>, numbers: &[u32])
    requires { length numbers.now ≤ vec_capacity list.old }
    ensures items { list.new.items ≡ numbers.now }
    ensures capacity { vec_capacity list.new ≡ vec_capacity list.old }
{
    list.clear();
    for i in 0..numbers.len() {
        list.push_reserved(numbers[i]);
    }
}

// Makes the boxes of an instance those of another that are named.
fn set_boxes(set: &mut Instance, whole: &Instance, keep: &[u32])
    requires named { IsBoxSet whole.now keep.now }
    requires count { box_count set.old ≡ length keep.now }
    requires container { set.old.container ≡ whole.now.container }
    requires kerfs { set.old.kerfs ≡ whole.now.kerfs }
    ensures { set.new ≡ subset whole.now keep.now }
{
    for at in 0..set.len() {
        set.set_box(at, whole, keep[at as usize]);
    }
}

impl<'a> BoxSet<'a> {
    /// The set of all boxes. It takes all memory that later calls need.
    pub fn all(alloc: Global, whole: &'a Instance) -> Result<BoxSet<'a>, NoMemory>
        ensures { IfOk result (λ s. s ≡ record { whole = whole.now; keep = all_boxes whole.now }) }
    {
        let keep = numbers_below(alloc, whole.len())?;
        let sets = first_sets(alloc, whole, keep.as_slice())?;
        Ok(BoxSet { whole, keep, sets })
    }

    /// Makes it the set of these boxes: at least one, in range, by strictly rising numbers.
    pub fn set_to(&mut self, keep: &[u32])
        requires some { 1 ≤ length keep.now }
        requires set { IsBoxSet self.old.whole keep.now }
        ensures { self.new ≡ record self.old { keep = keep.now } }
    {
        // For the proof alone: states the limits of the instance.
        let _limits = self.whole.len();
        refill(&mut self.keep, keep);
        set_boxes(&mut self.sets[keep.len() - 1], self.whole, keep);
    }

    /// The instance of the boxes.
    pub fn instance(&self) -> &Instance
        ensures { result.now ≡ subset self.now.whole self.now.keep }
    {
        &self.sets[self.keep.len() - 1]
    }
}
