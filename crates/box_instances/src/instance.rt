//! Boxes and instances.
ghost use Rattle.std.specs.Prelude.{map, replicate, slice_index, IfErr, slice_index_or, ◌≡◌, ◌<◌, ◌≤◌, ◌^◌, ℕ, length, IfOk, OnOk, MatchOption};
ghost use Rattle.packing_terms.specs.Packing.{dims, box_count, kerf, written_container, written_side, container_side, side, value, no_box};
ghost use Rattle.packing_terms.specs.Limits.{max_boxes, AreSides, IsBox, IsInstance, IsInternalInstance};
ghost use Rattle.box_instances.specs.Plain.{plain_box, plain_instance, without_kerf};
ghost use Rattle.box_instances.specs.Faults.{AreKerfsOf, IsFirstFaultySide, IsFirstKerfOutside, IsFirstFault, IsFirstBoxFault};

use crate::InstanceFault;
use crate::working::{longest_sides, working_row, working_sides};
use smallvec::SmallVec;
use std::alloc::Global;
use std::marker::Model;

/// The sides of a box or of a container, in the order of the dimensions, held inline.
pub type Sides = SmallVec<u32, 4>;

/// A box: its sides, and the value that a knapsack gains by taking it.
#[derive(Drop)]
pub struct BoxItem {
    pub sides: Sides,
    pub value: u64,
}

/// The greatest number of boxes.
pub const MAX_BOXES: usize = 128;

/// The greatest written side with its kerf.
pub const MAX_SIDE: u32 = 1_000_000;

/// The greatest kerf.
pub const MAX_KERF: u32 = 100_000;

/// The greatest value of a box.
pub const MAX_VALUE: u32 = 1_000_000_000;

/// A container and the boxes that are to be packed in it without rotation, with a gap of at least
/// the kerf between boxes that are apart.
///
/// It has 2 to 4 dimensions and 1 to 128 boxes. In each dimension the kerf is from 0 to 100,000,
/// and each box has a written side from 1 to 1,000,000 less the kerf; its value is at most
/// 1,000,000,000. Each written container side is in the same range, but the last one may have been
/// set to anything from 0 to 128,000,000. A working side is a written one with the kerf. Contracts
/// see an instance as the plain instance of the written numbers.
///
/// Searches ask for working sides all the time, so these are held too, each in its place, and for
/// each dimension a bound on them.
#[derive(Drop)]
pub struct Instance {
    pub(crate) container: Sides,
    pub(crate) kerf: Sides,
    pub(crate) boxes: Vec<BoxItem>,
    pub(crate) limits: [u32; 4],
    pub(crate) working: [[u32; 4]; MAX_BOXES],
    pub(crate) longest: [u32; 4],
}

impl Model for Instance {
    ghost use Rattle.packing_terms.specs.Packing.{PlainInstance};

    ghost Value = { PlainInstance };

    ghost use Rattle.box_instances.specs.Plain.{plain_instance};
    ghost use Rattle.box_instances.specs.Working.{IsHeld};

    ghost view = { λ i. plain_instance i.container i.kerf i.boxes };

    ghost invariant = { λ i. IsHeld (plain_instance i.container i.kerf i.boxes) i.limits
        i.working i.longest };
}

// Kerf `i`, and 0 where there is none.
fn kerf_at(kerf: &[u32], i: usize) -> u32
    ensures { result ≡ slice_index kerf.now i }
{
    if i < kerf.len() { kerf[i] } else { 0 }
}

// The index of the first number that is no written side under these kerfs.
fn first_outside(kerf: &[u32], sides: &[u32]) -> Option<u32>
    requires { length sides.now < 2 ^ 32 }
    ensures { MatchOption result (AreSides kerf.now sides.now)
        (IsFirstFaultySide kerf.now sides.now) }
{
    for i in 0..sides.len() {
        if sides[i] < 1 || sides[i] as u64 + kerf_at(kerf, i) as u64 > MAX_SIDE as u64 {
            return Some(i as u32);
        }
    }
    None
}

// The index of the first kerf that is out of range, beside these container sides.
fn first_kerf_outside(container: &[u32], kerf: &[u32]) -> Option<u32>
    requires few { length kerf.now < 2 ^ 32 }
    requires same { length kerf.now ≡ length container.now }
    ensures { MatchOption result (AreKerfsOf container.now kerf.now)
        (IsFirstKerfOutside container.now kerf.now) }
{
    for i in 0..kerf.len() {
        if kerf[i] > MAX_KERF || container[i] as u64 + kerf[i] as u64 > MAX_SIDE as u64 {
            return Some(i as u32);
        }
    }
    None
}

// What is wrong with the first box that has a fault.
fn first_box_fault(dims: usize, kerf: &[u32], boxes: &[BoxItem]) -> Option<InstanceFault>
    requires few { length boxes.now ≤ max_boxes }
    requires dims { dims ≤ 4 }
    ensures { MatchOption result
        ((v : ℕ) → v < length boxes.now
        → IsBox dims kerf.now (slice_index_or (map plain_box boxes.now) v no_box))
        (IsFirstBoxFault dims kerf.now (map plain_box boxes.now)) }
{
    for v in 0..boxes.len() {
        let box_no = v as u32;
        let item = &boxes[v];
        if item.sides.len() != dims {
            return Some(InstanceFault::SideCount { box_no });
        }
        if let Some(dim) = first_outside(kerf, item.sides.as_slice()) {
            return Some(InstanceFault::SideRange { box_no, dim });
        }
        if item.value > MAX_VALUE as u64 {
            return Some(InstanceFault::ValueRange { box_no });
        }
    }
    None
}

// `count` zeros.
fn zeros(alloc: Global, count: usize) -> Sides
    requires { count ≤ 4 }
    ensures { result.items ≡ replicate count 0 }
{
    let mut kerf = Sides::new(alloc);
    for k in 0..count {
        kerf.push_reserved(0);
    }
    kerf
}

impl Instance {
    // The instance of parts that are known to be one.
    pub(crate) fn of_parts(container: Sides, kerf: Sides, boxes: Vec<BoxItem>) -> Instance
        requires { IsInternalInstance (plain_instance container kerf boxes) }
        ensures { result ≡ plain_instance container kerf boxes }
    {
        let limits = working_row(kerf.as_slice(), container.as_slice());
        let working = working_sides(kerf.as_slice(), boxes.as_slice());
        let longest = longest_sides(&working, boxes.len());
        Instance {
            container,
            kerf,
            boxes,
            limits,
            working,
            longest,
        }
    }

    /// The instance of these parts with kerf 0, whose container sides are all from 1 to 1,000,000.
    /// It refuses as `with_kerf` does.
    pub fn new(container: Sides, boxes: Vec<BoxItem>) -> Result<Instance, InstanceFault>
        ensures ok { IfOk result (λ i. i ≡ without_kerf container boxes) }
        ensures limits { OnOk result (IsInstance (without_kerf container boxes)) }
        ensures fault { IfErr result (IsFirstFault (without_kerf container boxes)) }
    {
        if container.len() > 4 {
            return Err(InstanceFault::Dims);
        }
        let kerf = zeros(*boxes.allocator(), container.len());
        Instance::with_kerf(container, kerf, boxes)
    }

    /// The instance of these parts, by their written sides.
    ///
    /// It refuses exactly with the first of these faults that holds, and drops the parts: `Dims`;
    /// `ContainerRange` at the first container side outside 1 to 1,000,000; `KerfCount`;
    /// `KerfRange` at the first kerf that exceeds 100,000, or with its container side 1,000,000;
    /// `NoBoxes`; `TooManyBoxes`; and then at the first faulty box `SideCount`, else `SideRange` at
    /// its first side outside 1 to 1,000,000 less the kerf, else `ValueRange`.
    pub fn with_kerf(
        container: Sides,
        kerf: Sides,
        boxes: Vec<BoxItem>,
    ) -> Result<Instance, InstanceFault>
        ensures ok { IfOk result (λ i. i ≡ plain_instance container kerf boxes) }
        ensures limits { OnOk result (IsInstance (plain_instance container kerf boxes)) }
        ensures fault { IfErr result (IsFirstFault (plain_instance container kerf boxes)) }
    {
        if container.len() < 2 || container.len() > 4 {
            return Err(InstanceFault::Dims);
        }
        if let Some(dim) = first_outside(&[], container.as_slice()) {
            return Err(InstanceFault::ContainerRange { dim });
        }
        if kerf.len() != container.len() {
            return Err(InstanceFault::KerfCount);
        }
        if let Some(dim) = first_kerf_outside(container.as_slice(), kerf.as_slice()) {
            return Err(InstanceFault::KerfRange { dim });
        }
        if boxes.is_empty() {
            return Err(InstanceFault::NoBoxes);
        }
        if boxes.len() > MAX_BOXES {
            return Err(InstanceFault::TooManyBoxes);
        }
        if let Some(fault) = first_box_fault(container.len(), kerf.as_slice(), boxes.as_slice()) {
            return Err(fault);
        }
        Ok(Instance::of_parts(container, kerf, boxes))
    }

    /// The number of dimensions, from 2 to 4. Every instance is within the limits.
    pub fn dims(&self) -> u32
        ensures value { result ≡ dims self.now }
        ensures limits { IsInternalInstance self.now }
    {
        self.container.len() as u32
    }

    /// The number of boxes, from 1 to 128. Every instance is within the limits.
    pub fn len(&self) -> u32
        ensures value { result ≡ box_count self.now }
        ensures limits { IsInternalInstance self.now }
    {
        self.boxes.len() as u32
    }

    /// The container's working side in a dimension: the written one with the kerf.
    #[inline]
    pub fn container_side(&self, dim: u32) -> u32
        requires { dim < dims self.now }
        ensures { result ≡ container_side self.now dim }
    {
        self.limits[dim as usize]
    }

    /// A box's working side in a dimension: the written one with the kerf.
    #[inline]
    pub fn side(&self, box_no: u32, dim: u32) -> u32
        requires box_in_range { box_no < box_count self.now }
        requires dim_in_range { dim < dims self.now }
        ensures { result ≡ side self.now box_no dim }
    {
        self.working[box_no as usize][dim as usize]
    }

    /// The container's working sides, an entry for each dimension. What stands in entries beyond
    /// them isn't specified.
    #[inline]
    pub fn container_row(&self) -> [u32; 4]
        ensures { (i : ℕ) → i < dims self.now
            → slice_index result i ≡ container_side self.now i }
    {
        let row = &self.limits;
        *row
    }

    /// A box's working sides, an entry for each dimension. What stands in entries beyond them isn't
    /// specified.
    #[inline]
    pub fn side_row(&self, box_no: u32) -> [u32; 4]
        requires { box_no < box_count self.now }
        ensures { (i : ℕ) → i < dims self.now → slice_index result i ≡ side self.now box_no i }
    {
        let row = &self.working[box_no as usize];
        *row
    }

    /// A bound on the working sides of the boxes in a dimension: none is longer. Of an instance
    /// that was made of its boxes it is the greatest side; a `BoxSet` may answer that of a box that
    /// it no longer has.
    #[inline]
    pub fn longest_side(&self, dim: u32) -> u32
        requires { dim < dims self.now }
        ensures { (v : ℕ) → v < box_count self.now → side self.now v dim ≤ result }
    {
        self.longest[dim as usize]
    }

    /// The kerf in a dimension: the least gap between boxes that are apart there. Every instance is
    /// within the limits.
    pub fn kerf(&self, dim: u32) -> u32
        requires { dim < dims self.now }
        ensures value { result ≡ kerf self.now dim }
        ensures limits { IsInternalInstance self.now }
    {
        self.kerf.as_slice()[dim as usize]
    }

    /// The container's side in a dimension, as it is written.
    pub fn written_container(&self, dim: u32) -> u32
        requires { dim < dims self.now }
        ensures { result ≡ written_container self.now dim }
    {
        self.container.as_slice()[dim as usize]
    }

    /// A box's side in a dimension, as it is written.
    pub fn written_side(&self, box_no: u32, dim: u32) -> u32
        requires box_in_range { box_no < box_count self.now }
        requires dim_in_range { dim < dims self.now }
        ensures { result ≡ written_side self.now box_no dim }
    {
        let item = &self.boxes[box_no as usize];
        item.sides.as_slice()[dim as usize]
    }

    /// A box's value.
    pub fn value(&self, box_no: u32) -> u64
        requires { box_no < box_count self.now }
        ensures { result ≡ value self.now box_no }
    {
        let item = &self.boxes[box_no as usize];
        item.value
    }
}
