//! Closing only what changed comes to the same as closing everything.
ghost use Rattle.std.specs.Prelude.{◌≡◌, IfOk};
ghost use Rattle.packing_terms.specs.Packing.{dims, box_count};
ghost use Rattle.packing_terms.specs.Exclusions.{excludes, IsEdgeAmong};
ghost use Rattle.packing_terms.specs.Closure.{IsStable};
ghost use Rattle.packing_terms.specs.Places.{HasNoEmptyMask};

use crate::random::{instance_of, next, rel_of, sides_of};
use crate::room::{Room, room_for};
use box_instances::{Instance, NoMemory};
use edge_state::{EdgeState, Rel};
use rule_closure::{Closed, Closer};
use std::alloc::Global;
use std::test::Fail;

// Excludes one relation and closes what changed. A conflict is taken back.
fn try_since(
    instance: &Instance,
    state: &mut EdgeState,
    closer: &mut Closer,
    dim: u32,
    u: u32,
    v: u32,
    rel: Rel,
) -> bool
    requires dims { state.old.dims ≡ dims instance.now }
    requires boxes { state.old.boxes ≡ box_count instance.now }
    requires room { closer.old ≡ record { dims = state.old.dims; boxes = state.old.boxes } }
    requires edge { IsEdgeAmong state.old.dims state.old.boxes dim u v }
    requires stable { IsStable instance.now (excludes state.old.trail) }
    requires full { HasNoEmptyMask instance.now (excludes state.old.trail) }
    ensures closer { closer.new ≡ closer.old }
    ensures sizes { state.new ≡ record state.old { trail = state.new.trail } }
    ensures stable { IsStable instance.now (excludes state.new.trail) }
    ensures full { HasNoEmptyMask instance.now (excludes state.new.trail) }
{
    let mark = state.mark();
    let _ = state.exclude(dim, u, v, rel);
    match closer.close_since(instance, state, mark) {
        Closed::Stable => true,
        Closed::Conflict => {
            state.undo(mark);
            false
        }
    }
}

// The same, where everything is closed.
fn try_whole(
    instance: &Instance,
    state: &mut EdgeState,
    closer: &mut Closer,
    dim: u32,
    u: u32,
    v: u32,
    rel: Rel,
) -> bool
    requires dims { state.old.dims ≡ dims instance.now }
    requires boxes { state.old.boxes ≡ box_count instance.now }
    requires room { closer.old ≡ record { dims = state.old.dims; boxes = state.old.boxes } }
    requires edge { IsEdgeAmong state.old.dims state.old.boxes dim u v }
    ensures closer { closer.new ≡ closer.old }
    ensures sizes { state.new ≡ record state.old { trail = state.new.trail } }
{
    let mark = state.mark();
    let _ = state.exclude(dim, u, v, rel);
    match closer.close(instance, state) {
        Closed::Stable => true,
        Closed::Conflict => {
            state.undo(mark);
            false
        }
    }
}

// Whether two states have the same masks.
fn are_same(first: &EdgeState, second: &EdgeState) -> bool
    requires dims { first.now.dims ≡ second.now.dims }
    requires boxes { first.now.boxes ≡ second.now.boxes }
{
    for dim in 0..first.dims() {
        for u in 0..first.boxes() {
            for v in 0..first.boxes() {
                if u != v && first.mask(dim, u, v) != second.mask(dim, u, v) {
                    return false;
                }
            }
        }
    }
    true
}

// Excludes one relation in both ways, where there is such an edge. `None` comes where they differ.
fn try_both(
    instance: &Instance,
    state: &mut EdgeState,
    whole: &mut EdgeState,
    closer: &mut Closer,
    dim: u32,
    u: u32,
    v: u32,
    rel: Rel,
) -> Option<bool>
    requires dims { state.old.dims ≡ dims instance.now }
    requires boxes { state.old.boxes ≡ box_count instance.now }
    requires whole_dims { whole.old.dims ≡ dims instance.now }
    requires whole_boxes { whole.old.boxes ≡ box_count instance.now }
    requires room { closer.old ≡ record { dims = state.old.dims; boxes = state.old.boxes } }
    requires stable { IsStable instance.now (excludes state.old.trail) }
    requires full { HasNoEmptyMask instance.now (excludes state.old.trail) }
    ensures closer { closer.new ≡ closer.old }
    ensures sizes { state.new ≡ record state.old { trail = state.new.trail } }
    ensures whole_sizes { whole.new ≡ record whole.old { trail = whole.new.trail } }
    ensures stable { IsStable instance.now (excludes state.new.trail) }
    ensures full { HasNoEmptyMask instance.now (excludes state.new.trail) }
{
    if dim >= state.dims() || u >= state.boxes() || v >= state.boxes() || u == v {
        return Some(false);
    }
    let since = try_since(instance, state, closer, dim, u, v, rel);
    let all = try_whole(instance, whole, closer, dim, u, v, rel);
    if since == all && are_same(state, whole) {
        return Some(since);
    }
    None
}

// Draws `steps` exclusions one after another and closes each in both ways; counts those that stay.
// `None` comes where the two ways differ.
fn descend(
    instance: &Instance,
    state: &mut EdgeState,
    whole: &mut EdgeState,
    closer: &mut Closer,
    steps: u32,
    random: &mut u32,
) -> Option<u32>
    requires dims { state.old.dims ≡ dims instance.now }
    requires boxes { state.old.boxes ≡ box_count instance.now }
    requires whole_dims { whole.old.dims ≡ dims instance.now }
    requires whole_boxes { whole.old.boxes ≡ box_count instance.now }
    requires room { closer.old ≡ record { dims = state.old.dims; boxes = state.old.boxes } }
    requires stable { IsStable instance.now (excludes state.old.trail) }
    requires full { HasNoEmptyMask instance.now (excludes state.old.trail) }
{
    let mut stay = 0u32;
    for _ in 0..steps {
        let dim = next(random, instance.dims());
        let u = next(random, instance.len());
        let v = next(random, instance.len());
        let rel = rel_of(next(random, 3) as u8);
        let here = try_both(instance, state, whole, closer, dim, u, v, rel)?;
        stay = stay.saturating_add(if here { 1 } else { 0 });
    }
    Some(stay)
}

// The states that are closed in both ways, and the closer for both.
#[derive(Drop)]
struct Descent {
    state: EdgeState,
    whole: EdgeState,
    closer: Closer,
}

fn descent_of(alloc: Global, instance: &Instance) -> Result<Descent, NoMemory>
    ensures dims { IfOk result (λ d. (d.state.dims ≡ dims instance.now)
        × (d.whole.dims ≡ dims instance.now)) }
    ensures boxes { IfOk result (λ d. (d.state.boxes ≡ box_count instance.now)
        × (d.whole.boxes ≡ box_count instance.now)) }
    ensures closer { IfOk result (λ d. d.closer
        ≡ record { dims = dims instance.now; boxes = box_count instance.now }) }
{
    let room = room_for(alloc, instance)?;
    let whole = EdgeState::new(alloc, instance.dims(), instance.len())?;
    let Room { state, closer } = room;
    Ok(Descent {
        state,
        whole,
        closer,
    })
}

// Closes the root and descends from there.
fn descend_from_root(
    instance: &Instance,
    state: &mut EdgeState,
    whole: &mut EdgeState,
    closer: &mut Closer,
    random: &mut u32,
) -> Option<u32>
    requires dims { state.old.dims ≡ dims instance.now }
    requires boxes { state.old.boxes ≡ box_count instance.now }
    requires whole_dims { whole.old.dims ≡ dims instance.now }
    requires whole_boxes { whole.old.boxes ≡ box_count instance.now }
    requires room { closer.old ≡ record { dims = state.old.dims; boxes = state.old.boxes } }
{
    match closer.close(instance, state) {
        Closed::Stable => descend(instance, state, whole, closer, 30, random),
        Closed::Conflict => Some(0),
    }
}

// One descent from the closed root, of 30 exclusions.
fn from_root(
    alloc: Global,
    random: &mut u32,
    dims: u8,
    boxes: u8,
    most: u32,
    side: u32,
) -> Result<Option<u32>, Fail> {
    let sides = sides_of(random, boxes, most);
    let own = sides.get(..usize::from(boxes)).unwrap_or(&[]);
    let container = [side; 4];
    let instance = instance_of(
        alloc,
        container.get(..usize::from(dims)).unwrap_or(&[]),
        own,
    )?;
    let mut d = descent_of(alloc, &instance)?;
    Ok(descend_from_root(&instance, &mut d.state, &mut d.whole, &mut d.closer, random))
}

#[test]
fn incremental_closure_equals_full_closure(rt: HostRuntime) -> Result<(), Fail> {
    let mut random = 3;
    let mut stay = 0u32;
    for number in 0..200u32 {
        let dims = 2 + (number % 3) as u8;
        let boxes = 4 + (number % 17) as u8;
        let most = 7 + number % 3;
        match from_root(rt.alloc(), &mut random, dims, boxes, most, 20)? {
            Some(here) => stay = stay.saturating_add(here),
            None => assert!(rt; false),
        }
    }
    assert!(rt; stay >= 2000);
    Ok(())
}

#[test]
fn closing_what_changed_is_closing_with_many_boxes(rt: HostRuntime) -> Result<(), Fail> {
    let mut random = 7;
    let mut stay = 0u32;
    for boxes in [63, 64, 65, 66, 127, 128] {
        for dims in 2..4u8 {
            match from_root(rt.alloc(), &mut random, dims, boxes, 40, 90)? {
                Some(here) => stay = stay.saturating_add(here),
                None => assert!(rt; false),
            }
        }
    }
    assert!(rt; stay >= 100);
    Ok(())
}
