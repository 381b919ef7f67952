//! The tables of values of scale functions.
ghost use Rattle.std.specs.Prelude.{◌≤◌, ◌≡◌, ◌∷◌, []};
ghost use Rattle.std.specs.Bool.{OnTrue};
ghost use Rattle.packing_terms.specs.Packing.{box_count};
ghost use Rattle.packing_terms.specs.Scales.{SidesFit, IsTuple};

use box_instances::{BoxItem, Instance, Sides};
use conservative_scales::{
    ScaleFn, ScaleTuple, exceeds, exceeds_among, first_exceeding, image, legal, whole,
};
use std::alloc::Global;
use std::test::Fail;

fn instance_of(
    alloc: Global,
    container: &[u32],
    sides: &[u32],
    count: u32,
) -> Result<Instance, Fail> {
    let mut boxes = Vec::new(alloc);
    for _ in 0..count {
        boxes.push(BoxItem {
            sides: Sides::from_slice(alloc, sides)?,
            value: 1,
        })?;
    }
    Ok(Instance::new(Sides::from_slice(alloc, container)?, boxes)?)
}

// The first tuple that exceeds, where the sides fit.
fn first(
    alloc: Global,
    container: &[u32],
    sides: &[u32],
    count: u32,
    copies: u32,
) -> Result<Option<ScaleTuple>, Fail>
    requires { copies ≤ 128 }
{
    let instance = instance_of(alloc, container, sides, count)?;
    if instance.sides_fit() {
        Ok(first_exceeding(alloc, &instance, copies))
    } else {
        Err(Fail::new("the sides fit"))
    }
}

fn is(found: Option<ScaleTuple>, wanted: [ScaleFn; 2]) -> bool {
    found.is_some_and(|tuple| tuple.as_slice() == wanted.as_slice())
}

#[test]
fn the_first_tuple_of_the_list_is_found(rt: HostRuntime) -> Result<(), Fail> {
    use ScaleFn::{Id, Step};
    let alloc = rt.alloc();
    assert!(rt; is(first(alloc, &[9, 9], &[4, 4], 5, 1)?, [Step(2), Id]));
    assert!(rt; is(first(alloc, &[5, 5], &[2, 2], 5, 1)?, [Step(2), Step(2)]));
    assert!(rt; is(first(alloc, &[10, 10], &[3, 6], 4, 1)?, [Id, Step(1)]));
    assert!(rt; is(first(alloc, &[10, 10], &[6, 6], 2, 1)?, [Step(1), Id]));
    assert!(rt; is(first(alloc, &[10, 10], &[10, 5], 3, 1)?, [Id, Id]));
    assert!(rt; first(alloc, &[10, 10], &[10, 5], 3, 2)?.is_none());
    Ok(())
}

#[test]
fn images_and_wholes_are_those_of_the_table(rt: HostRuntime) {
    assert!(rt; image(ScaleFn::Step(2), 9, 4) == 9);
    assert!(rt; whole(ScaleFn::Step(2), 9) == 18);
    assert!(rt; image(ScaleFn::Count(3), 10, 5) == 1);
    assert!(rt; image(ScaleFn::Count(3), 10, 6) == 2);
    assert!(rt; whole(ScaleFn::Count(3), 10) == 3);
    assert!(rt; image(ScaleFn::Cut(4), 10, 3) == 0);
    assert!(rt; image(ScaleFn::Cut(4), 10, 4) == 4);
    assert!(rt; image(ScaleFn::Cut(4), 10, 6) == 6);
    assert!(rt; image(ScaleFn::Cut(4), 10, 7) == 10);
}

#[test]
fn parameters_are_legal_within_their_ranges(rt: HostRuntime) {
    assert!(rt; legal(ScaleFn::Id, 0));
    assert!(rt; legal(ScaleFn::Step(16), 1));
    assert!(rt; !legal(ScaleFn::Step(17), 1));
    assert!(rt; !legal(ScaleFn::Step(0), 9));
    assert!(rt; !legal(ScaleFn::Step(1), 0));
    assert!(rt; legal(ScaleFn::Cut(5), 10));
    assert!(rt; !legal(ScaleFn::Cut(6), 10));
    assert!(rt; !legal(ScaleFn::Count(0), 10));
    assert!(rt; legal(ScaleFn::Count(5), 11));
}

// Whether the functions are a tuple of legal functions, one for each dimension.
fn is_tuple(instance: &Instance, tuple: &[ScaleFn]) -> bool
    ensures { OnTrue result (IsTuple instance.now tuple.now) }
{
    if tuple.len() != instance.dims() as usize {
        return false;
    }
    for dim in 0..instance.dims() {
        if !legal(tuple[dim as usize], instance.container_side(dim)) {
            return false;
        }
    }
    true
}

// Whether the first and the third of at least three boxes exceed.
#[tactic(auto, using(crate::proofs::Outer::outer_named, crate::proofs::Outer::outer_fit))]
fn outer_exceed(instance: &Instance, tuple: &[ScaleFn], copies: u32) -> bool
    requires three { 3 ≤ box_count instance.now }
    requires tuple { IsTuple instance.now tuple.now }
    requires fit { SidesFit instance.now }
    requires few { copies ≤ 128 }
{
    exceeds_among(instance, &[0, 2], tuple, copies)
}

#[test]
fn planks_exceed_by_their_number(rt: HostRuntime) -> Result<(), Fail> {
    let instance = instance_of(rt.alloc(), &[10, 10], &[3, 6], 4)?;
    let tuple = [ScaleFn::Id, ScaleFn::Step(1)];
    let ready = is_tuple(&instance, &tuple) && instance.sides_fit() && instance.len() >= 3;
    assert!(rt; ready);
    if ready {
        assert!(rt; exceeds(&instance, &tuple, 1));
        assert!(rt; !exceeds(&instance, &tuple, 2));
        assert!(rt; exceeds(&instance, &tuple, 0));
        assert!(rt; !outer_exceed(&instance, &tuple, 1));
        assert!(rt; outer_exceed(&instance, &tuple, 0));
    }
    Ok(())
}
