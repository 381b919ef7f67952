//! The first exceeding tuple against a plain scan of the list as it is written out, on generated
//! instances.
ghost use Rattle.std.specs.Prelude.{◌≤◌};

use box_instances::{BoxItem, Instance, Sides};
use conservative_scales::{ScaleFn, first_exceeding};
use std::alloc::Global;
use std::test::Fail;

// A linear congruential generator.
#[derive(Drop)]
struct Draws {
    state: u64,
}

impl Draws {
    // A number from 1 to `most`.
    fn next(&mut self, most: u32) -> u32 {
        let next = (self.state as u128 * 1_103_515_245 + 12_345) % 2_147_483_648;
        self.state = next as u64;
        1 + (next as u64 / 65_536 % most.max(1) as u64) as u32
    }
}

// The image of a width, by the table of the four families.
fn plain_image(f: ScaleFn, side: u64, x: u64) -> u64 {
    match f {
        ScaleFn::Id => x,
        ScaleFn::Step(k) => {
            let steps = (k as u64).wrapping_add(1).wrapping_mul(x);
            if side == 0 {
                0
            } else if steps % side == 0 {
                (k as u64).wrapping_mul(x)
            } else {
                side.wrapping_mul(steps / side)
            }
        }
        ScaleFn::Cut(e) if x < e as u64 => 0,
        ScaleFn::Cut(e) if x <= side.wrapping_sub(e as u64) => x,
        ScaleFn::Cut(_) => side,
        ScaleFn::Count(e) if x < e as u64 || e == 0 => 0,
        ScaleFn::Count(_) if x.wrapping_mul(2) <= side => 1,
        ScaleFn::Count(e) => { (side / e as u64).wrapping_sub(side.wrapping_sub(x) / e as u64) }
    }
}

fn plain_whole(f: ScaleFn, side: u64) -> u64 {
    match f {
        ScaleFn::Id | ScaleFn::Cut(_) => side,
        ScaleFn::Step(k) => (k as u64).wrapping_mul(side),
        ScaleFn::Count(e) => side / (e as u64).max(1),
    }
}

// The functions of a dimension, in order.
fn functions_of(alloc: Global, instance: &Instance, dim: u32) -> Result<Vec<ScaleFn>, Fail> {
    let mut list = Vec::new(alloc);
    list.push(ScaleFn::Id)?;
    for k in 1..5 {
        list.push(ScaleFn::Step(k))?;
    }
    if dim >= instance.dims() {
        return Ok(list);
    }
    let half = instance.container_side(dim) / 2;
    let mut edges = Vec::new(alloc);
    for e in 1..half.saturating_add(1) {
        let mut is_edge = e == half;
        for box_no in 0..instance.len() {
            is_edge = is_edge | (instance.side(box_no, dim) == e);
        }
        if is_edge {
            edges.push(e)?;
        }
    }
    for e in &edges {
        list.push(ScaleFn::Cut(*e))?;
    }
    for e in &edges {
        list.push(ScaleFn::Count(*e))?;
    }
    Ok(list)
}

// Whether the tuple exceeds, summed from scratch.
fn plain_exceeds(instance: &Instance, tuple: &[ScaleFn], copies: u128) -> bool {
    let mut whole = copies;
    for dim in 0..instance.dims().min(tuple.len().min(4) as u32) {
        let side = instance.container_side(dim) as u64;
        whole = whole.wrapping_mul(plain_whole(tuple[dim as usize], side) as u128);
    }
    let mut total: u128 = 0;
    for box_no in 0..instance.len() {
        let mut product: u128 = 1;
        for dim in 0..instance.dims().min(tuple.len().min(4) as u32) {
            let side = instance.container_side(dim) as u64;
            let x = instance.side(box_no, dim) as u64;
            product = product.wrapping_mul(plain_image(tuple[dim as usize], side, x) as u128);
        }
        total = total.wrapping_add(product);
    }
    total > whole
}

// The first exceeding tuple of the list, with the function of dimension 0 varying fastest.
fn plain_first(
    alloc: Global,
    instance: &Instance,
    copies: u32,
) -> Result<Option<Vec<ScaleFn>>, Fail> {
    let lists = [
        functions_of(alloc, instance, 0)?,
        functions_of(alloc, instance, 1)?,
        functions_of(alloc, instance, 2)?,
        functions_of(alloc, instance, 3)?,
    ];
    let dims = instance.dims();
    let only_id = [ScaleFn::Id];
    let third = if dims > 2 {
        lists[2].as_slice()
    } else {
        only_id.as_slice()
    };
    let fourth = if dims > 3 {
        lists[3].as_slice()
    } else {
        only_id.as_slice()
    };
    for d in fourth {
        for c in third {
            for b in lists[1].as_slice() {
                for a in lists[0].as_slice() {
                    let chosen = [*a, *b, *c, *d];
                    let others = chosen.iter().filter(|f| **f != ScaleFn::Id).count();
                    let tuple = &chosen[..(dims as usize).min(4)];
                    if others <= 2 && plain_exceeds(instance, tuple, copies as u128) {
                        let mut found = Vec::new(alloc);
                        found.extend_from_slice(tuple)?;
                        return Ok(Some(found));
                    }
                }
            }
        }
    }
    Ok(None)
}

fn generated(alloc: Global, draws: &mut Draws) -> Result<Instance, Fail> {
    let dims = draws.next(3).saturating_add(1);
    let mut container = Sides::new(alloc);
    for _ in 0..dims {
        container.push(draws.next(12).saturating_add(1))?;
    }
    let mut boxes = Vec::new(alloc);
    for _ in 0..draws.next(5) {
        let mut sides = Sides::new(alloc);
        for side in &container {
            sides.push(draws.next(*side))?;
        }
        boxes.push(BoxItem { sides, value: 1 })?;
    }
    Ok(Instance::new(container, boxes)?)
}

#[test]
fn the_search_finds_what_a_scan_of_the_written_list_finds(rt: HostRuntime) -> Result<(), Fail> {
    let alloc = rt.alloc();
    let mut draws = Draws { state: 2007 };
    let mut exceeding = 0u32;
    for turn in 0..300u32 {
        let instance = generated(alloc, &mut draws)?;
        let copies = 1 + turn % 2;
        let fit = instance.sides_fit();
        assert!(rt; fit);
        if fit {
            let found = first_exceeding(alloc, &instance, copies);
            let wanted = plain_first(alloc, &instance, copies)?;
            match (found, wanted) {
                (Some(tuple), Some(plain)) => {
                    assert!(rt; tuple.as_slice() == plain.as_slice(), "turn {turn}");
                    exceeding = exceeding.saturating_add(1);
                }
                (None, None) => {}
                _ => return Err(Fail::new("one of the two found no tuple")),
            }
        }
    }
    assert!(rt; exceeding > 30 && exceeding < 270, "{exceeding}");
    Ok(())
}
