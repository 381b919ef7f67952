//! Instances, and what a list of tokens comes to.
ghost use Rattle.std.specs.Prelude.{◌≡◌};

use box_instances::{BoxItem, Instance, Sides};
use proof_tree::Token;
use refutation_check::{FeedVerdict, Refuter};
use std::alloc::Global;
use std::test::Fail;

/// The instance of these boxes, each with the number of its copies.
pub(crate) fn instance_of(
    alloc: Global,
    container: &[u32],
    boxes: &[(&[u32], u32)],
) -> Result<Instance, Fail> {
    let mut items = Vec::new(alloc);
    for (sides, count) in boxes {
        for _ in 0..*count {
            items.push(BoxItem {
                sides: Sides::from_slice(alloc, sides)?,
                value: 1,
            })?;
        }
    }
    Ok(Instance::new(Sides::from_slice(alloc, container)?, items)?)
}

/// The next number of a linear congruence, from 1 to `most`.
pub(crate) fn drawn(random: &mut u32, most: u32) -> u32 {
    *random = random.wrapping_mul(1_664_525).wrapping_add(1_013_904_223);
    if most == 0 {
        return 1;
    }
    ((*random >> 16) % most).saturating_add(1)
}

/// The instance of `count` drawn boxes in a square or a cube.
pub(crate) fn drawn_instance(
    alloc: Global,
    random: &mut u32,
    dims: u32,
    count: u32,
    most: u32,
    side: u32,
) -> Result<Instance, Fail> {
    let mut items = Vec::new(alloc);
    for _ in 0..count {
        let mut sides = Sides::new(alloc);
        for _ in 0..dims {
            sides.push(drawn(random, most))?;
        }
        items.push(BoxItem { sides, value: 1 })?;
    }
    let mut container = Sides::new(alloc);
    for _ in 0..dims {
        container.push(side)?;
    }
    Ok(Instance::new(container, items)?)
}

/// Whether each token but the last is accepted with more to come, and the last makes the tree
/// whole.
pub(crate) fn is_refuted(refuter: &mut Refuter<'_>, tokens: &[Token]) -> bool
    ensures { refuter.new.instance ≡ refuter.old.instance }
{
    let mut is_whole = false;
    for at in 0..tokens.len() {
        if is_whole || refuter.whole() {
            return false;
        }
        match refuter.feed(&tokens[at]) {
            FeedVerdict::More => {}
            FeedVerdict::Done => is_whole = true,
            FeedVerdict::Refused { .. } => return false,
        }
    }
    is_whole && refuter.whole()
}
