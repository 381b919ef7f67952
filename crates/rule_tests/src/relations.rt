//! Tests of masks and their composition.
use relation_table::{Mask, Rel, compose, flip};
use std::test::Fail;

fn mask_of(overlap: bool, before: bool, after: bool) -> Mask {
    let mut mask = Mask::all();
    if !overlap {
        mask = mask.without(Rel::Overlap);
    }
    if !before {
        mask = mask.without(Rel::Before);
    }
    if !after {
        mask = mask.without(Rel::After);
    }
    mask
}

#[test]
fn compositions_are_those_of_intervals(rt: HostRuntime) -> Result<(), Fail> {
    let none = mask_of(false, false, false);
    let overlap = mask_of(true, false, false);
    let before = mask_of(false, true, false);
    let after = mask_of(false, false, true);
    let overlap_or_before = mask_of(true, true, false);
    assert!(rt; compose(before, overlap).bits() == 3);
    assert!(rt; compose(overlap, overlap).bits() == 7);
    assert!(rt; compose(before, after).bits() == 7);
    assert!(rt; compose(before, before).bits() == 2);
    assert!(rt; compose(overlap_or_before, before).bits() == 3);
    assert!(rt; compose(none, Mask::all()).bits() == 0);
    Ok(())
}

#[test]
fn flip_swaps_before_and_after(rt: HostRuntime) -> Result<(), Fail> {
    assert!(rt; flip(mask_of(false, true, false)).bits() == 4);
    assert!(rt; flip(mask_of(true, true, false)).bits() == 5);
    Ok(())
}

#[test]
fn a_mask_has_what_its_bits_say(rt: HostRuntime) -> Result<(), Fail> {
    assert!(rt; Mask::all().bits() == 7);
    let before_or_after = Mask::all().without(Rel::Overlap);
    assert!(rt; before_or_after.bits() == 6);
    assert!(rt; !before_or_after.has(Rel::Overlap));
    assert!(rt; before_or_after.has(Rel::Before));
    assert!(rt; before_or_after.has(Rel::After));
    Ok(())
}
