//! The least height, with families of boxes side by side in its refutation.
ghost use Rattle.std.specs.Prelude.{Bool, IfOk};
ghost use Rattle.text_terms.specs.declared.settings.Settings.{Settings as PlainSettings};
ghost use Rattle.bounded_answers.specs.Heights.{plain_strip, IsAnswer, IsOpenOnlyPast};

use crate::height_base::{plain_base, proposed_base};
use crate::height_levels::BoundedStrip;
use crate::narrowed_heights::narrow;
use box_instances::{Instance, NoMemory};
use std::alloc::Global;
use std::sync::Wait;
use std::thread::Threads;
use work_share::{Gate, Settings};

// The answer of the run without families, with or without proposals.
fn base_of<R: Threads + Wait + Sync, G: Gate + Sync>(
    rt: &R,
    alloc: Global,
    instance: &Instance,
    settings: &Settings,
    proposals: bool,
    gate: &G,
) -> Result<BoundedStrip, NoMemory>
    ensures answer { IfOk result (λ s. IsAnswer instance.now s) }
    ensures past { IfOk result
        (λ s. IsOpenOnlyPast proposals instance.now settings.now (plain_strip s)) }
{
    if proposals {
        proposed_base(rt, alloc, instance, settings, gate)
    } else {
        plain_base(rt, alloc, instance, settings, gate)
    }
}

// An answer whose heights are narrowed by families.
fn narrowed(
    alloc: Global,
    instance: &Instance,
    base: BoundedStrip,
) -> Result<BoundedStrip, NoMemory>
    requires { IsAnswer instance.now base }
    ensures answer { IfOk result (λ s. IsAnswer instance.now s) }
    ensures past { IfOk result (λ s. (proposals : Bool) (settings : PlainSettings)
        → IsOpenOnlyPast proposals instance.now settings (plain_strip base)
        → IsOpenOnlyPast proposals instance.now settings (plain_strip s)) }
{
    match base {
        BoundedStrip::Levels(levels) => {
            let near = narrow(alloc, instance, levels)?;
            Ok(BoundedStrip::Levels(near))
        }
        BoundedStrip::NoneFits { box_no, dim } => Ok(BoundedStrip::NoneFits { box_no, dim }),
    }
}

/// The least height at which the boxes fit, or two heights between which it lies, with both
/// certificates. The container's last side isn't read.
///
/// It begins with the heights of the run without families: those of `least_height`, or with
/// `proposals` those of `least_height_proposed`. Then it looks for the greatest height that one
/// family of boxes side by side refutes at the root, by halving the gap, and tests each family that
/// it finds. So the heights stay open only where that run's do, and lie within them. `NoneFits`
/// comes exactly where a box is longer than the container in a dimension other than the last.
/// Which refutation comes isn't promised.
pub fn least_height_bounded<R: Threads + Wait + Sync, G: Gate + Sync>(
    rt: &R,
    alloc: Global,
    instance: &Instance,
    settings: &Settings,
    proposals: bool,
    gate: &G,
) -> Result<BoundedStrip, NoMemory>
    ensures answer { IfOk result (λ s. IsAnswer instance.now s) }
    ensures past { IfOk result
        (λ s. IsOpenOnlyPast proposals instance.now settings.now (plain_strip s)) }
{
    let base = base_of(rt, alloc, instance, settings, proposals, gate)?;
    narrowed(alloc, instance, base)
}
