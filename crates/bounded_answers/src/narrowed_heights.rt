//! Heights between the refuted and the placed one, tried by families.
ghost use Rattle.std.specs.Prelude.{IfOk};
ghost use Rattle.bounded_answers.specs.Heights.{AreLevels, IsWithin};

use crate::height_levels::HeightLevels;
use crate::height_refuting::refuted_at;
use box_instances::{Instance, NoMemory};
use std::alloc::Global;

// More than halving any gap of two heights takes.
const MAX_HALVINGS: u32 = 32;

/// The levels with the greatest height that one family refutes, found by halving the gap. A family
/// at one height is mostly one at each lower height too: its pairs stay apart, and the side is
/// shorter.
///
/// Each height costs one closure of its root.
pub(crate) fn narrow(
    alloc: Global,
    instance: &Instance,
    levels: HeightLevels,
) -> Result<HeightLevels, NoMemory>
    requires { AreLevels instance.now levels }
    ensures levels { IfOk result (λ l. AreLevels instance.now l) }
    ensures within { IfOk result (λ l. IsWithin levels l) }
{
    let mut now = levels;
    let mut open = now.placed;
    for _ in 0..MAX_HALVINGS {
        let gap = open.saturating_sub(now.refuted);
        if gap < 2 {
            return Ok(now);
        }
        let height = now.refuted + gap / 2;
        match refuted_at(alloc, instance, height)? {
            Some(tokens) => now = now.raised(height, tokens),
            None => open = height,
        }
    }
    Ok(now)
}
