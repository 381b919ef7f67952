//! Lists of steps in a few bytes each.
ghost use Rattle.std.specs.Prelude.{◌≡◌, ◌<◌, ◌++◌, ◌∷◌, [], ℕ, length, slice_index_or, IfOk, OnOk, OnErr};
ghost use Rattle.verdict_terms.specs.Steps.{PlainStep};
ghost use Rattle.line_proofs.specs.Plain.{plain_step};
ghost use Rattle.line_proofs.specs.ShortSteps.{shown_step, IsWithin, held_step};

use crate::Step;
use crate::short_step::{HeldStep, ShortStep};
use box_instances::NoMemory;
use std::alloc::Global;
use std::marker::Model;

/// A list of steps, which grows behind. It is seen as its steps.
///
/// A `Step` takes 56 bytes, since it has room for a tuple of scale functions, and nearly all lines
/// of an explained refutation are of small numbers. So a list holds each line in eight bytes, and a
/// tuple or a larger number apart.
#[derive(Drop)]
pub struct StepList {
    shorts: Vec<ShortStep>,
    // Those to which the others lead by `Wide`.
    wides: Vec<Step>,
}

impl Model for StepList {
    ghost use Rattle.std.specs.Prelude.{List, All, length, map};
    ghost use Rattle.verdict_terms.specs.Steps.{PlainStep};
    ghost use Rattle.line_proofs.specs.Plain.{plain_step};
    ghost use Rattle.line_proofs.specs.ShortSteps.{shown_steps, IsWithin};

    ghost Value = { List PlainStep };

    ghost view = { λ l. shown_steps (map plain_step l.wides.items) l.shorts.items };

    ghost invariant = { λ l. All (IsWithin (length l.wides.items)) l.shorts.items };
}

// The position of the next one that is held apart. Where there are more of them than a number
// counts, that is want of memory.
fn next_index(wides: &[Step]) -> Result<u32, NoMemory>
    ensures { IfOk result (λ index. index ≡ length wides.now) }
{
    let count = wides.len();
    if count > 4_294_967_295 {
        return Err(NoMemory);
    }
    Ok(count as u32)
}

impl StepList {
    /// A list of no step. It takes no memory before the first comes.
    pub fn new(alloc: Global) -> StepList
        ensures { result ≡ [] }
    {
        StepList {
            shorts: Vec::new(alloc),
            wides: Vec::new(alloc),
        }
    }

    /// A list of no step, with memory for `count` steps that are held in a few bytes.
    pub fn with_capacity(alloc: Global, count: usize) -> Result<StepList, NoMemory>
        ensures { IfOk result (λ l. l ≡ []) }
    {
        let Ok(shorts) = Vec::with_capacity(alloc, count) else {
            return Err(NoMemory);
        };
        Ok(StepList {
            shorts,
            wides: Vec::new(alloc),
        })
    }

    /// How many steps there are.
    pub fn len(&self) -> usize
        ensures { result ≡ length self.now }
    {
        self.shorts.len()
    }

    /// The step at a position, which is one of the list. It takes no memory.
    pub fn at(&self, k: usize) -> HeldStep<'_>
        requires { k < length self.now }
        ensures { (d : PlainStep) → held_step result ≡ slice_index_or self.now k d }
    {
        self.shorts[k].held(self.wides.as_slice())
    }

    // Appends one that isn't wide.
    fn push_short(&mut self, short: ShortStep) -> Result<(), NoMemory>
        requires { (n : ℕ) → IsWithin n short }
        ensures appends { OnOk result (self.new ≡ self.old ++ shown_step [] short ∷ []) }
        ensures back { OnErr result (self.new ≡ self.old) }
    {
        let Ok(()) = self.shorts.push(short) else {
            return Err(NoMemory);
        };
        Ok(())
    }

    // Appends one as a wide one.
    fn push_wide(&mut self, step: Step) -> Result<(), NoMemory>
        ensures appends { OnOk result (self.new ≡ self.old ++ plain_step step ∷ []) }
        ensures back { OnErr result (self.new ≡ self.old) }
    {
        let index = next_index(self.wides.as_slice())?;
        let before = self.shorts.len();
        let Ok(()) = self.shorts.push(ShortStep::Wide { index }) else {
            return Err(NoMemory);
        };
        let Ok(()) = self.wides.push(step) else {
            self.shorts.truncate(before);
            return Err(NoMemory);
        };
        Ok(())
    }

    /// Appends a step. Where memory is refused, the list is as before.
    pub fn push(&mut self, step: Step) -> Result<(), NoMemory>
        ensures appends { OnOk result (self.new ≡ self.old ++ plain_step step ∷ []) }
        ensures back { OnErr result (self.new ≡ self.old) }
    {
        match ShortStep::of(&step) {
            Some(short) => self.push_short(short),
            None => self.push_wide(step),
        }
    }
}
