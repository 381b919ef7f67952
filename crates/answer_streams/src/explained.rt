//! What explaining a document came to, and its text. Writing takes no memory.
ghost use Rattle.std.specs.Prelude.{◌≡◌};
ghost use Rattle.packing_terms.specs.Limits.{IsInstance};
ghost use Rattle.pack_streams.specs.Writing.{Continues, Writes};
ghost use Rattle.text_terms.specs.Spelling.{lines_text};
ghost use Rattle.answer_terms.specs.Explained.{step_lines, explained_text};
ghost use Rattle.line_proofs.specs.Plain.{plain_step};
ghost use Rattle.line_proofs.specs.StepTexts.{step_line};
ghost use Rattle.answer_streams.specs.Explanations.{explanation_text, explanation_status, IsWritable};

use crate::documents::{Written, write_instance_on};
use crate::streaming::Streamed;
use crate::verdict::Verdict;
use box_instances::Instance;
use line_proofs::{Step, StepList, write_step};
use pack_streams::{Sink, write_on};
use verdict_terms::Reason;

/// What explaining a document came to.
#[derive(Drop)]
pub enum Explanation {
    /// The first line that is refused, counted from 1, and why.
    Refused { line: u64, reason: Reason },
    /// The steps that explain the refutation of the instance, in order.
    Explained { instance: Instance, steps: StepList },
}

impl Explanation {
    /// The status that the job ends with.
    pub fn status(&self) -> u8
        ensures { result ≡ explanation_status self.now }
    {
        match self {
            Explanation::Refused { .. } => 1,
            Explanation::Explained { .. } => 0,
        }
    }
}

// Writes the line of a step.
fn write_step_on<K: Sink>(sink: &mut K, so_far: Written, step: &Step) -> Written
    ensures { Continues (K.written sink.old) (K.written sink.new) (K.faults sink.old)
        (K.faults sink.new)
        (step_line (plain_step step.now)) so_far result }
{
    match so_far {
        Ok(()) => write_step(step, sink),
        Err(fault) => Err(fault),
    }
}

// Writes the lines of all steps.
fn write_steps_on<K: Sink>(sink: &mut K, so_far: Written, steps: &StepList) -> Written
    ensures { Continues (K.written sink.old) (K.written sink.new) (K.faults sink.old)
        (K.faults sink.new)
        (lines_text (step_lines steps.now)) so_far result }
{
    let mut now = so_far;
    for k in 0..steps.len() {
        let held = steps.at(k);
        now = write_step_on(sink, now, held.step());
    }
    now
}

// Writes the document: `explained fit`, the lines of the instance, `result no`, a line for each
// step in order, and `end`.
fn write_explained<K: Sink>(sink: &mut K, instance: &Instance, steps: &StepList) -> Written
    requires { IsInstance instance.now }
    ensures { Writes (K.written sink.old) (K.written sink.new) (K.faults sink.old)
        (K.faults sink.new)
        (explained_text instance.now steps.now) result }
{
    let named = write_on(sink, Ok(()), b"explained fit\n");
    let shown = write_instance_on(sink, named, instance);
    let said = write_on(sink, shown, b"result no\n");
    let explained = write_steps_on(sink, said, steps);
    write_on(sink, explained, b"end\n")
}

impl Streamed for Explanation {
    ghost text = { λ e. explanation_text e };

    ghost IsReady = { λ e. IsWritable e };

    fn write_to<K: Sink>(&self, sink: &mut K) -> Written {
        match self {
            Explanation::Refused { line, reason } => {
                let verdict = Verdict::Refused {
                    line: *line,
                    reason: *reason,
                };
                verdict.write_to(sink)
            }
            Explanation::Explained { instance, steps } => write_explained(sink, instance, steps),
        }
    }
}
