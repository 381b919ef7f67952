//! The line of a step, in its one spelling.
ghost use Rattle.std.specs.Prelude.{◌≤◌, ℕ};
ghost use Rattle.verdict_terms.specs.StepLines.{HasStepLine, IsFedBack};
ghost use Rattle.pack_streams.specs.Writing.{Continues, Writes};
ghost use Rattle.line_proofs.specs.Plain.{plain_step};
ghost use Rattle.line_proofs.specs.StepTexts.{step_line};

use crate::Step;
use instance_text::write_numbers;
use pack_streams::{Sink, WriteFault, write_on};
use proof_tree::write_token_on;

// Each call below writes where no fault came before, and else does nothing.
type Written = Result<(), WriteFault>;

// Writes the line of a step.
fn write_line<K: Sink>(sink: &mut K, so_far: Written, step: &Step) -> Written
    ensures { Continues (K.written sink.old) (K.written sink.new) (K.faults sink.old)
        (K.faults sink.new)
        (step_line (plain_step step.now)) so_far result }
{
    match step {
        Step::Pair { dim, u, v } => {
            let named = write_on(sink, so_far, b"pair");
            let said = write_numbers(sink, named, &[*dim, *u, *v]);
            write_on(sink, said, b"\n")
        }
        Step::Apart { dim, u, v } => {
            let named = write_on(sink, so_far, b"apart");
            let said = write_numbers(sink, named, &[*dim, *u, *v]);
            write_on(sink, said, b"\n")
        }
        Step::Triple { dim, u, v, x } => {
            let named = write_on(sink, so_far, b"triple");
            let said = write_numbers(sink, named, &[*dim, *u, *v, *x]);
            write_on(sink, said, b"\n")
        }
        Step::Compose { dim, u, v, x } => {
            let named = write_on(sink, so_far, b"compose");
            let said = write_numbers(sink, named, &[*dim, *u, *v, *x]);
            write_on(sink, said, b"\n")
        }
        Step::Cycle { dim, a, b, c, d } => {
            let named = write_on(sink, so_far, b"cycle");
            let said = write_numbers(sink, named, &[*dim, *a, *b, *c, *d]);
            write_on(sink, said, b"\n")
        }
        Step::Order { dim, a, b, c, d } => {
            let named = write_on(sink, so_far, b"order");
            let said = write_numbers(sink, named, &[*dim, *a, *b, *c, *d]);
            write_on(sink, said, b"\n")
        }
        Step::Chain { dim, first, second } => {
            let named = write_on(sink, so_far, b"chain");
            let said = write_numbers(sink, named, &[*dim, *first, *second]);
            write_on(sink, said, b"\n")
        }
        Step::On { box_no } => {
            let named = write_on(sink, so_far, b"on");
            let said = write_numbers(sink, named, &[*box_no]);
            write_on(sink, said, b"\n")
        }
        Step::Clash { dim, u, v } => {
            let named = write_on(sink, so_far, b"x");
            let said = write_numbers(sink, named, &[*dim, *u, *v]);
            write_on(sink, said, b"\n")
        }
        Step::Plain(token) => write_token_on(sink, so_far, token),
    }
}

/// Writes the line of a step, and takes no memory. The bytes of that line, fed to a lexer from its
/// start, are read back as the step.
///
/// After a `WriteFault`, which comes only where the sink's faults rose, a part from the front of
/// the line was written.
pub fn write_step<K: Sink>(step: &Step, sink: &mut K) -> Result<(), WriteFault>
    ensures written { Writes (K.written sink.old) (K.written sink.new) (K.faults sink.old)
        (K.faults sink.new) (step_line (plain_step step.now)) result }
    ensures read_back { (dims : ℕ) → dims ≤ 4 → HasStepLine dims (plain_step step.now)
        → IsFedBack dims (step_line (plain_step step.now)) (plain_step step.now) }
{
    write_line(sink, Ok(()), step)
}
