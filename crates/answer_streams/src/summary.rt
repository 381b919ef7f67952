//! The three lines that answer `make`. Writing takes no memory.
ghost use Rattle.std.specs.Prelude.{◌≡◌, ◌∷◌, ◌++◌, [], codes};
ghost use Rattle.std.specs.Fmt.{decimal};
ghost use Rattle.pack_streams.specs.Writing.{Continues, Writes};
ghost use Rattle.text_terms.specs.Spelling.{lines_text};
ghost use Rattle.work_share.specs.Outcomes.{plain_outcome};
ghost use Rattle.answer_terms.specs.Made.{made_words, fit_word, branching_words, made_text};

use crate::documents::Written;
use crate::streaming::Streamed;
use box_instances::Instance;
use itoa::Buffer;
use pack_streams::{Sink, write_number, write_on};
use proof_tree::Outcome;

/// What `make` found: the instance of a number, and what its tree gave under a budget.
#[derive(Drop)]
pub struct Made {
    pub number: u32,
    pub instance: Instance,
    pub budget: u64,
    pub outcome: Outcome,
}

// Writes the line of the number, its boxes and their volume.
fn write_made_line<K: Sink>(sink: &mut K, number: u32, instance: &Instance) -> Written
    ensures { Writes (K.written sink.old) (K.written sink.new) (K.faults sink.old)
        (K.faults sink.new)
        (lines_text (made_words number instance.now ∷ [])) result }
{
    let mut digits = Buffer::new();
    let volume = digits.format(instance.volume());
    let named = write_on(sink, Ok(()), b"made ");
    let numbered = write_number(sink, named, u64::from(number));
    let boxed = write_on(sink, numbered, b" boxes ");
    let counted = write_number(sink, boxed, u64::from(instance.len()));
    let filled = write_on(sink, counted, b" volume ");
    let measured = write_on(sink, filled, volume.as_bytes());
    write_on(sink, measured, b"\n")
}

// The line that says whether the instance fits.
fn fit_line(outcome: &Outcome) -> &'static [u8]
    ensures { result.now ≡ lines_text ((codes "fit" ∷ fit_word (plain_outcome outcome.now) ∷ [])
        ∷ []) }
{
    match outcome {
        Outcome::Yes {
            numbers: _,
            count: _,
        } => b"fit yes\n",
        Outcome::No {
            tokens: _,
            count: _,
        } => b"fit no\n",
        Outcome::Past => b"fit undecided\n",
    }
}

// Writes the line of a count of branchings.
fn write_count<K: Sink>(sink: &mut K, so_far: Written, said: &[u8], count: u64) -> Written
    ensures { Continues (K.written sink.old) (K.written sink.new) (K.faults sink.old)
        (K.faults sink.new)
        (said.now ++ (decimal count ++ codes "\n")) so_far result }
{
    let named = write_on(sink, so_far, said);
    let counted = write_number(sink, named, count);
    write_on(sink, counted, b"\n")
}

// Writes the line of the count of branchings, or that there are more than the budget.
fn write_branchings<K: Sink>(
    sink: &mut K,
    so_far: Written,
    budget: u64,
    outcome: &Outcome,
) -> Written
    ensures { Continues (K.written sink.old) (K.written sink.new) (K.faults sink.old)
        (K.faults sink.new)
        (lines_text ((codes "branchings" ∷ branching_words budget (plain_outcome outcome.now))
        ∷ [])) so_far result }
{
    match outcome {
        Outcome::Yes { numbers: _, count } => write_count(sink, so_far, b"branchings ", *count),
        Outcome::No { tokens: _, count } => write_count(sink, so_far, b"branchings ", *count),
        Outcome::Past => write_count(sink, so_far, b"branchings more than ", budget),
    }
}

impl Streamed for Made {
    ghost text = { λ m. made_text m.number m.instance m.budget (plain_outcome m.outcome) };

    ghost IsReady = { λ _. Unit {0} };

    fn write_to<K: Sink>(&self, sink: &mut K) -> Written {
        let named = write_made_line(sink, self.number, &self.instance);
        let said = write_on(sink, named, fit_line(&self.outcome));
        write_branchings(sink, said, self.budget, &self.outcome)
    }
}
