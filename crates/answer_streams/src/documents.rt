//! The documents that answer `fit` and `reduced`, in their one written spelling. Writing takes no
//! memory.
ghost use Rattle.std.specs.Prelude.{◌≡◌, ◌<◌, ◌*◌, ◌∷◌, [], map, length};
ghost use Rattle.std.specs.Fmt.{decimal};
ghost use Rattle.packing_terms.specs.Packing.{dims, box_count, place};
ghost use Rattle.packing_terms.specs.Limits.{IsInstance};
ghost use Rattle.pack_streams.specs.Writing.{Continues, Writes};
ghost use Rattle.text_terms.specs.Spelling.{instance_text, lines_text};
ghost use Rattle.packing_terms.specs.Sums.{below};
ghost use Rattle.text_terms.specs.declared.claim.Claim.TheVariants.{Fitting, NotFitting};
ghost use Rattle.instance_text.specs.Writing.{after_spaces};
ghost use Rattle.work_share.specs.Outcomes.{plain_outcome};
ghost use Rattle.answer_terms.specs.Answers.{place_words, place_lines};
ghost use Rattle.answer_terms.specs.Answers.Answer.{Undecided, Claimed};
ghost use Rattle.answer_terms.specs.Solved.{fit_answer};
ghost use Rattle.answer_streams.specs.Headed.{first_line, headed_text};
ghost use Rattle.answer_streams.specs.Placed.{IsPlaced};

use crate::tree_start::TreeStart;
use box_instances::Instance;
use instance_text::write_instance;
use pack_streams::{Sink, WriteFault, write_number, write_on};
use proof_tree::{CompactTokens, Outcome, write_tokens_on};

/// How writing went so far. Each call below writes where no fault came before, and else does
/// nothing.
pub type Written = Result<(), WriteFault>;

// Writes the coordinates of a box, each after a space.
fn write_coordinates<K: Sink>(
    sink: &mut K,
    so_far: Written,
    instance: &Instance,
    places: &[u32],
    box_no: u32,
) -> Written
    requires one_each { length places.now ≡ box_count instance.now * dims instance.now }
    requires there { box_no < box_count instance.now }
    ensures { Continues (K.written sink.old) (K.written sink.new) (K.faults sink.old)
        (K.faults sink.new)
        (after_spaces (map (λ i. decimal (place instance.now places.now box_no i))
        (below (dims instance.now)))) so_far result }
{
    let dims = instance.dims();
    let mut now = so_far;
    for dim in 0..dims {
        let named = write_on(sink, now, b" ");
        now = write_number(sink, named, places[(box_no * dims + dim) as usize] as u64);
    }
    now
}

// Writes the line of a box's place.
fn write_place<K: Sink>(
    sink: &mut K,
    so_far: Written,
    instance: &Instance,
    places: &[u32],
    box_no: u32,
) -> Written
    requires one_each { length places.now ≡ box_count instance.now * dims instance.now }
    requires there { box_no < box_count instance.now }
    ensures { Continues (K.written sink.old) (K.written sink.new) (K.faults sink.old)
        (K.faults sink.new)
        (lines_text (place_words instance.now places.now box_no ∷ [])) so_far result }
{
    let named = write_on(sink, so_far, b"place");
    let placed = write_coordinates(sink, named, instance, places, box_no);
    write_on(sink, placed, b"\n")
}

/// Writes the lines of all places.
pub(crate) fn write_places<K: Sink>(
    sink: &mut K,
    so_far: Written,
    instance: &Instance,
    places: &[u32],
) -> Written
    requires { length places.now ≡ box_count instance.now * dims instance.now }
    ensures { Continues (K.written sink.old) (K.written sink.new) (K.faults sink.old)
        (K.faults sink.new)
        (lines_text (place_lines instance.now places.now)) so_far result }
{
    let mut now = so_far;
    for box_no in 0..instance.len() {
        now = write_place(sink, now, instance, places, box_no);
    }
    now
}

/// Writes the lines of the instance.
pub(crate) fn write_instance_on<K: Sink>(
    sink: &mut K,
    so_far: Written,
    instance: &Instance,
) -> Written
    requires { IsInstance instance.now }
    ensures { Continues (K.written sink.old) (K.written sink.new) (K.faults sink.old)
        (K.faults sink.new)
        (instance_text instance.now) so_far result }
{
    match so_far {
        Ok(()) => write_instance(instance, sink),
        Err(fault) => Err(fault),
    }
}

// The first line of a document of `fit`.
fn first_line(start: TreeStart) -> &'static [u8]
    ensures { result.now ≡ first_line start }
{
    match start {
        TreeStart::Nothing => b"answer fit\n",
        TreeStart::Facts => b"reduced fit\n",
    }
}

// Writes the document that says yes, with the place of each box.
fn write_yes<K: Sink>(
    sink: &mut K,
    start: TreeStart,
    instance: &Instance,
    places: &[u32],
) -> Written
    requires limits { IsInstance instance.now }
    requires one_each { length places.now ≡ box_count instance.now * dims instance.now }
    ensures { Writes (K.written sink.old) (K.written sink.new) (K.faults sink.old)
        (K.faults sink.new)
        (headed_text start instance.now (Claimed Fitting places.now [])) result }
{
    let named = write_on(sink, Ok(()), first_line(start));
    let shown = write_instance_on(sink, named, instance);
    let said = write_on(sink, shown, b"result yes\n");
    let placed = write_places(sink, said, instance, places);
    write_on(sink, placed, b"end\n")
}

// Writes the document that says no, with a refutation.
fn write_no<K: Sink>(
    sink: &mut K,
    start: TreeStart,
    instance: &Instance,
    tokens: &CompactTokens,
) -> Written
    requires { IsInstance instance.now }
    ensures { Writes (K.written sink.old) (K.written sink.new) (K.faults sink.old)
        (K.faults sink.new)
        (headed_text start instance.now (Claimed NotFitting [] tokens.now)) result }
{
    let named = write_on(sink, Ok(()), first_line(start));
    let shown = write_instance_on(sink, named, instance);
    let said = write_on(sink, shown, b"result no\n");
    let refuted = write_tokens_on(sink, said, tokens);
    write_on(sink, refuted, b"end\n")
}

// Writes the document that says that the budget was spent.
fn write_undecided<K: Sink>(sink: &mut K, start: TreeStart, instance: &Instance) -> Written
    requires { IsInstance instance.now }
    ensures { Writes (K.written sink.old) (K.written sink.new) (K.faults sink.old)
        (K.faults sink.new)
        (headed_text start instance.now Undecided) result }
{
    let named = write_on(sink, Ok(()), first_line(start));
    let shown = write_instance_on(sink, named, instance);
    write_on(sink, shown, b"result undecided\nend\n")
}

/// Writes the document of an answer of `fit`, or of `reduced`: a yes with the place of each box, a
/// no with its refutation, or undecided.
pub(crate) fn write_fit<K: Sink>(
    sink: &mut K,
    start: TreeStart,
    instance: &Instance,
    outcome: &Outcome,
) -> Written
    requires limits { IsInstance instance.now }
    requires placed { IsPlaced instance.now (plain_outcome outcome.now) }
    ensures { Writes (K.written sink.old) (K.written sink.new) (K.faults sink.old)
        (K.faults sink.new)
        (headed_text start instance.now (fit_answer (plain_outcome outcome.now))) result }
{
    match outcome {
        Outcome::Yes { numbers, count: _ } => write_yes(sink, start, instance, numbers),
        Outcome::No { tokens, count: _ } => write_no(sink, start, instance, tokens),
        Outcome::Past => write_undecided(sink, start, instance),
    }
}
