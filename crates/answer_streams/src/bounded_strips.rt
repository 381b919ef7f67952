//! The documents `bounded strip`, in their one written spelling. Writing takes no memory.
ghost use Rattle.std.specs.Prelude.{◌≡◌, ◌<◌, ◌*◌, ◌++◌, ◌∷◌, [], codes, length};
ghost use Rattle.packing_terms.specs.Packing.{dims, box_count};
ghost use Rattle.packing_terms.specs.Limits.{IsInstance};
ghost use Rattle.pack_streams.specs.Writing.{Continues, Writes};
ghost use Rattle.text_terms.specs.Spelling.{lines_text};
ghost use Rattle.text_terms.specs.Claims.{result_words};
ghost use Rattle.verdict_terms.specs.FamilyLines.{family_token_text};
ghost use Rattle.bounded_tokens.specs.FamilyPlain.{plain_family_tokens};
ghost use Rattle.answer_terms.specs.HeightAnswers.{Heights, NoneFits as PlainNoneFits, strip_claim, strip_status, bounded_strip_text};
ghost use Rattle.bounded_answers.specs.Heights.{plain_levels, plain_proof, plain_strip};
ghost use Rattle.answer_streams.specs.BoundedStrips.{IsRising, IsReadyStrip};

use crate::documents::{Written, write_places};
use crate::results::{
    write_between_line, write_least_line, write_none_line, write_opening, write_proof,
};
use crate::streaming::Streamed;
use bounded_answers::{BoundedStrip, HeightLevels, HeightProof};
use bounded_tokens::{FamilyToken, write_family_token_on};
use box_instances::Instance;
use pack_streams::{Sink, write_on};

/// The status of an answer: 0 for the least height, 1 where a box is too wide, 3 for two heights
/// between which the least one lies.
pub fn bounded_strip_status(strip: &BoundedStrip) -> u8
    requires { IsRising strip.now }
    ensures { result ≡ strip_status (plain_strip strip.now) }
{
    match strip {
        BoundedStrip::Levels(levels) => levels_status(levels),
        BoundedStrip::NoneFits { .. } => 1,
    }
}

// The status of two heights.
fn levels_status(levels: &HeightLevels) -> u8
    requires { levels.now.refuted < levels.now.placed }
    ensures { result ≡ strip_status (Heights (plain_levels levels.now)) }
{
    if levels.are_closed() { 0 } else { 3 }
}

/// The document of an answer.
#[derive(Clone, Copy)]
pub struct BoundedStripDocument<'a> {
    pub instance: &'a Instance,
    pub strip: &'a BoundedStrip,
}

// Writes the lines of tokens with families.
fn write_family_tokens<K: Sink>(sink: &mut K, so_far: Written, tokens: &[FamilyToken]) -> Written
    ensures { Continues (K.written sink.old) (K.written sink.new) (K.faults sink.old)
        (K.faults sink.new)
        (family_token_text (plain_family_tokens tokens.now)) so_far result }
{
    let mut now = so_far;
    for k in 0..tokens.len() {
        now = write_family_token_on(sink, now, &tokens[k]);
    }
    now
}

// Writes the line `proof`, and the refutation.
fn write_height_proof<K: Sink>(sink: &mut K, so_far: Written, proof: &HeightProof) -> Written
    ensures { Continues (K.written sink.old) (K.written sink.new) (K.faults sink.old)
        (K.faults sink.new)
        (codes "proof\n" ++ family_token_text (plain_proof proof.now)) so_far result }
{
    match proof {
        HeightProof::Plain(tokens) => write_proof(sink, so_far, tokens),
        HeightProof::Families(tokens) => {
            let split = write_on(sink, so_far, b"proof\n");
            write_family_tokens(sink, split, tokens)
        }
    }
}

// Writes the result line.
fn write_result_line<K: Sink>(sink: &mut K, so_far: Written, levels: &HeightLevels) -> Written
    requires { levels.now.refuted < levels.now.placed }
    ensures { Continues (K.written sink.old) (K.written sink.new) (K.faults sink.old)
        (K.faults sink.new)
        (lines_text ((codes "result" ∷ result_words (strip_claim (Heights (plain_levels levels.now))))
        ∷ [])) so_far result }
{
    if levels.are_closed() {
        write_least_line(sink, so_far, levels.placed as u64)
    } else {
        write_between_line(sink, so_far, levels.refuted as u64, levels.placed as u64)
    }
}

// Writes the document of two heights.
fn write_heights<K: Sink>(sink: &mut K, instance: &Instance, levels: &HeightLevels) -> Written
    requires limits { IsInstance instance.now }
    requires rising { levels.now.refuted < levels.now.placed }
    requires placed { length levels.now.places.items ≡ box_count instance.now * dims instance.now }
    ensures { Writes (K.written sink.old) (K.written sink.new) (K.faults sink.old)
        (K.faults sink.new)
        (bounded_strip_text instance.now (Heights (plain_levels levels.now))) result }
{
    let begun = write_opening(sink, b"bounded strip\n", instance);
    let said = write_result_line(sink, begun, levels);
    let placed = write_places(sink, said, instance, &levels.places);
    let shown = write_height_proof(sink, placed, &levels.proof);
    write_on(sink, shown, b"end\n")
}

// Writes the document that says that no height holds this box.
fn write_none<K: Sink>(sink: &mut K, instance: &Instance, box_no: u32, dim: u32) -> Written
    requires limits { IsInstance instance.now }
    requires there { box_no < box_count instance.now }
    requires in_range { dim < dims instance.now }
    ensures { Writes (K.written sink.old) (K.written sink.new) (K.faults sink.old)
        (K.faults sink.new)
        (bounded_strip_text instance.now (PlainNoneFits box_no dim)) result }
{
    let begun = write_opening(sink, b"bounded strip\n", instance);
    let said = write_none_line(sink, begun, instance, box_no, dim);
    write_on(sink, said, b"end\n")
}

// Writes the document.
fn write_strip<K: Sink>(sink: &mut K, instance: &Instance, strip: &BoundedStrip) -> Written
    requires limits { IsInstance instance.now }
    requires ready { IsReadyStrip instance.now strip.now }
    ensures { Writes (K.written sink.old) (K.written sink.new) (K.faults sink.old)
        (K.faults sink.new)
        (bounded_strip_text instance.now (plain_strip strip.now)) result }
{
    match strip {
        BoundedStrip::Levels(levels) => write_heights(sink, instance, levels),
        BoundedStrip::NoneFits { box_no, dim } => write_none(sink, instance, *box_no, *dim),
    }
}

impl<'a> Streamed for BoundedStripDocument<'a> {
    ghost text = { λ d. bounded_strip_text d.instance.now (plain_strip d.strip.now) };

    ghost IsReady = { λ d. IsInstance d.instance.now × IsReadyStrip d.instance.now d.strip.now };

    fn write_to<K: Sink>(&self, sink: &mut K) -> Written {
        write_strip(sink, self.instance, self.strip)
    }
}
