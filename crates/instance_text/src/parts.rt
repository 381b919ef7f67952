//! What one line adds to the parts of an instance, or the code of its fault.
ghost use Rattle.std.specs.Prelude.{◌≡◌, ◌≢◌, ◌<◌, ◌≤◌, ◌+◌, ◌-◌, ◌^◌, ◌⊎◌, ◌∷◌, [], ℕ, Bool, false, IsTrue, MatchBool, List, length, take, drop, min, map, replicate, slice_index_or};
ghost use Rattle.packing_terms.specs.Limits.{max_boxes, max_side};
ghost use Rattle.text_terms.specs.Texts.{ranged_number, numbers_of, kerf_limits, side_limits, value_of, times_of, has_times_alone, ending_of, format_line, container_line, kerf_line, box_line, is_box_length, add_line};
ghost use Rattle.text_terms.specs.Feeding.{ended_line};
ghost use Rattle.box_instances.specs.Plain.{plain_box};
ghost use Rattle.instance_text.specs.Plain.{AreCounted};
ghost use Rattle.instance_text.specs.Reading.{with_added, IsReadAs, parts_of, plain_ending, HasEnding};

use crate::codes;
use crate::lexer::LineLexer;
use crate::word::is_same;
use box_instances::{BoxItem, MAX_BOXES, MAX_KERF, MAX_SIDE, MAX_VALUE, Sides};
use std::alloc::Global;
use text_terms::read_number;

/// What a line without a fault adds. A container comes with kerfs of 0; a box comes with the number
/// of boxes that its line stands for.
#[derive(Drop)]
pub enum Added {
    Nothing,
    Format(u32),
    Container(Sides, Sides),
    Kerf(Sides),
    Items(BoxItem, u32),
}

// The value of a box, and the number of boxes that its line stands for.
#[derive(Clone, Copy)]
struct Ending {
    value: u64,
    times: u32,
}

// The number that a word is, within this range, both ends included.
fn number_within(word: &[u8], low: u32, high: u32) -> Result<u32, u8>
    ensures { result ≡ ranged_number low high word.now }
{
    match read_number(word) {
        None => Err(codes::NO_NUMBER),
        Some(number) => {
            if low as u128 <= number && number <= high as u128 {
                Ok(number as u32)
            } else {
                Err(codes::OUT_OF_RANGE)
            }
        }
    }
}

// `count` equal numbers.
fn repeated(alloc: Global, number: u32, count: u32) -> Sides
    requires { count ≤ 4 }
    ensures { result.items ≡ replicate count number }
{
    let mut numbers = Sides::new(alloc);
    for k in 0..count {
        numbers.push_reserved(number);
    }
    numbers
}

// The greatest kerfs beside the container's sides.
fn limits_of_kerfs(alloc: Global, container: &[u32]) -> Sides
    requires { length container.now ≤ 4 }
    ensures { result.items ≡ kerf_limits container.now }
{
    let mut limits = Sides::new(alloc);
    for i in 0..container.len() {
        limits.push_reserved(MAX_SIDE.saturating_sub(container[i]).min(MAX_KERF));
    }
    limits
}

// The greatest box sides under the kerfs.
fn limits_of_sides(alloc: Global, kerf: &[u32]) -> Sides
    requires { length kerf.now ≤ 4 }
    ensures { result.items ≡ side_limits kerf.now }
{
    let mut limits = Sides::new(alloc);
    for i in 0..kerf.len() {
        limits.push_reserved(MAX_SIDE.saturating_sub(kerf[i]));
    }
    limits
}

// The numbers that the words after the first are, each from the low number up to the limit beside
// it.
fn numbers_from(alloc: Global, line: &LineLexer, low: u32, limits: &[u32]) -> Result<Sides, u8>
    requires few { length limits.now ≤ 4 }
    requires within { 1 + length limits.now ≤ length line.now.held.words }
    ensures { IsReadAs (λ ns. ns.items) result
        (numbers_of low limits.now (drop 1 line.now.held.words)) }
{
    // For the proof alone: states the limits of the line's words.
    let _count = line.word_count();
    let mut numbers = Sides::new(alloc);
    for k in 0..limits.len() {
        match number_within(line.word(k as u32 + 1), low, limits[k]) {
            Ok(number) => numbers.push_reserved(number),
            Err(code) => return Err(code),
        }
    }
    Ok(numbers)
}

// The value that the words from this one on give, and 1 where there are none.
fn value_from(line: &LineLexer, from: u32) -> Result<u64, u8>
    requires within { from ≤ 6 }
    requires words { (length line.now.held.words ≡ from) ⊎ (from + 2 ≤ length line.now.held.words) }
    ensures { result ≡ value_of (drop from line.now.held.words) }
{
    if line.word_count() == from {
        return Ok(1);
    }
    if !is_same(line.word(from), b"value") {
        return Err(codes::UNKNOWN_WORD);
    }
    let value = number_within(line.word(from + 1), 0, MAX_VALUE)?;
    Ok(value as u64)
}

// How many boxes the words from index `from` on stand for, where there is room for `room` boxes
// more, and 1 where there are no such words.
fn times_from(line: &LineLexer, room: u32, from: u32) -> Result<u32, u8>
    requires within { from ≤ 8 }
    requires words { (length line.now.held.words ≤ from) ⊎ (from + 2 ≤ length line.now.held.words) }
    ensures { result ≡ times_of room (drop from line.now.held.words) }
{
    if line.word_count() <= from {
        return Ok(1);
    }
    if !is_same(line.word(from), b"times") {
        return Err(codes::UNKNOWN_WORD);
    }
    let times = number_within(line.word(from + 1), 1, MAX_BOXES as u32)?;
    if times > room {
        return Err(codes::TOO_MANY_BOXES);
    }
    Ok(times)
}

// Whether the words from this one on are `times N` alone, which format 2 allows.
fn has_times_alone(line: &LineLexer, format: u32, from: u32) -> bool
    requires { from ≤ 6 }
    ensures value { result ≡ has_times_alone format (drop from line.now.held.words) }
    ensures count { IsTrue result → length line.now.held.words ≡ from + 2 }
{
    if format != 2 {
        return false;
    }
    if line.word_count() != from + 2 {
        return false;
    }
    is_same(line.word(from), b"times")
}

// What the words after the sides give, from this one on.
fn ending_from(line: &LineLexer, format: u32, room: u32, from: u32) -> Result<Ending, u8>
    requires within { from ≤ 6 }
    requires words { HasEnding format from (length line.now.held.words) }
    ensures { IsReadAs plain_ending result (ending_of format room (drop from line.now.held.words)) }
{
    if has_times_alone(line, format, from) {
        let times = times_from(line, room, from)?;
        return Ok(Ending { value: 1, times });
    }
    match value_from(line, from) {
        Ok(value) => match times_from(line, room, from + 2) {
            Ok(times) => Ok(Ending { value, times }),
            Err(code) => Err(code),
        },
        Err(code) => Err(code),
    }
}

// What a `format` line adds.
fn format_added(format: u32, line: &LineLexer) -> Result<Added, u8>
    requires { 0 < length line.now.held.words }
    ensures { (container kerf : List ℕ) (has_kerf : Bool) (boxes : List BoxItem)
        → IsReadAs (with_added (parts_of format container has_kerf kerf boxes)) result
        (format_line (parts_of format container has_kerf kerf boxes) (drop 1 line.now.held.words)) }
{
    if format != 0 {
        return Err(codes::SECOND_LINE);
    }
    if line.word_count() != 2 {
        return Err(codes::WORD_COUNT);
    }
    let number = number_within(line.word(1), 1, 2)?;
    Ok(Added::Format(number))
}

// What a `container` line adds.
fn container_added(
    alloc: Global,
    format: u32,
    container: &[u32],
    line: &LineLexer,
) -> Result<Added, u8>
    requires { 0 < length line.now.held.words }
    ensures { (has_kerf : Bool) (kerf : List ℕ) (boxes : List BoxItem)
        → IsReadAs (with_added (parts_of format container.now has_kerf kerf boxes)) result
        (container_line (parts_of format container.now has_kerf kerf boxes)
        (drop 1 line.now.held.words)) }
{
    if format == 0 {
        return Err(codes::OUT_OF_ORDER);
    }
    if !container.is_empty() {
        return Err(codes::SECOND_LINE);
    }
    let count = line.word_count();
    if count < 3 || count > 5 {
        return Err(codes::WORD_COUNT);
    }
    let limits = repeated(alloc, MAX_SIDE, count - 1);
    match numbers_from(alloc, line, 1, limits.as_slice()) {
        Ok(sides) => Ok(Added::Container(sides, repeated(alloc, 0, count - 1))),
        Err(code) => Err(code),
    }
}

// What a `kerf` line adds.
fn kerf_added(
    alloc: Global,
    container: &[u32],
    has_kerf: bool,
    boxes: &[BoxItem],
    line: &LineLexer,
) -> Result<Added, u8>
    requires some { 0 < length line.now.held.words }
    requires few { length container.now ≤ 4 }
    ensures { (format : ℕ) (kerf : List ℕ)
        → IsReadAs (with_added (parts_of format container.now has_kerf kerf boxes.now)) result
        (kerf_line (parts_of format container.now has_kerf kerf boxes.now)
        (drop 1 line.now.held.words)) }
{
    if container.is_empty() || !boxes.is_empty() {
        return Err(codes::OUT_OF_ORDER);
    }
    if has_kerf {
        return Err(codes::SECOND_LINE);
    }
    if line.word_count() != container.len() as u32 + 1 {
        return Err(codes::WORD_COUNT);
    }
    let limits = limits_of_kerfs(alloc, container);
    match numbers_from(alloc, line, 0, limits.as_slice()) {
        Ok(kerf) => Ok(Added::Kerf(kerf)),
        Err(code) => Err(code),
    }
}

// Whether a `box` line may have `count` words, in `dims` dimensions.
fn may_have_words(format: u32, dims: u32, count: u32) -> bool
    requires few { dims ≤ 4 }
    requires some { 0 < count }
    ensures { MatchBool result (HasEnding format (dims + 1) count)
        (is_box_length format dims (count - 1) ≡ false) }
{
    if count == dims + 1 {
        return true;
    }
    if count == dims + 3 {
        return true;
    }
    if count == dims + 5 {
        return format == 2;
    }
    false
}

// What a `box` line adds.
fn box_added(
    alloc: Global,
    format: u32,
    container: &[u32],
    kerf: &[u32],
    boxes: &[BoxItem],
    line: &LineLexer,
) -> Result<Added, u8>
    requires some { 0 < length line.now.held.words }
    requires few { length container.now ≤ 4 }
    requires count { length kerf.now ≡ length container.now }
    ensures { (has_kerf : Bool)
        → IsReadAs (with_added (parts_of format container.now has_kerf kerf.now boxes.now)) result
        (box_line (parts_of format container.now has_kerf kerf.now boxes.now)
        (drop 1 line.now.held.words)) }
{
    if format == 0 || container.is_empty() {
        return Err(codes::OUT_OF_ORDER);
    }
    if boxes.len() >= MAX_BOXES {
        return Err(codes::TOO_MANY_BOXES);
    }
    let room = (MAX_BOXES - boxes.len()) as u32;
    let count = line.word_count();
    let dims = container.len() as u32;
    if !may_have_words(format, dims, count) {
        return Err(codes::WORD_COUNT);
    }
    let side_limits = limits_of_sides(alloc, kerf);
    match numbers_from(alloc, line, 1, side_limits.as_slice()) {
        Ok(sides) => match ending_from(line, format, room, dims + 1) {
            Ok(ending) => Ok(Added::Items(
                BoxItem {
                    sides,
                    value: ending.value,
                },
                ending.times,
            )),
            Err(code) => Err(code),
        },
        Err(code) => Err(code),
    }
}

/// What a line adds to these parts, or the code of its fault.
pub(crate) fn read_line(
    alloc: Global,
    format: u32,
    container: &[u32],
    has_kerf: bool,
    kerf: &[u32],
    boxes: &[BoxItem],
    line: &LineLexer,
) -> Result<Added, u8>
    requires few { length container.now ≤ 4 }
    requires count { length kerf.now ≡ length container.now }
    ensures { IsReadAs (with_added (parts_of format container.now has_kerf kerf.now boxes.now))
        result
        (add_line (parts_of format container.now has_kerf kerf.now boxes.now)
        (ended_line line.now.held)) }
{
    if line.bad_byte() {
        return Err(codes::BAD_BYTE);
    }
    if line.word_count() == 0 {
        return Ok(Added::Nothing);
    }
    let word = line.word(0);
    if is_same(word, b"format") {
        return format_added(format, line);
    }
    if is_same(word, b"container") {
        return container_added(alloc, format, container, line);
    }
    if is_same(word, b"box") {
        return box_added(alloc, format, container, kerf, boxes, line);
    }
    if format == 2 && is_same(word, b"kerf") {
        return kerf_added(alloc, container, has_kerf, boxes, line);
    }
    Err(codes::UNKNOWN_WORD)
}
