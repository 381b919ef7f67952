//! What a token does at an outer node.
ghost use Rattle.std.specs.Prelude.{◌≡◌, ◌≤◌, ◌<◌, ◌+◌, if◌then◌else◌, Some, None};
ghost use Rattle.packing_terms.specs.Packing.{box_count, value};
ghost use Rattle.packing_terms.specs.Goals.{worth};
ghost use Rattle.packing_terms.specs.Limits.{max_boxes};
ghost use Rattle.packing_terms.specs.Tokens.PlainToken.{Assign as PlainAssign, Choose as PlainChoose, SetRefuted as PlainSetRefuted, ValueShort as PlainValueShort, GlobalScales as PlainGlobalScales};
ghost use Rattle.proof_tree.specs.Plain.{plain_token};
ghost use Rattle.verdict_terms.specs.Judging.{names_box};
ghost use Rattle.outer_check.specs.declared.goal.Goal.TheVariants.{Bins as PlainBins, Value as PlainValue};
ghost use Rattle.outer_check.specs.Frames.{boxes_put, open_boxes};
ghost use Rattle.outer_check.specs.Nodes.{bin_count};
ghost use Rattle.outer_check.specs.Outers.{AreOf};
ghost use Rattle.outer_check.specs.Steps.{IsTokenStep};

use crate::path::Path;
use box_instances::Instance;
use conservative_scales::ScaleFn;
use proof_tree::Token;
use refutation_check::judge_tuple;
use verdict_terms::RefuseCode;

/// What a token does: it is refused, closes the node, splits it, or begins the inner tree of the
/// boxes that the splits put into their child of this number.
#[derive(Clone, Copy)]
pub enum Step {
    Refuse(RefuseCode),
    Close,
    Enter {
        box_no: u32,
        children: u32,
        used: u32,
    },
    Begin(u32),
}

/// Whether the number of a text names a box.
pub(crate) fn names_box(instance: &Instance, box_no: u32) -> bool
    ensures { result ≡ names_box instance.now box_no }
{
    (1 <= box_no) & (box_no <= instance.len())
}

// A tuple of scale functions for `bins` containers.
fn scales_step(instance: &Instance, path: &Path, bins: u32, tuple: &[ScaleFn]) -> Step
    requires few { bins ≤ max_boxes }
    requires are { AreOf (PlainBins bins) path.now.frames }
    ensures { IsTokenStep instance.now (PlainBins bins) path.now.frames
        (PlainGlobalScales tuple.now) result }
{
    match judge_tuple(instance, tuple, bins) {
        Some(code) => Step::Refuse(code),
        None => Step::Close,
    }
}

// How many children a node has at which `used` bins are used.
fn bin_count(bins: u32, used: u32) -> u32
    ensures { result ≡ bin_count bins used }
{
    if used < bins { used + 1 } else { used }
}

// A box that has no bin yet goes into each used bin, and then into a new one.
fn assign_step(instance: &Instance, path: &Path, bins: u32, box_no: u32) -> Step
    requires boxes { path.now.boxes ≡ box_count instance.now }
    requires few { bins ≤ max_boxes }
    requires are { AreOf (PlainBins bins) path.now.frames }
    ensures { IsTokenStep instance.now (PlainBins bins) path.now.frames (PlainAssign box_no)
        result }
{
    // For the proof alone: states the limits of the path.
    let _boxes = path.boxes();
    if !names_box(instance, box_no) {
        return Step::Refuse(RefuseCode::Range);
    }
    if path.is_decided(box_no) {
        return Step::Refuse(RefuseCode::Choice);
    }
    let used = path.used();
    let children = bin_count(bins, used);
    if children == 0 {
        return Step::Close;
    }
    Step::Enter {
        box_no,
        children,
        used,
    }
}

// The boxes of a used bin.
fn bin_step(instance: &Instance, path: &Path, bins: u32, bin: u32) -> Step
    requires boxes { path.now.boxes ≡ box_count instance.now }
    requires are { AreOf (PlainBins bins) path.now.frames }
    ensures { IsTokenStep instance.now (PlainBins bins) path.now.frames (PlainSetRefuted (Some bin))
        result }
{
    // For the proof alone: states the limits of the path.
    let _boxes = path.boxes();
    if !((1 <= bin) & (bin <= path.used())) {
        return Step::Refuse(RefuseCode::Set);
    }
    Step::Begin(bin - 1)
}

/// What a token does at the node for bins that the path leads to.
pub(crate) fn step_for_bins(instance: &Instance, path: &Path, bins: u32, token: &Token) -> Step
    requires boxes { path.now.boxes ≡ box_count instance.now }
    requires few { bins ≤ max_boxes }
    requires are { AreOf (PlainBins bins) path.now.frames }
    ensures { IsTokenStep instance.now (PlainBins bins) path.now.frames (plain_token token.now)
        result }
{
    match token {
        Token::GlobalScales(tuple) => scales_step(instance, path, bins, tuple.as_slice()),
        Token::Assign { box_no } => assign_step(instance, path, bins, *box_no),
        Token::SetRefuted { bin: Some(bin) } => bin_step(instance, path, bins, *bin),
        _ => Step::Refuse(RefuseCode::Kind),
    }
}

/// The value of the boxes that are in.
pub(crate) fn taken_worth(instance: &Instance, path: &Path) -> u64
    ensures value { result ≡ worth instance.now
        (boxes_put (box_count instance.now) path.now.frames 0) }
    ensures limit { result ≤ 128000000000 }
{
    let mut total: u64 = 0;
    for v in 0..instance.len() {
        total += value_where(instance, v, path.is_put(0, v));
    }
    total
}

// The value of the boxes that are neither in nor out.
fn undecided_worth(instance: &Instance, path: &Path) -> u64
    ensures value { result ≡ worth instance.now
        (open_boxes (box_count instance.now) path.now.frames) }
    ensures limit { result ≤ 128000000000 }
{
    let mut total: u64 = 0;
    for v in 0..instance.len() {
        total += value_where(instance, v, !path.is_decided(v + 1));
    }
    total
}

// The value of the box where the test holds, else 0.
fn value_where(instance: &Instance, v: u32, test: bool) -> u64
    requires { v < box_count instance.now }
    ensures value { result ≡ (if test then value instance.now v else 0) }
    ensures limit { result ≤ 1000000000 }
    ensures boxes { box_count instance.now ≤ max_boxes }
{
    // For the proof alone: states the limits of the instance.
    let _count = instance.len();
    let value = instance.value(v);
    if test { value } else { 0 }
}

// What is in and what is undecided is worth too little.
fn short_step(instance: &Instance, path: &Path, value: u64) -> Step
    requires boxes { path.now.boxes ≡ box_count instance.now }
    requires are { AreOf (PlainValue value) path.now.frames }
    ensures { IsTokenStep instance.now (PlainValue value) path.now.frames PlainValueShort result }
{
    // For the proof alone: states the limits of the path.
    let _boxes = path.boxes();
    let most = taken_worth(instance, path) + undecided_worth(instance, path);
    if most >= value {
        return Step::Refuse(RefuseCode::Value);
    }
    Step::Close
}

// A box that is undecided is in, or out.
fn choose_step(instance: &Instance, path: &Path, value: u64, box_no: u32) -> Step
    requires boxes { path.now.boxes ≡ box_count instance.now }
    requires are { AreOf (PlainValue value) path.now.frames }
    ensures { IsTokenStep instance.now (PlainValue value) path.now.frames (PlainChoose box_no)
        result }
{
    // For the proof alone: states the limits of the path.
    let _boxes = path.boxes();
    if !names_box(instance, box_no) {
        return Step::Refuse(RefuseCode::Range);
    }
    if path.is_decided(box_no) {
        return Step::Refuse(RefuseCode::Choice);
    }
    Step::Enter {
        box_no,
        children: 2,
        used: 0,
    }
}

// The boxes that are in.
fn set_step(instance: &Instance, path: &Path, value: u64) -> Step
    requires boxes { path.now.boxes ≡ box_count instance.now }
    requires are { AreOf (PlainValue value) path.now.frames }
    ensures { IsTokenStep instance.now (PlainValue value) path.now.frames (PlainSetRefuted None)
        result }
{
    // For the proof alone: states the limits of the path.
    let _boxes = path.boxes();
    if !path.is_some_put(0) {
        return Step::Refuse(RefuseCode::Set);
    }
    Step::Begin(0)
}

/// What a token does at the node for a value that the path leads to.
pub(crate) fn step_for_value(instance: &Instance, path: &Path, value: u64, token: &Token) -> Step
    requires boxes { path.now.boxes ≡ box_count instance.now }
    requires are { AreOf (PlainValue value) path.now.frames }
    ensures { IsTokenStep instance.now (PlainValue value) path.now.frames (plain_token token.now)
        result }
{
    match token {
        Token::ValueShort => short_step(instance, path, value),
        Token::Choose { box_no } => choose_step(instance, path, value, *box_no),
        Token::SetRefuted { bin: None } => set_step(instance, path, value),
        _ => Step::Refuse(RefuseCode::Kind),
    }
}
