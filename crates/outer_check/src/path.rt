//! The splits on the path to the current node of an outer tree.
ghost use Rattle.std.specs.Prelude.{◌≡◌, ◌≤◌, ◌<◌, ◌&&◌, ◌||◌, ◌==◌, ◌+◌, ◌∷◌, ◌++◌, [], false, ℕ, length, slice_index_or, if◌then◌else◌, IfOk, MatchOption, vec_capacity};
ghost use Rattle.std.specs.List.{list_any};
ghost use Rattle.packing_terms.specs.Limits.{IsBoxCount, max_boxes};
ghost use Rattle.outer_check.specs.declared.path.Frame.{Frame as PlainFrame};
ghost use Rattle.outer_check.specs.Frames.{ArePath, first_split, is_decided, is_put, is_some_put, boxes_put, used_behind, next_frames, is_some_frame, IsNewest};

use box_instances::{MAX_BOXES, NoMemory};
use std::alloc::Global;
use std::marker::Model;

/// A split: its box by the number of the text, the child on the path, how many children it has, and
/// for bins how many are used at its node.
#[derive(Clone, Copy, Drop)]
pub struct Frame {
    pub box_no: u32,
    pub child: u32,
    pub children: u32,
    pub used: u32,
}

/// The path from the root to the current node. It is seen as its splits, the newest first; it has
/// room for a split by each box.
#[derive(Drop)]
pub struct Path {
    boxes: u32,
    frames: Vec<Frame>,
}

impl Model for Path {
    ghost use Rattle.std.specs.Prelude.{reverse, vec_capacity};
    ghost use Rattle.outer_check.specs.Frames.{PlainPath, IsKept};

    ghost Value = { PlainPath };

    ghost view = { λ p. record { boxes = p.boxes; frames = reverse p.frames.items } };

    ghost invariant = { λ p. IsKept (record { boxes = p.boxes; frames = reverse p.frames.items })
        (vec_capacity p.frames) };
}

// Whether one of the splits is by the box of this number of the text.
fn has_split(frames: &[Frame], box_no: u32) -> bool
    ensures { result ≡ list_any (λ (f : PlainFrame). f.box_no == box_no) frames.now }
{
    for frame in frames {
        if frame.box_no == box_no {
            return true;
        }
    }
    false
}

// Whether one of the splits puts the box into its child of this number.
fn has_put(frames: &[Frame], box_no: u32, child: u32) -> bool
    ensures { result ≡ list_any (λ (f : PlainFrame). (f.box_no == box_no) && (f.child == child))
        frames.now }
{
    for frame in frames {
        if (frame.box_no == box_no) & (frame.child == child) {
            return true;
        }
    }
    false
}

// Marks the box of this number of the text where the test holds, if there is one.
fn mark_where(marks: &mut [bool; MAX_BOXES], box_no: u32, test: bool)
    ensures { (v : ℕ) → v < max_boxes → slice_index_or marks.new v false
        ≡ slice_index_or marks.old v false || ((box_no == v + 1) && test) }
{
    let number = box_no as usize;
    if test & (1 <= number) & (number <= MAX_BOXES) {
        marks[number - 1] = true;
    }
}

// Which boxes, counted from 0, the splits put into their child of this number: in one pass over the
// splits. Asking them for each box was a third of the instructions of checking 20 boxes in bins.
fn boxes_in(frames: &[Frame], child: u32) -> [bool; MAX_BOXES]
    ensures { (v : ℕ) → v < max_boxes → slice_index_or result v false
        ≡ list_any (λ (f : PlainFrame). (f.box_no == v + 1) && (f.child == child)) frames.now }
{
    let mut put = [false; MAX_BOXES];
    for frame in frames {
        mark_where(&mut put, frame.box_no, frame.child == child);
    }
    put
}

// Adds the number where the test holds.
fn push_where(list: &mut Vec<u32>, number: u32, test: bool)
    requires { length list.old.items < vec_capacity list.old }
    ensures items { list.new.items ≡ list.old.items ++ (if test then number ∷ [] else []) }
    ensures room { vec_capacity list.new ≡ vec_capacity list.old }
{
    if test {
        list.push_reserved(number);
    }
}

// Whether the path takes the child of this number at one of the splits.
fn has_child(frames: &[Frame], child: u32) -> bool
    ensures { result ≡ list_any (λ (f : PlainFrame). f.child == child) frames.now }
{
    for frame in frames {
        if frame.child == child {
            return true;
        }
    }
    false
}

impl Path {
    /// The path of the root, with room for a split by each of `boxes` boxes.
    pub fn new(alloc: Global, boxes: u32) -> Result<Path, NoMemory>
        requires { IsBoxCount boxes }
        ensures { IfOk result (λ p. p ≡ record { boxes = boxes; frames = [] }) }
    {
        let Ok(frames) = Vec::with_capacity(alloc, boxes as usize) else {
            return Err(NoMemory);
        };
        Ok(Path { boxes, frames })
    }

    /// Whether a split is by the box of this number of the text.
    pub fn is_decided(&self, box_no: u32) -> bool
        ensures { result ≡ is_decided self.now.frames box_no }
    {
        has_split(self.frames.as_slice(), box_no)
    }

    /// Whether a split puts the box, counted from 0, into its child of this number.
    pub fn is_put(&self, child: u32, v: u32) -> bool
        requires { v < max_boxes }
        ensures { result ≡ is_put self.now.frames child v }
    {
        has_put(self.frames.as_slice(), v + 1, child)
    }

    /// Whether a split puts its box into its child of this number.
    pub fn is_some_put(&self, child: u32) -> bool
        ensures value { result ≡ is_some_put self.now.frames child }
        ensures path { ArePath self.now }
    {
        has_child(self.frames.as_slice(), child)
    }

    // Puts a split in front.
    fn push(&mut self, frame: Frame)
        requires { ArePath (record self.old { frames = frame ∷ self.old.frames }) }
        ensures { self.new ≡ record self.old { frames = frame ∷ self.old.frames } }
    {
        self.frames.push_reserved(frame);
    }

    /// How many boxes there are.
    pub fn boxes(&self) -> u32
        ensures value { result ≡ self.now.boxes }
        ensures path { ArePath self.now }
        ensures limits { IsBoxCount self.now.boxes }
    {
        self.boxes
    }

    // The newest split.
    fn newest(&self) -> Option<Frame>
        ensures path { ArePath self.now }
        ensures newest { MatchOption result (self.now.frames ≡ [])
            (λ frame. IsNewest self.now.frames frame) }
    {
        let count = self.frames.len();
        if count == 0 {
            return None;
        }
        Some(self.frames[count - 1])
    }

    // Takes the newest split off.
    fn take_newest(&mut self) -> Option<Frame>
        ensures path { ArePath self.old }
        ensures taken { MatchOption result (self.old.frames ≡ [] × self.new ≡ self.old)
            (λ frame. self.old ≡ record self.new { frames = frame ∷ self.new.frames }) }
    {
        self.frames.pop()
    }

    /// How many bins are used at the current node.
    pub fn used(&self) -> u32
        ensures { result ≡ used_behind self.now.frames }
    {
        match self.newest() {
            Some(frame) => frame.used.max(frame.child + 1),
            None => 0,
        }
    }

    /// Goes on to the first child of a split by a box that isn't decided.
    pub fn enter(&mut self, box_no: u32, children: u32, used: u32)
        requires from { 1 ≤ box_no }
        requires to { box_no ≤ self.old.boxes }
        requires new { is_decided self.old.frames box_no ≡ false }
        requires some { 1 ≤ children }
        ensures { self.new ≡ record self.old {
          frames = first_split box_no children used ∷ self.old.frames;
        } }
    {
        // For the proof alone: states the limits of the path.
        let _boxes = self.boxes();
        self.push(Frame {
            box_no,
            child: 0,
            children,
            used,
        });
    }

    /// Goes on to the next child of the newest split that has one, and answers whether there is
    /// one.
    pub fn leave(&mut self) -> bool
        ensures path { self.new ≡ record self.old { frames = next_frames self.old.frames } }
        ensures answer { result ≡ is_some_frame (next_frames self.old.frames) }
    {
        while let Some(frame) = self.take_newest() {
            let next = frame.child + 1;
            if next < frame.children {
                self.push(Frame {
                    child: next,
                    ..frame
                });
                return true;
            }
        }
        false
    }

    /// Puts the boxes that the splits put into their child of this number into the list, by rising
    /// number. The list has room for all boxes.
    pub fn gather(&self, child: u32, keep: &mut Vec<u32>)
        requires { self.now.boxes ≤ vec_capacity keep.old }
        ensures boxes { keep.new.items ≡ boxes_put self.now.boxes self.now.frames child }
        ensures room { vec_capacity keep.new ≡ vec_capacity keep.old }
    {
        keep.clear();
        let put = boxes_in(self.frames.as_slice(), child);
        for v in 0..self.boxes() {
            push_where(keep, v, put[v as usize]);
        }
    }
}
