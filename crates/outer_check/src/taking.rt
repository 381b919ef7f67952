//! What a token makes of the parts of an outer refuter.
ghost use Rattle.std.specs.Prelude.{◌≡◌, ◌≤◌, length, [], vec_capacity};
ghost use Rattle.packing_terms.specs.Packing.{PlainInstance, box_count};
ghost use Rattle.verdict_terms.specs.Checking.{starting};
ghost use Rattle.proof_tree.specs.Plain.{plain_token};
ghost use Rattle.outer_check.specs.declared.goal.Goal.{Goal as PlainGoal};
ghost use Rattle.outer_check.specs.declared.point.Point.TheVariants.{AtNode, InSet};
ghost use Rattle.outer_check.specs.Frames.{next_frames, boxes_put};
ghost use Rattle.outer_check.specs.Outers.{CanBeRefuted, IsGoing, AreOf};
ghost use Rattle.outer_check.specs.Steps.{IsTokenStep, point_behind};
ghost use Rattle.outer_check.specs.Taking.{IsTaken};

use crate::goal::Goal;
use crate::path::Path;
use crate::point::Point;
use crate::step::{Step, step_for_bins, step_for_value};
use box_instances::Instance;
use proof_tree::Token;
use refutation_check::Refuter;
use verdict_terms::{FeedVerdict, RefuseCode};

/// The current node is closed.
pub(crate) fn leave(path: &mut Path, point: &mut Point)
    ensures path { path.new ≡ record path.old { frames = next_frames path.old.frames } }
    ensures point { point.new ≡ point_behind (next_frames path.old.frames) }
{
    *point = if path.leave() {
        Point::AtNode
    } else {
        Point::AtEnd
    };
}

// What a token does at the outer node that the path leads to.
fn step_of(instance: &Instance, goal: Goal, path: &Path, token: &Token) -> Step
    requires boxes { path.now.boxes ≡ box_count instance.now }
    requires can { CanBeRefuted instance.now goal }
    requires are { AreOf goal path.now.frames }
    ensures { IsTokenStep instance.now goal path.now.frames (plain_token token.now) result }
{
    match goal {
        Goal::Bins(bins) => step_for_bins(instance, path, bins, token),
        Goal::Value(value) => step_for_value(instance, path, value, token),
    }
}

// A token in the inner tree of a set.
fn take_inner(
    path: &mut Path,
    point: &mut Point,
    inner: &mut Refuter<'_>,
    token: &Token,
) -> Result<(), RefuseCode>
    requires { point.old ≡ InSet }
    ensures { (instance : PlainInstance) (goal : PlainGoal)
        → IsGoing instance goal path.old point.old inner.old
        → IsTaken instance goal path.old point.old inner.old (plain_token token.now) path.new
        point.new inner.new result }
{
    match inner.feed(token) {
        FeedVerdict::More => Ok(()),
        FeedVerdict::Done => {
            leave(path, point);
            Ok(())
        }
        FeedVerdict::Refused { code } => Err(code),
    }
}

// The inner tree of the boxes that the splits put into their child of this number begins.
fn begin(path: &Path, point: &mut Point, inner: &mut Refuter<'_>, keep: &mut Vec<u32>, child: u32)
    requires boxes { path.now.boxes ≡ box_count inner.old.instance }
    requires room { path.now.boxes ≤ vec_capacity keep.old }
    requires some { 1 ≤ length (boxes_put path.now.boxes path.now.frames child) }
    ensures point { point.new ≡ InSet }
    ensures inner { inner.new ≡ record inner.old {
      keep = boxes_put path.now.boxes path.now.frames child;
      checked = starting [];
    } }
    ensures room { vec_capacity keep.new ≡ vec_capacity keep.old }
{
    path.gather(child, keep);
    inner.restart(keep.as_slice());
    *point = Point::InSet;
}

// A token at an outer node.
fn take_outer(
    instance: &Instance,
    goal: Goal,
    path: &mut Path,
    point: &mut Point,
    inner: &mut Refuter<'_>,
    keep: &mut Vec<u32>,
    token: &Token,
) -> Result<(), RefuseCode>
    requires can { CanBeRefuted instance.now goal }
    requires going { IsGoing instance.now goal path.old point.old inner.old }
    requires there { point.old ≡ AtNode }
    requires room { path.old.boxes ≤ vec_capacity keep.old }
    ensures taken { IsTaken instance.now goal path.old point.old inner.old (plain_token token.now)
        path.new point.new inner.new result }
    ensures room { vec_capacity keep.new ≡ vec_capacity keep.old }
{
    match step_of(instance, goal, path, token) {
        Step::Refuse(code) => Err(code),
        Step::Close => {
            leave(path, point);
            Ok(())
        }
        Step::Enter {
            box_no,
            children,
            used,
        } => {
            path.enter(box_no, children, used);
            Ok(())
        }
        Step::Begin(child) => {
            begin(path, point, inner, keep, child);
            Ok(())
        }
    }
}

/// A token, where nothing was refused: it is refused and leaves the tree, or the tree is that
/// behind it.
pub(crate) fn take(
    instance: &Instance,
    goal: Goal,
    path: &mut Path,
    point: &mut Point,
    inner: &mut Refuter<'_>,
    keep: &mut Vec<u32>,
    token: &Token,
) -> Result<(), RefuseCode>
    requires can { CanBeRefuted instance.now goal }
    requires going { IsGoing instance.now goal path.old point.old inner.old }
    requires room { path.old.boxes ≤ vec_capacity keep.old }
    ensures taken { IsTaken instance.now goal path.old point.old inner.old (plain_token token.now)
        path.new point.new inner.new result }
    ensures room { vec_capacity keep.new ≡ vec_capacity keep.old }
{
    match *point {
        Point::AtEnd => Err(RefuseCode::After),
        Point::InSet => take_inner(path, point, inner, token),
        Point::AtNode => take_outer(instance, goal, path, point, inner, keep, token),
    }
}
