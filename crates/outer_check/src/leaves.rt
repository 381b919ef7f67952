//! What a leaf that plain trees don't have makes of the parts of an outer refuter.
ghost use Rattle.std.specs.Prelude.{◌≡◌};
ghost use Rattle.packing_terms.specs.Packing.{box_count};
ghost use Rattle.packing_terms.specs.OuterRefutation.{no_choice};
ghost use Rattle.packing_terms.specs.OuterFeeding.{Outer};
ghost use Rattle.packing_terms.specs.OuterPaths.{choices_with};
ghost use Rattle.verdict_terms.specs.BoundedJudging.{bounded_refusal};
ghost use Rattle.bounded_tokens.specs.Plain.{plain_bounded};
ghost use Rattle.refutation_check.specs.Refuters.{PlainRefuter};
ghost use Rattle.outer_check.specs.declared.goal.Goal.TheVariants.{Value as PlainValue};
ghost use Rattle.outer_check.specs.Nodes.{node_below};
ghost use Rattle.outer_check.specs.Outers.{IsGoing, AreOf};
ghost use Rattle.outer_check.specs.Bounded.{IsFurther, IsLeafValue, IsLeafTaken};

use crate::exchanging::exchange_refusal;
use crate::goal::Goal;
use crate::path::Path;
use crate::point::Point;
use crate::pricing::price_refusal;
use crate::taking::leave;
use bounded_tokens::BoundedToken;
use box_instances::Instance;
use verdict_terms::RefuseCode;

// The value whose outer node the tree stands at, or why it takes no further leaf.
fn value_at(goal: Goal, point: Point) -> Result<u64, RefuseCode>
    ensures { IsLeafValue goal point result }
{
    match point {
        Point::AtEnd => Err(RefuseCode::After),
        Point::InSet => Err(RefuseCode::Kind),
        Point::AtNode => match goal {
            Goal::Bins(_) => Err(RefuseCode::Kind),
            Goal::Value(value) => Ok(value),
        },
    }
}

// The first test that a further leaf fails at the node for a value that the path leads to.
fn leaf_refusal(
    instance: &Instance,
    path: &Path,
    value: u64,
    token: &BoundedToken,
) -> Option<RefuseCode>
    requires boxes { path.now.boxes ≡ box_count instance.now }
    requires are { AreOf (PlainValue value) path.now.frames }
    requires further { IsFurther (plain_bounded token.now) }
    ensures { result ≡ bounded_refusal instance.now value
        (Outer (node_below choices_with no_choice path.now.frames)) (plain_bounded token.now) }
{
    match token {
        BoundedToken::Plain(_) => Some(RefuseCode::Kind),
        BoundedToken::PricedOut {
            value_weight,
            share_weight,
            tuple,
        } => price_refusal(
            instance,
            path,
            value,
            *value_weight,
            *share_weight,
            tuple.as_slice(),
        ),
        BoundedToken::Exchange { left_no, taken_no } => {
            exchange_refusal(instance, path, value, *left_no, *taken_no)
        }
    }
}

/// A further leaf, where nothing was refused: it closes its node, or is refused and leaves the tree
/// as it is.
pub(crate) fn take_leaf(
    instance: &Instance,
    goal: Goal,
    path: &mut Path,
    point: &mut Point,
    token: &BoundedToken,
) -> Result<(), RefuseCode>
    requires boxes { path.old.boxes ≡ box_count instance.now }
    requires are { AreOf goal path.old.frames }
    requires further { IsFurther (plain_bounded token.now) }
    ensures { (inner : PlainRefuter) → IsGoing instance.now goal path.old point.old inner
        → IsLeafTaken instance.now goal path.old point.old inner (plain_bounded token.now) path.new
        point.new result }
{
    let value = value_at(goal, *point)?;
    if let Some(code) = leaf_refusal(instance, path, value, token) {
        return Err(code);
    }
    leave(path, point);
    Ok(())
}
