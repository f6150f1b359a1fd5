//! Whether a node stands in another one.
ghost use Rattle.std.specs.Prelude.{◌≡◌, IfOk, IfErr};
ghost use Rattle.xq_edits.specs.Inside.{IsThere, is_inside};
ghost use Rattle.xq_nodes.specs.Answers.{IsFault};

use crate::nav_calls::{order_of, parent_of};
use std::cmp::Ordering;
use xml_model::{Id, Nav};
use xq_nodes::EvalEnd;

// Whether the node, which stands somewhere, stands in the other one: goes up from it as long as what
// is above it comes after the other one.
pub(crate) fn stands_in<N: Nav>(nav: &N, n: Id, outer: Id) -> Result<bool, EvalEnd<N::Fault>>
    ensures gives { IfOk result (λ is. N.honest nav.now → IsThere (N.forest nav.now) (N.place nav.now n) → is ≡ is_inside (N.place nav.now n) (N.place nav.now outer)) }
    ensures fault { IfErr result (IsFault (N.passes nav.now)) }
{
    let mut above = parent_of(nav, n)?;
    'up: while let Some(m) = above {
        match order_of(nav, outer, m)? {
            Ordering::Less => {
                above = parent_of(nav, m)?;
            }
            Ordering::Equal => return Ok(true),
            Ordering::Greater => return Ok(false),
        }
    }
    Ok(false)
}
