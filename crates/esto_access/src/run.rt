//! The run that takes the accessible atom of least number each time.
ghost use Rattle.std.specs.Prelude.{Bool, List, IfOk, MatchOption};
ghost use Rattle.esto_views.specs.Fragments.{patterns_of};
ghost use Rattle.esto_views.specs.Plans.{plan_query};
ghost use Rattle.esto_access.specs.Runs.{IsFirstFollower, IsRun, NoneFollows};

use crate::atoms::can_follow;
use esto_bits::RowBits;
use esto_term::{OutOfMemory, Places, Values};
use esto_views::{FragmentDefs, Plan};
use std::alloc::Global;

/// The least number of the set that can come after the earlier ones.
fn next_number(
    set: &RowBits,
    plan: &Plan,
    fragments: &FragmentDefs,
    earlier: &[usize],
) -> Option<usize>
    ensures { MatchOption result
        (NoneFollows (patterns_of fragments.now) (plan_query plan.now).body set.now earlier.now)
        (IsFirstFollower (patterns_of fragments.now) (plan_query plan.now).body set.now
        earlier.now) }
{
    'numbers: for number in 0..plan.atoms.len() {
        if can_follow(set, plan, fragments, earlier, number) {
            return Some(number);
        }
    }
    None
}

/// Takes the accessible atom of least number of the set each time, until none can follow.
pub(crate) fn greedy_order(
    alloc: Global,
    set: &RowBits,
    plan: &Plan,
    fragments: &FragmentDefs,
) -> Result<Places, OutOfMemory>
    ensures run { IfOk result (λ order. (part : List Bool)
        × IsRun (patterns_of fragments.now) (plan_query plan.now).body set.now part order) }
    ensures stuck { IfOk result
        (NoneFollows (patterns_of fragments.now) (plan_query plan.now).body set.now) }
{
    let mut order = Values::new(alloc);
    'turns: while let Some(number) = next_number(set, plan, fragments, order.items()) {
        order.push(number)?;
    }
    Ok(order)
}
