//! The weight of a set of a plan's atoms.
ghost use Rattle.std.specs.Prelude.{◌≡◌, slice_index_or};
ghost use Rattle.esto_views.specs.Fragments.{weights_of};
ghost use Rattle.esto_views.specs.Plans.{plan_query};
ghost use Rattle.esto_list.specs.Items.{set_weight};

use esto_bits::RowBits;
use esto_views::{FragmentDefs, Plan};

/// The weight of a fragment, and 0 where there is none.
fn fragment_weight(fragments: &FragmentDefs, fragment: usize) -> u64
    ensures { result ≡ slice_index_or (weights_of fragments.now) fragment 0 }
{
    if fragment >= fragments.len() {
        return 0;
    }
    fragments.item(fragment).weight
}

/// The sum, over the atoms of the set, of their fragments' weights.
pub(crate) fn weight_of(set: &RowBits, plan: &Plan, fragments: &FragmentDefs) -> u128
    ensures { result ≡ set_weight (weights_of fragments.now) (plan_query plan.now).body set.now }
{
    let mut weight: u128 = 0;
    'atoms: for (number, atom) in plan.atoms.items().iter().enumerate() {
        if number < set.count() && set.has(number) {
            weight += fragment_weight(fragments, atom.fragment) as u128;
        }
    }
    weight
}
