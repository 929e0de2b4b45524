//! The list of the kept sets.
ghost use Rattle.std.specs.Prelude.{◌≡◌, ◌≢◌, ◌↔◌, ◌<◌, List, Bool, Some, length, slice_get, AllPairs, IsTrue, IfOk, Contains};
ghost use Rattle.esto_semantics.specs.Access.{IsExecutable, IsStatedOrder};
ghost use Rattle.esto_semantics.specs.Listed.{chosen, IsWeight};
ghost use Rattle.esto_term.specs.Sets.{AreInOrder};
ghost use Rattle.esto_views.specs.Fragments.{patterns_of, weights_of};
ghost use Rattle.esto_views.specs.Plans.{plan_query};
ghost use Rattle.esto_list.specs.Items.{HaveOrders, HaveSums, HaveWeights, IsPickOf, set_weight, sets_of};
ghost use Rattle.esto_list.specs.Text.{IsListText};

use crate::text::put_list;
use crate::weight::weight_of;
use esto_access::order_of;
use esto_bits::{Products, RowBits};
use esto_semantics::weights_exist;
use esto_term::{Bytes, List, OutOfMemory, Replicate};
use esto_views::{FragmentDefs, Order, Plan};
use std::alloc::Global;
use std::marker::Model;

/// A set of the plan's atoms that is listed, with its stated order and its weight.
#[derive(Drop)]
pub struct Listed {
    pub set: RowBits,
    pub order: Order,
    pub weight: u128,
}

/// The listed sets, which contracts see as the list of its items.
#[derive(Drop)]
pub struct Listing {
    items: List<Listed>,
}

impl Model for Listing {
    ghost use Rattle.std.specs.Prelude.{List};
    ghost use Rattle.esto_list.specs.declared.listing.Listed.{Listed};

    ghost Value = { List Listed };

    ghost view = { λ it. it.items };
}

/// The set with its order and its weight.
fn item_of(
    alloc: Global,
    set: &RowBits,
    plan: &Plan,
    fragments: &FragmentDefs,
) -> Result<Listed, OutOfMemory>
    requires { IsExecutable (patterns_of fragments.now) (plan_query plan.now).body set.now }
    ensures set { IfOk result (λ it. it.set ≡ set.now) }
    ensures order { IfOk result (λ it.
        IsStatedOrder (patterns_of fragments.now) (plan_query plan.now).body it.set it.order) }
    ensures sum { IfOk result (λ it.
        it.weight ≡ set_weight (weights_of fragments.now) (plan_query plan.now).body it.set) }
    ensures weight { AllPairs ◌≢◌ (plan_query plan.now).body → IfOk result (λ it.
        IsWeight (weights_of fragments.now) (chosen it.set (plan_query plan.now).body) it.weight) }
{
    weights_exist();
    let Some(order) = order_of(alloc, set, plan, fragments)? else {
        unreachable!()
    };
    let weight = weight_of(set, plan, fragments);
    let set = set.copy(alloc)?;
    Ok(Listed { set, order, weight })
}

/// The sets, each with its order and its weight.
fn items_of(
    alloc: Global,
    sets: &[RowBits],
    plan: &Plan,
    fragments: &FragmentDefs,
) -> Result<List<Listed>, OutOfMemory>
    requires { (set : List Bool) → Contains sets.now set
        → IsExecutable (patterns_of fragments.now) (plan_query plan.now).body set }
    ensures sets { IfOk result (λ items. sets_of items ≡ sets.now) }
    ensures orders { IfOk result (HaveOrders plan.now fragments.now) }
    ensures sums { IfOk result (HaveSums plan.now fragments.now) }
    ensures weights { AllPairs ◌≢◌ (plan_query plan.now).body
        → IfOk result (HaveWeights plan.now fragments.now) }
{
    let mut items = List::new(alloc);
    'sets: for set in sets {
        let item = item_of(alloc, set, plan, fragments)?;
        items.push(item)?;
    }
    Ok(items)
}

impl Listing {
    /// The sets by size, then by their rising lists of numbers, compared as lists. Each has its stated order, and weighs
    /// the sum of the weights of its atoms' fragments. Where no two of the plan's atoms are the same, as in every stated
    /// plan, that is the weight of its distinct atoms. Each set has an order.
    pub fn of(
        alloc: Global,
        sets: &Products,
        plan: &Plan,
        fragments: &FragmentDefs,
    ) -> Result<Listing, OutOfMemory>
        requires { (set : List Bool) → Contains sets.now.sets set
            → IsExecutable (patterns_of fragments.now) (plan_query plan.now).body set }
        ensures members { IfOk result (λ items.
            (set : List Bool) → Contains (sets_of items) set ↔ Contains sets.now.sets set) }
        ensures in_order { IfOk result (λ items. AreInOrder (sets_of items)) }
        ensures orders { IfOk result (HaveOrders plan.now fragments.now) }
        ensures sums { IfOk result (HaveSums plan.now fragments.now) }
        ensures weights { AllPairs ◌≢◌ (plan_query plan.now).body
            → IfOk result (HaveWeights plan.now fragments.now) }
    {
        let sorted = sets.sorted(alloc)?;
        let items = items_of(alloc, sorted.items(), plan, fragments)?;
        Ok(Listing { items })
    }

    /// How many sets are listed.
    pub fn len(&self) -> usize
        ensures { result ≡ length self.now }
    {
        self.items.len()
    }

    /// Whether no set is listed.
    pub fn is_empty(&self) -> bool
        ensures { IsTrue result ↔ (length self.now ≡ 0) }
    {
        self.items.is_empty()
    }

    /// The item at a place, counted from 0.
    pub fn item(&self, at: usize) -> &Listed
        requires { at < length self.now }
        ensures { slice_get self.now at ≡ Some result.now }
    {
        self.items.item(at)
    }

    /// The place, counted from 0, of the first item of least weight. `None` comes exactly where no set is listed.
    pub fn pick(&self) -> Option<usize>
        ensures { IsPickOf self.now result }
    {
        first_of_least_weight(self.items.items())
    }

    /// The text that `list` prints: the plan, the items and the pick.
    pub fn text(
        &self,
        alloc: Global,
        plan: &Plan,
        fragments: &FragmentDefs,
    ) -> Result<Bytes, OutOfMemory>
        ensures { IfOk result (IsListText fragments.now plan.now self.now) }
    {
        let mut text = Bytes::new(alloc);
        put_list(
            alloc,
            &mut text,
            plan,
            fragments,
            self.items.items(),
            self.pick(),
        )?;
        Ok(text)
    }
}

/// The place of the first of the items that weighs least; none where there is no item.
fn first_of_least_weight(items: &[Listed]) -> Option<usize>
    ensures { IsPickOf items.now result }
{
    if items.is_empty() {
        return None;
    }
    let mut pick: usize = 0;
    'items: for (place, item) in items.iter().enumerate() {
        if item.weight < items[pick].weight {
            pick = place;
        }
    }
    Some(pick)
}
