//! A round: what the rules and the links ask for among the entries that stood when it began.
ghost use Rattle.std.specs.Prelude.{◌≡◌, ◌∷◌, ◌++◌, [], List, Some, length, slice_get, map, take, Contains, IfOk, OnOk};
ghost use Rattle.esto_semantics.specs.Facts.{terms_of};
ghost use Rattle.esto_semantics.specs.Rules.{tuple, equality};
ghost use Rattle.esto_constraint.specs.Constraints.{rule_of, rules_of};
ghost use Rattle.esto_chase_laws.specs.Making.{frontier};
ghost use Rattle.esto_chase_laws.specs.WorldMatches.{taken};
ghost use Rattle.esto_chase_laws.specs.Worlds.{AreOfCount};
ghost use Rattle.esto_chase_laws.specs.WorldSteps.{AreAnswered, AreJoined};
ghost use Rattle.esto_chase_laws.specs.declared.entry.Entry.{Entry};
ghost use Rattle.esto_chase_laws.specs.declared.entry.Reason.TheVariants.{Step};
ghost use Rattle.esto_condchase.specs.News.{AreFoundAnew};
ghost use Rattle.esto_condchase.specs.Ways.{IsFound};
ghost use Rattle.esto_condchase.specs.Rounds.{IsNoted, AsksMore, IsAnswered, IsRuleAnswered};
ghost use Rattle.esto_known.specs.KeptWays.{AreCounted};
ghost use Rattle.esto_known.specs.declared.way.Way.{Way};

use crate::joining::join;
use crate::news::matches_since;
use esto_chase_laws::{Claim, Entry, Reason};
use esto_constraint::{Constraint, Egd, Tgd, frontier_of};
use esto_known::{Known, Way, is_covered, same, support};
use esto_prov::{both, made_fact, taken_term, taken_terms, terms_of};
use esto_term::{List, OutOfMemory, Terms};
use std::alloc::Global;
use std::slice;

/// Puts the entry of a claim that a rule asks for at a way.
fn put_asked(
    alloc: Global,
    number: usize,
    way: &Way,
    claim: Claim,
    more: &mut List<Entry>,
) -> Result<(), OutOfMemory>
    ensures { OnOk result (more.new ≡ more.old ++ (record {
      claim = claim;
      product = way.now.product;
      reason = Step number (way.now.facts ++ way.now.links);
    }) ∷ []) }
{
    let (product, places) = support(alloc, way)?;
    let entry = Entry {
        claim,
        product,
        reason: Reason::Step(number, places),
    };
    more.push(entry)
}

/// Asks for a claim that a rule asks for at a way, unless the entries cover it.
fn ask(
    alloc: Global,
    entries: &Known,
    number: usize,
    way: &Way,
    claim: Claim,
    more: &mut List<Entry>,
) -> Result<(), OutOfMemory>
    requires counts { AreOfCount (length way.now.product) entries.now }
    ensures { OnOk result
        (IsNoted entries.now more.old claim way.now.product
        (Step number (way.now.facts ++ way.now.links)) more.new) }
{
    if is_covered(entries, &claim, &way.product) {
        drop(claim);
        return Ok(());
    }
    put_asked(alloc, number, way, claim, more)
}

/// Asks for the facts of a tuple rule's head at a way, where the values of the terms that the head shares with the body
/// are given.
fn answer_head(
    alloc: Global,
    entries: &Known,
    rules: &[Constraint],
    number: usize,
    rule: &Tgd,
    from: &Terms,
    values: &Terms,
    way: &Way,
    more: &mut List<Entry>,
) -> Result<(), OutOfMemory>
    requires at { slice_get (rules_of rules.now) number ≡ Some (tuple rule.now.body rule.now.head) }
    requires found { IsFound entries.now rule.now.body way.now }
    requires from_is { from.now ≡ terms_of rule.now.body }
    requires values_are { values.now ≡ map (taken (terms_of rule.now.body) way.now.to)
        (frontier rule.now.body rule.now.head) }
    requires counts { AreOfCount (length way.now.product) entries.now }
    ensures grows { OnOk result
        (AsksMore (rules_of rules.now) (length way.now.product) entries.now more.old more.new) }
    ensures answered { OnOk result
        (IsAnswered (entries.now ++ more.new) number (tuple rule.now.body rule.now.head) way.now) }
{
    'head: for atom in rule.head.items() {
        let fact = made_fact(alloc, number, from.items(), way.to.items(), values, atom)?;
        ask(alloc, entries, number, way, Claim::Fact(fact), more)?;
    }
    Ok(())
}

/// Asks for what a tuple rule asks for at a way.
fn answer_tuple_at_way(
    alloc: Global,
    entries: &Known,
    rules: &[Constraint],
    number: usize,
    rule: &Tgd,
    from: &Terms,
    shared: &Terms,
    way: &Way,
    more: &mut List<Entry>,
) -> Result<(), OutOfMemory>
    requires at { slice_get (rules_of rules.now) number ≡ Some (tuple rule.now.body rule.now.head) }
    requires found { IsFound entries.now rule.now.body way.now }
    requires from_is { from.now ≡ terms_of rule.now.body }
    requires shared_is { shared.now ≡ frontier rule.now.body rule.now.head }
    requires counts { AreOfCount (length way.now.product) entries.now }
    ensures grows { OnOk result
        (AsksMore (rules_of rules.now) (length way.now.product) entries.now more.old more.new) }
    ensures answered { OnOk result
        (IsAnswered (entries.now ++ more.new) number (tuple rule.now.body rule.now.head) way.now) }
{
    let values = taken_terms(alloc, from.items(), way.to.items(), shared.items())?;
    answer_head(
        alloc, entries, rules, number, rule, from, &values, way, more,
    )
}

/// Asks for what an equality rule asks for at a way.
fn answer_equality(
    alloc: Global,
    entries: &Known,
    rules: &[Constraint],
    number: usize,
    rule: &Egd,
    from: &Terms,
    way: &Way,
    more: &mut List<Entry>,
) -> Result<(), OutOfMemory>
    requires at { slice_get (rules_of rules.now) number ≡ Some
        (equality rule.now.body rule.now.left rule.now.right) }
    requires found { IsFound entries.now rule.now.body way.now }
    requires from_is { from.now ≡ terms_of rule.now.body }
    requires counts { AreOfCount (length way.now.product) entries.now }
    ensures grows { OnOk result
        (AsksMore (rules_of rules.now) (length way.now.product) entries.now more.old more.new) }
    ensures answered { OnOk result
        (IsAnswered (entries.now ++ more.new) number
        (equality rule.now.body rule.now.left rule.now.right) way.now) }
{
    let left = taken_term(from.items(), way.to.items(), &rule.left);
    let right = taken_term(from.items(), way.to.items(), &rule.right);
    let claim = same(alloc, left, right)?;
    ask(alloc, entries, number, way, claim, more)
}

/// The direct matches of a tuple rule's body, but for those among the first few entries, as far as they tell what its
/// head meets.
fn tuple_ways(
    alloc: Global,
    entries: &Known,
    since: usize,
    rule: &Tgd,
    count: usize,
) -> Result<List<Way>, OutOfMemory>
    requires { AreOfCount count entries.now }
    ensures found { IfOk result
        (AreFoundAnew entries.now since rule.now.body (terms_of rule.now.head) []) }
    ensures counted { IfOk result (AreCounted count) }
{
    let asked = terms_of(alloc, rule.head.items())?;
    matches_since(
        alloc,
        entries,
        since,
        rule.body.items(),
        asked.items(),
        &[],
        count,
    )
}

/// Asks for what a tuple rule asks for at each of the ways.
fn answer_tuple_at_each_way(
    alloc: Global,
    entries: &Known,
    rules: &[Constraint],
    number: usize,
    rule: &Tgd,
    from: &Terms,
    shared: &Terms,
    ways: &[Way],
    count: usize,
    more: &mut List<Entry>,
) -> Result<(), OutOfMemory>
    requires at { slice_get (rules_of rules.now) number ≡ Some (tuple rule.now.body rule.now.head) }
    requires found { (way : Way) → Contains ways.now way → IsFound entries.now rule.now.body way }
    requires counted { AreCounted count ways.now }
    requires from_is { from.now ≡ terms_of rule.now.body }
    requires shared_is { shared.now ≡ frontier rule.now.body rule.now.head }
    requires counts { AreOfCount count entries.now }
    ensures grows { OnOk result
        (AsksMore (rules_of rules.now) count entries.now more.old more.new) }
    ensures answered { OnOk result ((way : Way) → Contains ways.now way
        → IsAnswered (entries.now ++ more.new) number (tuple rule.now.body rule.now.head) way) }
{
    'ways: for way in ways {
        answer_tuple_at_way(alloc, entries, rules, number, rule, from, shared, way, more)?;
    }
    Ok(())
}

/// Asks for what a tuple rule asks for at each of the ways, by the terms of its body and those that its head shares
/// with it.
fn find_terms_and_answer_tuple(
    alloc: Global,
    entries: &Known,
    rules: &[Constraint],
    number: usize,
    rule: &Tgd,
    ways: &[Way],
    count: usize,
    more: &mut List<Entry>,
) -> Result<(), OutOfMemory>
    requires at { slice_get (rules_of rules.now) number ≡ Some (tuple rule.now.body rule.now.head) }
    requires found { (way : Way) → Contains ways.now way → IsFound entries.now rule.now.body way }
    requires counted { AreCounted count ways.now }
    requires counts { AreOfCount count entries.now }
    ensures grows { OnOk result
        (AsksMore (rules_of rules.now) count entries.now more.old more.new) }
    ensures answered { OnOk result ((way : Way) → Contains ways.now way
        → IsAnswered (entries.now ++ more.new) number (tuple rule.now.body rule.now.head) way) }
{
    let from = terms_of(alloc, rule.body.items())?;
    let shared = frontier_of(alloc, rule.body.items(), rule.head.items())?;
    answer_tuple_at_each_way(
        alloc, entries, rules, number, rule, &from, &shared, ways, count, more,
    )
}

/// Asks for what a tuple rule asks for at all its direct matches, where what it asks for at those among the first few
/// entries is there.
fn answer_tuple_rule(
    alloc: Global,
    entries: &Known,
    since: usize,
    rules: &[Constraint],
    number: usize,
    rule: &Tgd,
    count: usize,
    more: &mut List<Entry>,
) -> Result<(), OutOfMemory>
    requires at { slice_get (rules_of rules.now) number ≡ Some (tuple rule.now.body rule.now.head) }
    requires before { IsRuleAnswered (take since entries.now) entries.now number
        (tuple rule.now.body rule.now.head) }
    requires counts { AreOfCount count entries.now }
    ensures grows { OnOk result
        (AsksMore (rules_of rules.now) count entries.now more.old more.new) }
    ensures answered { OnOk result
        (IsRuleAnswered entries.now (entries.now ++ more.new) number
        (tuple rule.now.body rule.now.head)) }
{
    let found = tuple_ways(alloc, entries, since, rule, count)?;
    find_terms_and_answer_tuple(
        alloc,
        entries,
        rules,
        number,
        rule,
        found.items(),
        count,
        more,
    )
}

/// The two sides of an equality rule.
fn sides_of(alloc: Global, rule: &Egd) -> Result<Terms, OutOfMemory>
    ensures { IfOk result (λ it. it ≡ rule.now.left ∷ rule.now.right ∷ []) }
{
    both(
        alloc,
        slice::from_ref(&rule.left),
        slice::from_ref(&rule.right),
    )
}

/// The direct matches of an equality rule's body, but for those among the first few entries, and for those by which its
/// two sides are one already, as far as they tell what the sides meet.
fn equality_ways(
    alloc: Global,
    entries: &Known,
    since: usize,
    rule: &Egd,
    count: usize,
) -> Result<List<Way>, OutOfMemory>
    requires { AreOfCount count entries.now }
    ensures found { IfOk result (AreFoundAnew entries.now since rule.now.body
        (rule.now.left ∷ rule.now.right ∷ []) (rule.now.left ∷ rule.now.right ∷ [])) }
    ensures counted { IfOk result (AreCounted count) }
{
    let sides = sides_of(alloc, rule)?;
    matches_since(
        alloc,
        entries,
        since,
        rule.body.items(),
        sides.items(),
        sides.items(),
        count,
    )
}

/// Asks for what an equality rule asks for at each of the ways.
fn answer_equality_ways(
    alloc: Global,
    entries: &Known,
    rules: &[Constraint],
    number: usize,
    rule: &Egd,
    ways: &[Way],
    count: usize,
    more: &mut List<Entry>,
) -> Result<(), OutOfMemory>
    requires at { slice_get (rules_of rules.now) number ≡ Some
        (equality rule.now.body rule.now.left rule.now.right) }
    requires found { (way : Way) → Contains ways.now way → IsFound entries.now rule.now.body way }
    requires counted { AreCounted count ways.now }
    requires counts { AreOfCount count entries.now }
    ensures grows { OnOk result
        (AsksMore (rules_of rules.now) count entries.now more.old more.new) }
    ensures answered { OnOk result ((way : Way) → Contains ways.now way
        → IsAnswered (entries.now ++ more.new) number
        (equality rule.now.body rule.now.left rule.now.right) way) }
{
    let from = terms_of(alloc, rule.body.items())?;
    'ways: for way in ways {
        answer_equality(alloc, entries, rules, number, rule, &from, way, more)?;
    }
    Ok(())
}

/// Asks for what an equality rule asks for at all its direct matches, where what it asks for at those among the first
/// few entries is there.
fn answer_equalities(
    alloc: Global,
    entries: &Known,
    since: usize,
    rules: &[Constraint],
    number: usize,
    rule: &Egd,
    count: usize,
    more: &mut List<Entry>,
) -> Result<(), OutOfMemory>
    requires at { slice_get (rules_of rules.now) number ≡ Some
        (equality rule.now.body rule.now.left rule.now.right) }
    requires before { IsRuleAnswered (take since entries.now) entries.now number
        (equality rule.now.body rule.now.left rule.now.right) }
    requires counts { AreOfCount count entries.now }
    ensures grows { OnOk result
        (AsksMore (rules_of rules.now) count entries.now more.old more.new) }
    ensures answered { OnOk result
        (IsRuleAnswered entries.now (entries.now ++ more.new) number
        (equality rule.now.body rule.now.left rule.now.right)) }
{
    let found = equality_ways(alloc, entries, since, rule, count)?;
    answer_equality_ways(
        alloc,
        entries,
        rules,
        number,
        rule,
        found.items(),
        count,
        more,
    )
}

/// Asks for what a rule asks for at all its direct matches, where what it asks for at those among the first few
/// entries is there.
fn answer_rule(
    alloc: Global,
    entries: &Known,
    since: usize,
    rules: &[Constraint],
    number: usize,
    rule: &Constraint,
    count: usize,
    more: &mut List<Entry>,
) -> Result<(), OutOfMemory>
    requires at { slice_get (rules_of rules.now) number ≡ Some (rule_of rule.now) }
    requires before { IsRuleAnswered (take since entries.now) entries.now number
        (rule_of rule.now) }
    requires counts { AreOfCount count entries.now }
    ensures grows { OnOk result
        (AsksMore (rules_of rules.now) count entries.now more.old more.new) }
    ensures answered { OnOk result
        (IsRuleAnswered entries.now (entries.now ++ more.new) number (rule_of rule.now)) }
{
    match rule {
        Constraint::Tuple(tuple) => answer_tuple_rule(
            alloc, entries, since, rules, number, tuple, count, more,
        ),
        Constraint::Equal(equal) => {
            answer_equalities(alloc, entries, since, rules, number, equal, count, more)
        }
        Constraint::Never(_) => Ok(()),
    }
}

/// Asks for what the rules ask for at all their direct matches, where what they ask for at those among the first few
/// entries is there.
fn answer_rules(
    alloc: Global,
    entries: &Known,
    since: usize,
    rules: &[Constraint],
    count: usize,
) -> Result<List<Entry>, OutOfMemory>
    requires before { AreAnswered (rules_of rules.now) (take since entries.now) entries.now }
    requires counts { AreOfCount count entries.now }
    ensures grows { IfOk result (λ more. AsksMore (rules_of rules.now) count entries.now [] more) }
    ensures answered { IfOk result
        (λ more. AreAnswered (rules_of rules.now) entries.now (entries.now ++ more)) }
{
    let mut more = List::new(alloc);
    'rules: for (number, rule) in rules.iter().enumerate() {
        answer_rule(alloc, entries, since, rules, number, rule, count, &mut more)?;
    }
    Ok(more)
}

/// What the rules and the links ask for among the entries and the entries do not cover yet: all of it follows from
/// them, and in each world what the entries ask for is covered by them and by this. What the rules and the links ask
/// for among the first few entries, those that stood when the last round began, is there already.
pub fn round(
    alloc: Global,
    entries: &Known,
    since: usize,
    rules: &[Constraint],
    count: usize,
) -> Result<List<Entry>, OutOfMemory>
    requires before { AreAnswered (rules_of rules.now) (take since entries.now) entries.now }
    requires joined_before { AreJoined (take since entries.now) entries.now }
    requires counts { AreOfCount count entries.now }
    ensures grows { IfOk result (λ more. AsksMore (rules_of rules.now) count entries.now [] more) }
    ensures answered { IfOk result
        (λ more. AreAnswered (rules_of rules.now) entries.now (entries.now ++ more)) }
    ensures joined { IfOk result (λ more. AreJoined entries.now (entries.now ++ more)) }
{
    let mut more = answer_rules(alloc, entries, since, rules, count)?;
    join(alloc, entries, since, count, &mut more).and(Ok(more))
}
