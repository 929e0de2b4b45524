//! Whether facts that rows of codes stand for and the rows of fragments agree.
ghost use Rattle.std.specs.Prelude.{◌≡◌, ◌↔◌, List, IsTrue, None, length, IfOk};
ghost use Rattle.esto_columns.specs.Interned.{AreCodedRows, Grows};
ghost use Rattle.esto_constraint.specs.Constraints.{rule_of, rules_of};
ghost use Rattle.esto_query.specs.Making.{query_of};
ghost use Rattle.esto_semantics.specs.Queries.{IsAnswer};
ghost use Rattle.esto_semantics.specs.declared.fact.Fact.{Fact};
ghost use Rattle.esto_steps.specs.Rows.{IsRowOf, held_by};
ghost use Rattle.esto_stores.specs.Rows.{Row};
ghost use Rattle.esto_term.specs.declared.term.Term.{Term};
ghost use Rattle.esto_views.specs.Fragments.{views_of};
ghost use Rattle.esto_data.specs.CodedParts.{Stays};
ghost use Rattle.esto_data.specs.Coding.{AreCodedLists, IsCoded, IsCodedOf};
ghost use Rattle.esto_data.specs.Disagreeing.{FindsDisagreement, FindsUnlike, FindsUnpassed, JudgesTried};
ghost use Rattle.esto_fill.specs.Databases.{database_of};
ghost use Rattle.esto_fill.specs.Differences.{Agree};
ghost use Rattle.esto_fill.specs.Texts.{AreExactly};
ghost use Rattle.esto_fill.specs.Trials.{IsEnoughFor};
ghost use Rattle.esto_fill.specs.declared.loaded.Loaded.{Loaded};

use crate::coded_answering::rows_of;
use crate::coded_data::CodedData;
use esto_coded::Verdict;
use esto_columns::Rows;
use esto_constraint::{Constraint, Rules, rules_are_sound};
use esto_fill::{facts_stand_as_databases, is_law, loaded_facts_are_flat};
use esto_mapping::Catalogue;
use esto_query::{Query, queries_are_sound};
use esto_rows::hold_same;
use esto_semantics::{Facts, databases_stand_for_facts};
use esto_term::{List, OutOfMemory};
use esto_views::FragmentDef;
use std::alloc::Global;

/// The rows of fragments as rows of codes, a list for each, in order.
pub type CodedRowsList = List<Rows>;

/// Where facts and the rows of fragments do not agree.
#[derive(Drop)]
pub enum Disagreement {
    /// The rule of this number, counted from 0, is the first that is neither one of the laws nor met. With it may come
    /// a part of the facts that has those of its active matches.
    Rule(usize, Option<Facts>),
    /// Each rule is one of the laws or met, and the fragment of this number, counted from 0, is the first that has
    /// other rows than its view.
    Rows(usize),
}

// The verdict on the rule, which counts as met where it is one of the laws.
fn judge_tried(
    alloc: Global,
    rule: &Constraint,
    laws: &[Constraint],
    coded: &mut CodedData,
) -> Result<Verdict, OutOfMemory>
    ensures judged { IfOk result (λ it. (loaded : Loaded) → IsCodedOf loaded coded.old
        → JudgesTried (rules_of laws.now) loaded.facts (rule_of rule.now) it) }
    ensures stays { Stays coded.old coded.new }
{
    if is_law(rule, laws) {
        return Ok(Verdict::Met);
    }
    coded.facts.judge(alloc, rule)
}

// The first of the rules that is neither one of the laws nor met.
fn first_unpassed(
    alloc: Global,
    rules: &[Constraint],
    laws: &[Constraint],
    coded: &mut CodedData,
) -> Result<Option<Disagreement>, OutOfMemory>
    ensures found { IfOk result (λ it. (loaded : Loaded) → IsCodedOf loaded coded.old
        → FindsUnpassed (rules_of laws.now) (rules_of rules.now) loaded.facts it) }
    ensures stays { Stays coded.old coded.new }
{
    'rules: for (number, rule) in rules.iter().enumerate() {
        match judge_tried(alloc, rule, laws, coded)? {
            Verdict::Met => {}
            Verdict::Broken(part) => return Ok(Some(Disagreement::Rule(number, part))),
        }
    }
    Ok(None)
}

// Whether the rows are, as a set, those of the view. Indexes are made before for the joins of its body.
fn holds_view(
    alloc: Global,
    view: &Query,
    rows: &Rows,
    coded: &mut CodedData,
) -> Result<bool, OutOfMemory>
    ensures holds { IfOk result (λ it. (loaded : Loaded) → IsCodedOf loaded coded.old
        → (list : List Row) → AreCodedRows coded.old.facts.texts rows.now.rows list
        → IsTrue it
        ↔ AreExactly (IsAnswer (query_of view.now) (database_of loaded.facts)) list) }
    ensures stays { Stays coded.old coded.new }
{
    databases_stand_for_facts();
    facts_stand_as_databases();
    loaded_facts_are_flat();
    queries_are_sound();
    coded.facts.index_joins(alloc, view.body.items())?;
    let own = rows_of(alloc, view, coded)?;
    hold_same(alloc, &own, rows)
}

// The first of the fragments that has other rows than its view.
fn first_unlike(
    alloc: Global,
    fragments: &[FragmentDef],
    rows: &CodedRowsList,
    coded: &mut CodedData,
) -> Result<Option<Disagreement>, OutOfMemory>
    requires { length rows.now ≡ length fragments.now }
    ensures found { IfOk result (λ it. (loaded : Loaded) → IsCodedOf loaded coded.old
        → (lists : List (List Row)) → AreCodedLists coded.old.facts.texts rows.now lists
        → FindsUnlike (views_of fragments.now) loaded.facts lists it) }
    ensures stays { Stays coded.old coded.new }
{
    'fragments: for (number, fragment) in fragments.iter().enumerate() {
        if !holds_view(alloc, &fragment.view, rows.item(number), coded)? {
            return Ok(Some(Disagreement::Rows(number)));
        }
    }
    Ok(None)
}

/// Where the facts that the rows of codes stand for and the rows of the fragments do not agree: the first rule of the
/// catalogue that is none of the laws and that the facts do not meet, with the part of them that comes with the verdict
/// on it; or else the first fragment that has other rows than its view over them. None comes exactly where all agree.
/// The laws are not tried. So where facts meet the laws, and the rows of codes stand for enough of them, they agree
/// with the rows of the fragments.
pub fn first_disagreement(
    alloc: Global,
    catalogue: &Catalogue,
    laws: &Rules,
    coded: &mut CodedData,
    rows: &CodedRowsList,
) -> Result<Option<Disagreement>, OutOfMemory>
    requires many { length rows.now ≡ length catalogue.now.fragments }
    requires coded { IsCoded coded.old }
    ensures found { IfOk result (λ it. (loaded : Loaded) → IsCodedOf loaded coded.old
        → (lists : List (List Row)) → AreCodedLists coded.old.facts.texts rows.now lists
        → FindsDisagreement (rules_of laws.now) (rules_of catalogue.now.rules)
        (views_of catalogue.now.fragments) loaded.facts lists it) }
    ensures agree { IfOk result (λ it. (it ≡ None) → (loaded : Loaded) → IsCodedOf loaded coded.old
        → (facts : List (Fact Term))
        → IsEnoughFor catalogue.now (rules_of laws.now) facts loaded.facts
        → (lists : List (List Row)) → AreCodedLists coded.old.facts.texts rows.now lists
        → Agree (rules_of catalogue.now.rules) (views_of catalogue.now.fragments)
        (database_of facts) (IsRowOf (held_by lists))) }
    ensures kept { (loaded : Loaded) → IsCodedOf loaded coded.old → IsCodedOf loaded coded.new }
    ensures grown { Grows coded.old.facts.texts coded.new.facts.texts }
{
    databases_stand_for_facts();
    rules_are_sound();
    match first_unpassed(alloc, catalogue.rules.items(), laws.items(), coded)? {
        Some(found) => Ok(Some(found)),
        None => first_unlike(alloc, catalogue.fragments.items(), rows, coded),
    }
}
