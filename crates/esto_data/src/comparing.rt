//! Whether the facts and the rows of all fragments agree, and the first difference.
ghost use Rattle.std.specs.Prelude.{◌<◌, ℕ, List, Option, length};
ghost use Rattle.esto_constraint.specs.Constraints.{rules_of};
ghost use Rattle.esto_data.specs.Datasets.{HoldsLeft};
ghost use Rattle.esto_data.specs.Disagreeing.{IsFirstUnlike, IsFirstUnpassed};
ghost use Rattle.esto_fill.specs.Databases.{database_of};
ghost use Rattle.esto_fill.specs.Judging.{ArePassed};
ghost use Rattle.esto_fill.specs.Texts.{AreTextViews};
ghost use Rattle.esto_fill.specs.Trials.{IsEnoughFor, IsTrialOf};
ghost use Rattle.esto_semantics.specs.declared.fact.Fact.{Fact};
ghost use Rattle.esto_term.specs.declared.term.Term.{Term};
ghost use Rattle.esto_views.specs.Fragments.{views_of};
ghost use Rattle.esto_status.specs.Answers.{Answers};
ghost use Rattle.esto_data.specs.Audit.{AreFactsToAudit, HoldContents, HoldsAudit, compares};

use crate::coded_audit::{CodedRowsList, Disagreement, first_disagreement};
use crate::coded_data::CodedData;
use crate::coded_fragment::fragment_difference;
use crate::coded_rule::rule_difference;
use crate::kept::load_again;
use esto_constraint::rules_are_sound;
use esto_fill::{LoadList, Trial, audits_are_over_files, difference_in, outcomes_are_one};
use esto_mapping::Catalogue;
use esto_semantics::{Facts, databases_stand_for_facts};
use esto_status::Status;
use std::alloc::Global;

// Loads the files again, for the status of the first difference, where the rule of the number is the first that is
// neither one of the laws nor met. It is looked for in all that is loaded; no other rule is judged, and no fragment.
fn rule_anew(
    alloc: Global,
    catalogue: &Catalogue,
    trial: &Trial,
    files: &LoadList,
    number: usize,
) -> Result<(), Status>
    requires trial { IsTrialOf catalogue.now trial.now }
    requires facts { (facts : List (Fact Term)) × AreFactsToAudit catalogue.now files.now facts }
    requires there { number < length catalogue.now.rules }
    ensures { (facts some : List (Fact Term)) (given : Option (List (Fact Term)))
        → AreFactsToAudit catalogue.now files.now facts
        → IsEnoughFor catalogue.now (rules_of trial.now.laws) facts some
        → IsFirstUnpassed (rules_of trial.now.laws) (rules_of catalogue.now.rules)
        some number given
        → (contents : ℕ → List ℕ) → Answers (compares catalogue.now facts contents) ⊥ result }
{
    outcomes_are_one();
    let loaded = load_again(alloc, catalogue, &trial.wanted, files)?;
    match difference_in(alloc, catalogue, number, &loaded.facts)? {
        Some(difference) => Err(Status::Differs(difference)),
        None => Ok(()),
    }
}

// The status of the first difference, where the rule of the number is the first that is neither one of the laws nor
// met. It is looked for in the part of the facts that came with it, if one came and there is memory for it.
fn compare_by_rule(
    alloc: Global,
    catalogue: &Catalogue,
    trial: &Trial,
    files: &LoadList,
    number: usize,
    part: Option<Facts>,
) -> Result<(), Status>
    requires trial { IsTrialOf catalogue.now trial.now }
    requires facts { (facts : List (Fact Term)) × AreFactsToAudit catalogue.now files.now facts }
    requires there { number < length catalogue.now.rules }
    ensures { (facts some : List (Fact Term))
        → AreFactsToAudit catalogue.now files.now facts
        → IsEnoughFor catalogue.now (rules_of trial.now.laws) facts some
        → IsFirstUnpassed (rules_of trial.now.laws) (rules_of catalogue.now.rules)
        some number part
        → (contents : ℕ → List ℕ) → Answers (compares catalogue.now facts contents) ⊥ result }
{
    if let Some(difference) = rule_difference(alloc, catalogue, number, part) {
        return Err(Status::Differs(difference));
    }
    rule_anew(alloc, catalogue, trial, files, number)
}

// The status of the first difference, where each rule is one of the laws or met, and the fragment of the number is the
// first that has other rows than its view. It is told from the rows of both.
fn compare_by_fragment(
    alloc: Global,
    catalogue: &Catalogue,
    trial: &Trial,
    number: usize,
    coded: &mut CodedData,
    rows: &CodedRowsList,
) -> Result<(), Status>
    requires trial { IsTrialOf catalogue.now trial.now }
    requires facts { (facts : List (Fact Term))
        × HoldsLeft catalogue.now.datasets trial.now.wanted facts coded.old
        × AreTextViews (views_of catalogue.now.fragments) (database_of facts) }
    requires rows { (contents : ℕ → List ℕ)
        × HoldContents catalogue.now contents coded.old.facts.texts rows.now }
    requires there { number < length catalogue.now.fragments }
    ensures { (facts : List (Fact Term))
        → (left : HoldsLeft catalogue.now.datasets trial.now.wanted facts coded.old)
        → AreTextViews (views_of catalogue.now.fragments) (database_of facts)
        → (contents : ℕ → List ℕ)
        → (held : HoldContents catalogue.now contents coded.old.facts.texts rows.now)
        → ArePassed (rules_of trial.now.laws) left.loaded.facts (rules_of catalogue.now.rules)
        → IsFirstUnlike (views_of catalogue.now.fragments) left.loaded.facts held.rows number
        → Answers (compares catalogue.now facts contents) ⊥ result }
{
    databases_stand_for_facts();
    rules_are_sound();
    audits_are_over_files();
    let fragment = catalogue.fragments.item(number);
    match fragment_difference(alloc, fragment, rows.item(number), coded)? {
        Some(difference) => Err(Status::Differs(difference)),
        None => Ok(()),
    }
}

/// The facts meet the rules, and the rows of the fragments are those of their views; or the status of the first
/// difference.
pub fn compare(
    alloc: Global,
    catalogue: &Catalogue,
    trial: &Trial,
    files: &LoadList,
    coded: CodedData,
    rows: CodedRowsList,
) -> Result<(), Status>
    requires trial { IsTrialOf catalogue.now trial.now }
    requires facts { (facts : List (Fact Term))
        × HoldsAudit catalogue.now trial.now.wanted files.now facts coded }
    requires rows { (contents : ℕ → List ℕ)
        × HoldContents catalogue.now contents coded.facts.texts rows }
    ensures { (facts : List (Fact Term))
        → HoldsAudit catalogue.now trial.now.wanted files.now facts coded
        → (contents : ℕ → List ℕ) → HoldContents catalogue.now contents coded.facts.texts rows
        → Answers (compares catalogue.now facts contents) ⊥ result }
{
    audits_are_over_files();
    let mut coded = coded;
    match first_disagreement(alloc, catalogue, &trial.laws, &mut coded, &rows)? {
        None => Ok(()),
        Some(Disagreement::Rule(number, part)) => {
            drop(coded);
            drop(rows);
            compare_by_rule(alloc, catalogue, trial, files, number, part)
        }
        Some(Disagreement::Rows(number)) => {
            compare_by_fragment(alloc, catalogue, trial, number, &mut coded, &rows)
        }
    }
}
